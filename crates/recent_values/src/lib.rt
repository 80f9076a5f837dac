//! Equal values that were made lately share memory.
//!
//! A table of slots, each with the last value that was made there. A hit is compared whole before it is used, so what is
//! promised rests on no fact about the table: a call gives an equal value, and the table only says how much memory it takes.
#![tactic(auto)]

ghost use Rattle.std.specs.Prelude.{◌≡◌, ◌<◌, ◌≤◌, ◌+◌, length, IfOk};

use mlir_tree::attr::{Attr, AttrNode, Dict, equal_dicts};
use mlir_tree::text::Text;
use mlir_tree::ty::{Ty, TyList, TyNode, equal_tys};
use shared_list::Shared;
use shared_text::SharedText;
use sqlite_items::Items;
use std::alloc::{AllocError, Global};

const SLOTS: usize = 1024;

/// What was made lately.
#[derive(Drop)]
pub struct Recent {
    texts: Vec<Text>,
    types: Vec<TyList>,
    dicts: Vec<Dict>,
}

/// A hash of bytes (FNV-1a).
fn stir(state: u64, bytes: &[u8]) -> u64 {
    let mut state = state;
    for b in bytes {
        state = (state ^ u64::from(*b)).wrapping_mul(1099511628211);
    }
    state
}

fn stir_number(state: u64, number: u64) -> u64 {
    (state ^ number).wrapping_mul(1099511628211)
}

fn stir_ty(state: u64, ty: &Ty) -> u64 {
    match &ty.node {
        TyNode::Int(_, width) => stir_number(state, u64::from(*width)),
        TyNode::Index => stir_number(state, 300),
        TyNode::Func(inputs, _) => stir_number(state, 301).wrapping_add(inputs.len() as u64),
        TyNode::Word(text) => stir(state, text.as_slice()),
    }
}

fn stir_attr(state: u64, attr: &Attr) -> u64 {
    match &attr.node {
        AttrNode::Unit => stir_number(state, 302),
        AttrNode::Int(number, _) => stir_number(state, (number.mag % 4294967296) as u64),
        AttrNode::Num(text, _) | AttrNode::Str(text, _) | AttrNode::Kept(text, _) => stir(
            state,
            text.as_slice(),
        ),
        AttrNode::Sym(names) => stir_number(state, names.len() as u64),
        AttrNode::OfTy(ty) => stir_ty(state, ty),
        AttrNode::Array(items) => stir_number(state, items.len() as u64),
        AttrNode::Dict(items) => stir_number(state, items.len() as u64),
    }
}

fn slot_of(hash: u64) -> usize
    ensures { result < 1024 }
{
    ((hash ^ (hash >> 32)) % 1024) as usize
}

fn types_slot(types: &[Ty]) -> usize
    ensures { result < 1024 }
{
    let mut hash = types.len() as u64;
    for ty in types {
        hash = stir_ty(hash, ty);
    }
    slot_of(hash)
}

fn dict_slot(entries: &[(Text, Attr)]) -> usize
    ensures { result < 1024 }
{
    let mut hash = entries.len() as u64;
    for entry in entries {
        hash = stir_attr(stir(hash, entry.0.as_slice()), &entry.1);
    }
    slot_of(hash)
}

// Puts a value into its slot. All slots are made at the first.
fn keep<T: Drop>(
    slots: &mut Vec<Shared<T>>,
    at: usize,
    made: &Shared<T>,
) -> Result<(), AllocError> {
    if slots.is_empty() {
        slots.reserve(SLOTS)?;
        for _ in 0..SLOTS {
            slots.push(Shared::empty())?;
        }
    }
    if at < slots.len() {
        slots[at] = made.copy()?;
    }
    Ok(())
}

// Puts a text into its slot. All slots are made at the first.
fn keep_text(slots: &mut Vec<Text>, at: usize, made: &Text) -> Result<(), AllocError> {
    if slots.is_empty() {
        slots.reserve(SLOTS)?;
        for _ in 0..SLOTS {
            slots.push(SharedText::empty())?;
        }
    }
    if at < slots.len() {
        slots[at] = made.copy()?;
    }
    Ok(())
}

impl Recent {
    pub fn new(alloc: Global) -> Recent {
        Recent {
            texts: Vec::new(alloc),
            types: Vec::new(alloc),
            dicts: Vec::new(alloc),
        }
    }

    /// The text of these bytes.
    pub fn text(&mut self, alloc: Global, bytes: &[u8]) -> Result<Text, AllocError>
        ensures { IfOk result (λ t. t ≡ bytes.now) }
    {
        if bytes.len() <= 22 {
            return SharedText::from_slice(alloc, bytes);
        }
        let at = slot_of(stir(14695981039346656037, bytes));
        if let Some(text) = self.texts.get(at) {
            if text.as_slice() == bytes {
                return text.copy();
            }
        }
        let text = SharedText::from_slice(alloc, bytes)?;
        keep_text(&mut self.texts, at, &text)?;
        Ok(text)
    }

    /// The list of these types.
    pub fn types(&mut self, alloc: Global, types: Items<Ty>) -> Result<TyList, AllocError>
        ensures { IfOk result (λ ts. ts ≡ types) }
    {
        let at = types_slot(types.as_slice());
        if let Some(list) = self.types.get(at) {
            if equal_tys(list.as_slice(), types.as_slice()) {
                return list.copy();
            }
        }
        let list = Shared::new(alloc, types)?;
        keep(&mut self.types, at, &list)?;
        Ok(list)
    }

    /// The dictionary of these entries.
    pub fn dict(&mut self, alloc: Global, entries: Items<(Text, Attr)>) -> Result<Dict, AllocError>
        ensures { IfOk result (λ d. d ≡ entries) }
    {
        let at = dict_slot(entries.as_slice());
        if let Some(dict) = self.dicts.get(at) {
            if equal_dicts(dict.as_slice(), entries.as_slice()) {
                return dict.copy();
            }
        }
        let dict = Shared::new(alloc, entries)?;
        keep(&mut self.dicts, at, &dict)?;
        Ok(dict)
    }
}
