//! Types.

ghost use Rattle.std.specs.Prelude.{◌≡◌, ◌↔◌, IfOk, IsTrue};
ghost use Rattle.mlir_tree.specs.Order.{ty_cmp, tys_cmp, ty_option_cmp};
ghost use Rattle.mlir_tree.specs.Tree.{int, index, func, word, tys};
ghost use Rattle.mlir_tree.specs.Range.{IsInRange};
ghost use Rattle.mlir_tree.specs.TyView.{node_rank};

use crate::number::{Number, is_below_power};
use crate::sign::Sign;
use crate::text::Text;
use shared_list::Shared;
use sqlite_items::Items;
use std::alloc::{AllocError, Global};
use std::cmp::Ordering;
use std::marker::Model;

/// A type (MLIR Language Reference, "Type System"). Contracts see it as a tree, and code looks at its node.
#[cycle(ty)]
#[derive(Drop)]
pub struct Ty {
    pub node: TyNode,
}

/// An integer type by sign and width, `index`, a function type by its inputs and results, or any other type as it is written.
#[cycle(ty)]
#[derive(Drop)]
pub enum TyNode {
    Int(Sign, u32),
    Index,
    Func(TyList, TyList),
    Word(Text),
}

/// A list of types. Copies share it.
pub type TyList = Shared<Ty>;

impl Model for Ty {
    ghost use Rattle.mlir_tree.specs.Tree.{Ty as Meaning};
    ghost use Rattle.mlir_tree.specs.Codes.{coded_ty};

    ghost Value = { Meaning };

    ghost coded = { coded_ty };

    ghost use Rattle.mlir_tree.specs.Measure.{ty_size};
    ghost use Rattle.mlir_tree.specs.TyView.{ty_of};

    ghost view = { λ t. ty_of t.node };

    ghost size = { ty_size };

    ghost use Rattle.mlir_tree.specs.TyFalls.{ty_falls};

    ghost size_decreases = { λ a h. ty_falls a.node };
}

impl Ty {
    /// The integer type of this sign and width.
    pub fn int(sign: Sign, width: u32) -> Ty
        ensures { result ≡ int sign width }
    {
        Ty {
            node: TyNode::Int(sign, width),
        }
    }

    /// The type `index`.
    pub fn index() -> Ty
        ensures { result ≡ index }
    {
        Ty {
            node: TyNode::Index,
        }
    }

    /// The function type of these inputs and results.
    pub fn func(inputs: TyList, results: TyList) -> Ty
        ensures { result ≡ func (tys inputs) (tys results) }
    {
        Ty {
            node: TyNode::Func(inputs, results),
        }
    }

    /// The type that is written so.
    pub fn word(text: Text) -> Ty
        ensures { result ≡ word text }
    {
        Ty {
            node: TyNode::Word(text),
        }
    }

    /// Whether an integer of the type may have this value.
    pub fn holds(&self, number: Number) -> bool
        ensures { IsTrue result ↔ IsInRange self.now number }
    {
        match &self.node {
            TyNode::Int(Sign::Unsigned, width) => *width <= 128
                && !number.neg
                && is_below_power(*width, number.mag),
            TyNode::Int(_, width) => *width <= 128 && number.is_signed(*width),
            TyNode::Index => number.is_signed(64),
            _ => false,
        }
    }

    /// An equal type, which shares the parts of this one.
    pub fn copy(&self, _alloc: Global) -> Result<Ty, AllocError>
        ensures { IfOk result (λ t. t ≡ self.now) }
    {
        match &self.node {
            TyNode::Int(sign, width) => Ok(Ty::int(*sign, *width)),
            TyNode::Index => Ok(Ty::index()),
            TyNode::Func(inputs, results) => Ok(Ty::func(inputs.copy()?, results.copy()?)),
            TyNode::Word(text) => Ok(Ty::word(text.copy()?)),
        }
    }

    /// The order by variants as they are declared, then by fields from left to right.
    #[cycle(cmp_ty)]
    pub fn cmp(&self, other: &Ty) -> Ordering
        ensures { result ≡ ty_cmp self.now other.now }
    {
        match (&self.node, &other.node) {
            (TyNode::Int(s, w), TyNode::Int(t, v)) => s.cmp(t).then(w.cmp(v)),
            (TyNode::Func(a, b), TyNode::Func(c, d)) => cmp_tys(a.as_slice(), c.as_slice()).then(
                cmp_tys(b.as_slice(), d.as_slice()),
            ),
            (TyNode::Word(s), TyNode::Word(t)) => s.as_slice().cmp(t.as_slice()),
            (m, n) => rank(m).cmp(&rank(n)),
        }
    }

    /// Whether the types are equal.
    pub fn equal(&self, other: &Ty) -> bool
        ensures { IsTrue result ↔ (self.now ≡ other.now) }
    {
        self.cmp(other).is_eq()
    }
}

fn rank(node: &TyNode) -> u8
    ensures { result ≡ node_rank node.now }
{
    match node {
        TyNode::Int(_, _) => 0,
        TyNode::Index => 1,
        TyNode::Func(_, _) => 2,
        TyNode::Word(_) => 3,
    }
}

/// Equal types.
pub fn copy_tys(alloc: Global, all: &[Ty]) -> Result<TyList, AllocError>
    ensures { IfOk result (λ t. t ≡ all.now) }
{
    let mut copied = Items::from_vec(Vec::with_capacity(alloc, all.len())?);
    for ty in all {
        copied.push(ty.copy(alloc)?)?;
    }
    Shared::new(alloc, copied)
}

/// The order of lists of types by their first difference.
#[cycle(cmp_ty)]
pub fn cmp_tys(a: &[Ty], b: &[Ty]) -> Ordering
    ensures { result ≡ tys_cmp (tys a.now) (tys b.now) }
{
    let mut at = 0;
    while at < a.len() && at < b.len() {
        let step = a[at].cmp(&b[at]);
        if step.is_ne() {
            return step;
        }
        at += 1;
    }
    a.len().cmp(&b.len())
}

/// Whether the types are equal one by one.
pub fn equal_tys(a: &[Ty], b: &[Ty]) -> bool
    ensures { IsTrue result ↔ (a.now ≡ b.now) }
{
    cmp_tys(a, b).is_eq()
}

/// An equal type where there is one.
pub fn copy_ty_option(alloc: Global, ty: &Option<Ty>) -> Result<Option<Ty>, AllocError>
    ensures { IfOk result (λ copy. copy ≡ ty.now) }
{
    match ty {
        None => Ok(None),
        Some(ty) => Ok(Some(ty.copy(alloc)?)),
    }
}

/// The order in which no type is below each type.
pub fn cmp_ty_options(a: &Option<Ty>, b: &Option<Ty>) -> Ordering
    ensures { result ≡ ty_option_cmp a.now b.now }
{
    match (a, b) {
        (None, None) => Ordering::Equal,
        (None, Some(_)) => Ordering::Less,
        (Some(_), None) => Ordering::Greater,
        (Some(x), Some(y)) => x.cmp(y),
    }
}
