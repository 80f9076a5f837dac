//! What calls of the constraints and rewrites declared so far add.

ghost use Rattle.std.specs.Prelude.{◌≡◌, ◌+◌, ◌≤◌, ◌||◌, ◌∷◌, [], nat_lt, vec_len, vec_capacity, OnOk, OnErr};
ghost use Rattle.pdll_syntax.specs.declared.file.Decl.TheVariants as decl;
ghost use Rattle.rewrite_model.specs.Size as spec;
ghost use Rattle.pdll_sizes.specs.Capped.{capped_size};
ghost use Rattle.pdll_sizes.specs.Kept.{last_first, IsPattern, IsPut};

use crate::declarations::{call_size, decl_size};
use crate::size::Size;
use indexmap::IndexMap;
use pdll_syntax::file::{CallDecl, Decl};
use std::alloc::{AllocError, Global};
use std::marker::Model;

/// The most statements of a declaration.
const MOST_STATEMENTS: u32 = 4096;
/// The most expressions of a declaration.
const MOST_EXPRESSIONS: u32 = 65_535;
/// The most operations of a pattern.
const MOST_OPERATIONS: u32 = 256;
/// The most expressions of all patterns.
const MOST_IN_PATTERNS: u32 = 1_000_000;

/// What calls of the constraints and rewrites declared so far add, by name, and the expressions of all patterns so far.
#[derive(Drop)]
pub struct Sizes<'t> {
    constraints: IndexMap<&'t [u8], Size>,
    rewrites: IndexMap<&'t [u8], Size>,
    /// The expressions of all patterns, or the greatest number where there are more.
    expressions: u32,
    /// The declarations so far.
    declared: Vec<&'t Decl>,
}

impl<'t> Model for Sizes<'t> {
    ghost use Rattle.std.specs.Prelude.{List};
    ghost use Rattle.pdll_syntax.specs.declared.file.Decl.{Decl as Meaning};

    ghost Value = { List Meaning };

    ghost use Rattle.std.specs.Coded.{coded_list};
    ghost use Rattle.pdll_syntax.specs.contracts.file.Decl as declaration;

    ghost coded = { coded_list declaration.the_row.coded };

    ghost use Rattle.pdll_sizes.specs.Kept.{last_first, IsKept};

    ghost view = { λ s. last_first s.declared.items };

    ghost invariant = { λ s. IsKept (last_first s.declared.items) s.constraints.entries s.rewrites.entries s.expressions };
}

impl<'t> Sizes<'t> {
    /// Before the first declaration.
    pub fn new(alloc: Global) -> Sizes<'t>
        ensures { result ≡ [] }
    {
        Sizes {
            constraints: IndexMap::new(alloc),
            rewrites: IndexMap::new(alloc),
            expressions: 0,
            declared: Vec::new(alloc),
        }
    }

    /// What a call of the constraint of this name adds.
    pub(crate) fn of_constraint(&self, name: &[u8]) -> Size
        ensures { result ≡ capped_size ((spec.sizes self.now).constraint name.now) }
    {
        match self.constraints.get(name) {
            Some(size) => *size,
            None => Size::nothing(),
        }
    }

    /// What a call of the rewrite of this name adds.
    pub(crate) fn of_rewrite(&self, name: &[u8]) -> Size
        ensures { result ≡ capped_size ((spec.sizes self.now).rewrite name.now) }
    {
        match self.rewrites.get(name) {
            Some(size) => *size,
            None => Size::nothing(),
        }
    }

    /// Whether a declaration behind those so far is too large after expanding.
    pub fn is_too_large(&self, d: &Decl) -> bool
        ensures { result ≡ spec.is_too_large self.now d.now }
    {
        let size = decl_size(self, d);
        match d {
            Decl::Pattern(_) => {
                is_large_pattern(size, size.expressions.saturating_add(self.expressions))
            }
            Decl::Constraint(_) => is_long(size),
            Decl::Rewrite(_) => is_long(size),
        }
    }

    /// Declares one more.
    pub fn declare(&mut self, d: &'t Decl) -> Result<(), AllocError>
        ensures { OnOk result (self.new ≡ d.now ∷ self.old) }
    {
        match d {
            Decl::Pattern(_) => self.declare_pattern(d),
            Decl::Constraint(call) => self.declare_constraint(d, call),
            Decl::Rewrite(call) => self.declare_rewrite(d, call),
        }
    }

    fn declare_pattern(&mut self, d: &'t Decl) -> Result<(), AllocError>
        requires { IsPattern d.now }
        ensures { OnOk result (self.new ≡ d.now ∷ self.old) }
    {
        let size = decl_size(self, d);
        self.declared.reserve(1)?;
        self.expressions = size.expressions.saturating_add(self.expressions);
        push(&mut self.declared, d);
        Ok(())
    }

    fn declare_constraint(&mut self, d: &'t Decl, call: &'t CallDecl) -> Result<(), AllocError>
        requires { d.now ≡ decl.Constraint call.now }
        ensures { OnOk result (self.new ≡ d.now ∷ self.old) }
    {
        let size = call_size(self, call);
        self.declared.reserve(1)?;
        put(&mut self.constraints, call.name.text.as_slice(), size)?;
        push(&mut self.declared, d);
        Ok(())
    }

    fn declare_rewrite(&mut self, d: &'t Decl, call: &'t CallDecl) -> Result<(), AllocError>
        requires { d.now ≡ decl.Rewrite call.now }
        ensures { OnOk result (self.new ≡ d.now ∷ self.old) }
    {
        let size = call_size(self, call);
        self.declared.reserve(1)?;
        put(&mut self.rewrites, call.name.text.as_slice(), size)?;
        push(&mut self.declared, d);
        Ok(())
    }
}

/// Whether a declaration of this size is too long.
fn is_long(size: Size) -> bool
    ensures { result ≡ (nat_lt 4096 size.statements || nat_lt 65535 size.expressions) }
{
    size.statements > MOST_STATEMENTS || size.expressions > MOST_EXPRESSIONS
}

/// Whether a pattern of this size, with which all patterns have so many expressions, is too large.
fn is_large_pattern(size: Size, all: u32) -> bool
    ensures { result ≡ ((nat_lt 4096 size.statements || nat_lt 65535 size.expressions) || (nat_lt 256 size.operations || nat_lt 1000000 all)) }
{
    is_long(size) || size.operations > MOST_OPERATIONS || all > MOST_IN_PATTERNS
}

/// Keeps a size for a name, in the place of the one that was kept for it.
fn put<'t>(all: &mut IndexMap<&'t [u8], Size>, name: &'t [u8], size: Size) -> Result<(), AllocError>
    ensures put { OnOk result (IsPut name.now size all.old.entries all.new.entries) }
    ensures unchanged { OnErr result (all.new.entries ≡ all.old.entries) }
{
    all.insert(name, size)?;
    Ok(())
}

/// Puts a declaration behind the others, for which there is room.
fn push<'t>(all: &mut Vec<&'t Decl>, d: &'t Decl)
    requires { vec_len all.old + 1 ≤ vec_capacity all.old }
    ensures { last_first all.new.items ≡ d.now ∷ last_first all.old.items }
{
    let Ok(()) = all.push(d) else { unreachable!() };
}
