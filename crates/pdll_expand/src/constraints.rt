//! The constraints that are declared so far.

ghost use Rattle.std.specs.Prelude.{◌≡◌, map};
ghost use Rattle.pdll_expand.specs.View.{written_of};
ghost use Rattle.pdll_expand.specs.Called.{calls_in, IsTable};
ghost use Rattle.pdll_expand.specs.Behind.{kinds_of};

use crate::declared::Declared;
use crate::sight::{Sight, first_param_kind};
use crate::written::Written;
use pdll_syntax::file::{CallDecl, Decl};
use sqlite_items::Items;
use std::alloc::{AllocError, Global};

/// The constraints in their order, found by hashing, with what is written for the first parameter of each.
#[derive(Drop)]
pub struct Constraints<'t> {
    calls: Declared<'t>,
    params: Items<Written<'t>>,
    ghost table: { ∥ IsTable calls (calls_in calls) ∥₁ },
    ghost kinds: { map written_of params ≡ kinds_of (calls_in calls) },
}

/// A constraint, and its place among those that are declared.
#[derive(Clone, Copy)]
pub struct Found<'t> {
    pub at: usize,
    pub call: &'t CallDecl,
}

impl<'t> Constraints<'t> {
    ghost use Rattle.std.specs.Prelude.{◌∷◌, [], ◌<◌, List, OnOk, IfSome, Some, take, length, option_map, slice_get, option_copied};
    ghost use Rattle.pdll_syntax.specs.declared.file.Decl.{Decl as Declaration};
    ghost use Rattle.pdll_syntax.specs.declared.file.Decl.TheVariants as decl;
    ghost use Rattle.rewrite_model.specs.Names.{of_kind};
    ghost use Rattle.native_set.specs.declared.native.Kind.TheVariants as kind;
    ghost use Rattle.pdll_expand.specs.Called.{last_named};
    ghost use Rattle.pdll_expand.specs.Behind.{behind};
    ghost use Rattle.pdll_expand.specs.Table.{calls_of, meaning_of, Knows};

    /// Before the first declaration.
    pub fn new(alloc: Global) -> Self
        ensures none { Knows result [] }
    {
        Constraints {
            calls: Declared::new(alloc),
            params: Items::new(alloc),
        }
    }

    /// How many are declared.
    pub(crate) fn len(&self) -> usize
        ensures { result ≡ length (calls_of self.now) }
    {
        self.calls.len()
    }

    /// The place of the last one of a name among the first `count`.
    fn place(&self, name: &[u8], count: usize) -> Option<usize>
        ensures within { IfSome result (λ k. k < count) }
        ensures found { result ≡ last_named name.now (take count (calls_of self.now)) }
    {
        self.calls.find(name, count)
    }

    /// The last one of a name among the first `count`.
    pub(crate) fn find(&self, name: &[u8], count: usize) -> Option<Found<'t>>
        ensures within { IfSome result (λ f. f.at < count) }
        ensures there { IfSome result (λ f. slice_get (calls_of self.now) f.at ≡ Some f.call.now) }
        ensures means { behind (take count (calls_of self.now)) name.now ≡ meaning_of (calls_of self.now) result name.now }
    {
        match self.place(name, count) {
            None => None,
            Some(at) => {
                match self.calls.get(at) {
                    None => None,
                    Some(call) => Some(Found { at, call }),
                }
            }
        }
    }

    /// What is written for the first parameter of the one at a place.
    pub(crate) fn param(&self, at: usize) -> Option<Written<'t>>
        ensures { option_map written_of result ≡ slice_get (kinds_of (calls_of self.now)) at }
    {
        match self.params.get(at) {
            None => None,
            Some(written) => Some(*written),
        }
    }

    /// Adds a declaration. Patterns and rewrites add nothing.
    pub fn declare(&mut self, alloc: Global, d: &'t Decl) -> Result<(), AllocError>
        ensures added { (earlier : List Declaration) → Knows self.old earlier → OnOk result (Knows self.new (d.now ∷ earlier)) }
    {
        match d {
            Decl::Constraint(call) => self.add(call),
            _ => Ok(()),
        }
    }

    /// Adds a constraint.
    fn add(&mut self, call: &'t CallDecl) -> Result<(), AllocError>
        ensures { (earlier : List Declaration) → Knows self.old earlier → OnOk result (Knows self.new (decl.Constraint call.now ∷ earlier)) }
    {
        let written = first_param_kind(Sight::quiet(self), call.params.as_slice());
        self.params.push(written)?;
        match self.calls.add(call) {
            Ok(()) => Ok(()),
            Err(e) => {
                self.params.pop();
                Err(e)
            }
        }
    }
}
