//! The names that a region has so far.

ghost use Rattle.std.specs.Prelude.{◌≡◌, []};
ghost use Rattle.std.specs.Option.{option_map};
ghost use Rattle.mlir_resolve.specs.Scopes.{find_name, named, put_name, Leaves};

use crate::named::Named;
use indexmap::IndexMap;
use mlir_attributes::fault::{ModFault, ModKind};
use mlir_tree::refusal::Refusal;
use sqlite_items::Items;
use std::alloc::{AllocError, Global};
use std::marker::Model;

/// Why a tree is refused.
pub type Refused = Refusal<ModFault>;

/// The names of a region in the order in which they were made.
#[derive(Drop)]
pub struct Scope<'t> {
    names: IndexMap<&'t [u8], Named<'t>>,
}

impl<'t> Model for Scope<'t> {
    ghost use Rattle.std.specs.Prelude.{List, map};
    ghost use Rattle.mlir_resolve.specs.Sight.{Definition};
    ghost use Rattle.mlir_resolve.specs.Scopes.{definitions_code};

    ghost Value = { List Definition };

    ghost coded = { definitions_code };

    ghost view = { λ s. map (λ e. record { name = e.0.now; first = e.1.first; types = e.1.types.now }) s.names.entries };
}

impl<'t> Scope<'t> {
    pub fn new(alloc: Global) -> Scope<'t>
        ensures { result ≡ [] }
    {
        Scope {
            names: IndexMap::new(alloc),
        }
    }

    /// What the name means in the region.
    pub fn find(&self, name: &[u8]) -> Option<Named<'t>>
        ensures { option_map (named name.now) result ≡ find_name name.now self.now }
    {
        self.names.get(name).copied()
    }

    /// Puts a name, which stands at a place, behind the others. It must not stand there yet.
    pub fn put(&mut self, name: &'t [u8], at: usize, value: Named<'t>) -> Result<(), Refused>
        ensures { Leaves (put_name self.old at (named name.now value.entry)) result self.new }
    {
        match self.names.insert(name, value)? {
            None => Ok(()),
            Some(_) => Err(Refusal::Fault(ModFault {
                kind: ModKind::Redefined,
                at,
            })),
        }
    }
}
