//! Aliases that were defined earlier in the file.

ghost use Rattle.std.specs.Prelude.{◌≡◌, ◌∷◌, ◌++◌, [], None, OnOk, option_copied};
ghost use Rattle.mlir_attributes.specs.Aliases as spec;

use indexmap::IndexMap;
use mlir_tree::attr::Attr;
use mlir_tree::text::Text;
use mlir_tree::ty::Ty;
use std::alloc::{AllocError, Global};
use std::marker::Model;

/// What an alias stands for.
#[derive(Drop)]
pub enum Meaning {
    /// A type.
    Ty(Ty),
    /// An attribute.
    Attr(Attr),
    /// A location, which is dropped.
    Location,
}

/// The definition of an alias.
#[derive(Drop)]
pub struct Alias {
    /// Its name, with the `!` or `#`.
    pub name: Text,
    pub meaning: Meaning,
    /// The printed text of what it stands for.
    pub text: Text,
    /// The most brackets that are open at once in this text.
    pub brackets: usize,
}

/// The aliases that were defined so far, in the order of their definitions, which are found by their names.
#[derive(Drop)]
pub struct Aliases {
    by_name: IndexMap<Vec<u8>, Alias>,
}

impl Model for Aliases {
    ghost use Rattle.std.specs.Prelude.{List};
    ghost use Rattle.mlir_attributes.specs.declared.aliases.Alias.{Alias as Definition};
    ghost use Rattle.mlir_attributes.specs.Aliases.{defined, AreNamed};

    ghost Value = { List Definition };

    ghost use Rattle.std.specs.Coded.{coded_list};
    ghost use Rattle.mlir_attributes.specs.AliasCode.{coded_alias};

    ghost coded = { coded_list coded_alias };

    ghost view = { λ a. defined a.by_name.entries };

    ghost invariant = { λ a. AreNamed a.by_name.entries };
}

impl Aliases {
    /// No aliases.
    pub fn new(alloc: Global) -> Aliases
        ensures { result ≡ [] }
    {
        Aliases {
            by_name: IndexMap::new(alloc),
        }
    }

    /// The definition of this name.
    pub fn find(&self, name: &[u8]) -> Option<&Alias>
        ensures { option_copied result ≡ spec.find name.now self.now }
    {
        self.by_name.get(name)
    }

    /// Defines an alias, whose name is new.
    pub fn define(&mut self, alloc: Global, alias: Alias) -> Result<(), AllocError>
        requires { spec.find alias.name self.old ≡ None }
        ensures { OnOk result (self.new ≡ self.old ++ alias ∷ []) }
    {
        let name = Vec::from_slice(alloc, alias.name.as_slice())?;
        self.by_name.insert(name, alias)?;
        Ok(())
    }
}

/// Whether a name has a point, as `!dialect.name`: it is never an alias.
pub fn has_point(name: &[u8]) -> bool
    ensures { result ≡ spec.has_point name.now }
{
    name.iter().any(|b| *b == b'.')
}
