//! The declarations before a pattern.

ghost use Rattle.std.specs.Prelude.{◌≡◌, ◌∷◌, [], List, OnOk};
ghost use Rattle.pdll_syntax.specs.declared.file.Decl.{Decl as Declaration};
ghost use Rattle.pdll_patterns.specs.Files.{IsEarlier};

use pdll_expand::constraints::Constraints;
use pdll_expand::declared::Declared;
use pdll_syntax::file::Decl;
use std::alloc::{AllocError, Global};

/// The constraints and the rewrites that are declared so far.
#[derive(Drop)]
pub struct Earlier<'t> {
    pub constraints: Constraints<'t>,
    pub rewrites: Declared<'t>,
}

impl<'t> Earlier<'t> {
    /// None is declared.
    pub fn new(alloc: Global) -> Self
        ensures { IsEarlier result [] }
    {
        Earlier {
            constraints: Constraints::new(alloc),
            rewrites: Declared::new(alloc),
        }
    }

    /// Adds a declaration. Patterns add nothing.
    pub fn declare(&mut self, alloc: Global, d: &'t Decl) -> Result<(), AllocError>
        ensures { (earlier : List Declaration) → IsEarlier self.old earlier → OnOk result (IsEarlier self.new (d.now ∷ earlier)) }
    {
        self.constraints.declare(alloc, d)?;
        match d {
            Decl::Pattern(_) => Ok(()),
            Decl::Constraint(_) => Ok(()),
            Decl::Rewrite(call) => {
                self.rewrites.add(call)?;
                Ok(())
            }
        }
    }
}
