//! What holds a module.

ghost use Rattle.std.specs.Prelude.{◌≡◌, IfOk};
ghost use Rattle.mlir_tree.specs.declared.rows.Rows.{Rows as Module};

use crate::rows::Rows;
use std::alloc::{AllocError, Global};

/// A module, however it is kept. Contracts see it as its rows.
pub trait Content {
    /// The rows that it stands for.
    ghost rows: { Self → Module };

    /// The module as rows of their own.
    fn give_rows(&self, alloc: Global) -> Result<Rows, AllocError>
        ensures { IfOk result (λ given. given ≡ rows self.now) };
}

impl Content for Rows {
    ghost rows = { λ m. m };

    fn give_rows(&self, alloc: Global) -> Result<Rows, AllocError> {
        self.copy(alloc)
    }
}
