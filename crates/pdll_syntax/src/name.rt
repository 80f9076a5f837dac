//! The parts that hold no tree: texts, names and literals.

ghost use Rattle.std.specs.Prelude.{◌≡◌, IfOk};

pub use mlir_tree::text::{Text, copy_text};
use std::alloc::{AllocError, Global};

/// A name that is declared.
#[derive(Drop)]
pub struct Name {
    /// The place of the word.
    pub at: usize,
    pub text: Text,
}

/// The string of a literal `attr<..>` or `type<..>`.
#[derive(Drop)]
pub struct Literal {
    /// The place of the string.
    pub at: usize,
    /// The bytes between its quotes, escapes read.
    pub bytes: Text,
}

impl Name {
    ghost use Rattle.pdll_syntax.specs.Equal.{name_eq};
    ghost use Rattle.std.specs.Prelude.{◌≡◌, IfOk};

    /// An equal name.
    pub fn copy(&self, alloc: Global) -> Result<Name, AllocError>
        ensures { IfOk result (λ n. n ≡ self.now) }
    {
        Ok(Name {
            at: self.at,
            text: copy_text(alloc, &self.text)?,
        })
    }

    pub(crate) fn same(&self, other: &Name) -> bool
        ensures { result ≡ name_eq self.now other.now }
    {
        self.at == other.at && self.text.as_slice() == other.text.as_slice()
    }
}

impl Literal {
    ghost use Rattle.pdll_syntax.specs.Equal.{literal_eq};
    ghost use Rattle.std.specs.Prelude.{◌≡◌, IfOk};

    /// An equal literal.
    pub fn copy(&self, alloc: Global) -> Result<Literal, AllocError>
        ensures { IfOk result (λ l. l ≡ self.now) }
    {
        Ok(Literal {
            at: self.at,
            bytes: copy_text(alloc, &self.bytes)?,
        })
    }

    pub(crate) fn same(&self, other: &Literal) -> bool
        ensures { result ≡ literal_eq self.now other.now }
    {
        self.at == other.at && self.bytes.as_slice() == other.bytes.as_slice()
    }
}
