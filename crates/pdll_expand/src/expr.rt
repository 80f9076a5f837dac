//! Expressions of a match.

ghost use Rattle.std.specs.Prelude.{◌≡◌};
ghost use Rattle.rewrite_model.specs.MatchPart.{number_of};
ghost use Rattle.pdll_expand.specs.View.{expr_of};

/// An expression of a match. Each variable, each `_`, each left-out list, each literal and each operation expression is
/// known by a number, in the order of first mention, the parts of an operation before it.
#[derive(Clone, Copy)]
pub enum Expr {
    The(usize),
    /// The result of this index of an operation.
    Result(usize, u16),
    /// An operation among operands.
    OnlyResult(usize),
}

impl Expr {
    /// The number by which an operation is known.
    pub fn number(self) -> usize
        ensures { result ≡ number_of (expr_of self) }
    {
        match self {
            Expr::The(number) => number,
            _ => 0,
        }
    }
}
