//! Sizes, counted up to the greatest number of 32 bits.

ghost use Rattle.std.specs.Prelude.{◌≡◌};
ghost use Rattle.rewrite_model.specs.Size as spec;
ghost use Rattle.pdll_sizes.specs.Capped.{capped_size, sum};

/// How many statements, operations and expressions something has after expanding, each of them the greatest number where
/// there are more.
#[derive(Clone, Copy)]
pub struct Size {
    pub statements: u32,
    pub operations: u32,
    pub expressions: u32,
}

impl Size {
    #[tactic(auto, unfolding(crate::specs::Capped::capped_size, crate::specs::Capped::capped))]
    pub fn nothing() -> Size
        ensures { result ≡ capped_size spec.nothing }
    {
        Size {
            statements: 0,
            operations: 0,
            expressions: 0,
        }
    }

    #[tactic(auto, unfolding(crate::specs::Capped::capped_size, crate::specs::Capped::capped))]
    pub fn one_statement() -> Size
        ensures { result ≡ capped_size spec.one_statement }
    {
        Size {
            statements: 1,
            operations: 0,
            expressions: 0,
        }
    }

    #[tactic(auto, unfolding(crate::specs::Capped::capped_size, crate::specs::Capped::capped))]
    pub fn one_operation() -> Size
        ensures { result ≡ capped_size spec.one_operation }
    {
        Size {
            statements: 0,
            operations: 1,
            expressions: 0,
        }
    }

    #[tactic(auto, unfolding(crate::specs::Capped::capped_size, crate::specs::Capped::capped))]
    pub fn one_expression() -> Size
        ensures { result ≡ capped_size spec.one_expression }
    {
        Size {
            statements: 0,
            operations: 0,
            expressions: 1,
        }
    }

    /// Both together.
    #[tactic(auto, unfolding(crate::specs::Capped::sum, crate::specs::Capped::capped))]
    pub fn and(self, other: Size) -> Size
        ensures { result ≡ sum self other }
    {
        Size {
            statements: self.statements.saturating_add(other.statements),
            operations: self.operations.saturating_add(other.operations),
            expressions: self.expressions.saturating_add(other.expressions),
        }
    }
}
