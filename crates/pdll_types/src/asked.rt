//! What a place asks of the expression that stands there.

ghost use Rattle.std.specs.Prelude.{◌≡◌};
ghost use Rattle.pdll_types.specs.Asking.{asked_of};
ghost use Rattle.pdll_types.specs.Kinds.{answers, is_written};

use crate::kind::Kind;

/// What a place asks for.
#[derive(Clone, Copy)]
pub enum Asked<'a> {
    /// Nothing: a statement.
    Anything,
    /// The operation that a pattern is about.
    Root,
    /// What a constraint stands for.
    ConstraintCall,
    /// Exactly the kind that is written, if one is.
    Written(&'a Option<Kind>),
    /// Anything that has a kind.
    NotCall,
    Operand,
    ResultType,
    Operation,
    Attribute,
    Type,
    Types,
}

fn is_written(written: &Option<Kind>, given: &Option<Kind>) -> bool
    ensures { result ≡ is_written written.now given.now }
{
    match (written, given) {
        (Some(written), Some(given)) => written.takes(given),
        (Some(_), None) => false,
        (None, Some(given)) => !given.is_call(),
        (None, None) => true,
    }
}

impl<'a> Asked<'a> {
    /// Whether an expression of this kind may stand there.
    pub fn is_met(self, kind: &Option<Kind>) -> bool
        ensures { result ≡ answers (asked_of self.entry) kind.now }
    {
        match (self, kind) {
            (Asked::Anything, _) => true,
            (Asked::ConstraintCall, _) => true,
            (Asked::Written(written), _) => is_written(written, kind),
            (Asked::NotCall | Asked::Root, _) => is_written(&None, kind),
            (_, None) => false,
            (Asked::Operand, Some(kind)) => kind.is_operand(),
            (Asked::ResultType, Some(kind)) => kind.is_type_or_types(),
            (Asked::Operation, Some(kind)) => kind.is_row(),
            (Asked::Attribute, Some(kind)) => matches!(kind, Kind::Attr),
            (Asked::Type, Some(kind)) => matches!(kind, Kind::Ty),
            (Asked::Types, Some(kind)) => matches!(kind, Kind::Tys),
        }
    }
}
