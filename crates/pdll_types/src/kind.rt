//! Kinds of expressions.

ghost use Rattle.std.specs.Prelude.{◌≡◌, IfOk};
ghost use Rattle.pdll_types.specs.Kinds.{is_name_taken, is_taken, is_row, is_call, is_operand, is_type_or_types, is_range};

use mlir_tree::text::{Text, copy_text};
use sqlite_items::Items;
use std::alloc::{AllocError, Global};

/// What an expression stands for.
#[derive(Drop)]
pub enum Kind {
    /// An operation, with its name where that is known.
    Row(Option<Text>),
    Value,
    /// A range of values.
    Values,
    Attr,
    Ty,
    /// A range of types.
    Tys,
    /// Nothing: a call that is only a statement.
    Call,
}

/// Kinds in the order of the text.
pub type KindList = Items<Kind>;

pub(crate) fn copy_maybe_text(
    alloc: Global,
    text: &Option<Text>,
) -> Result<Option<Text>, AllocError>
    ensures { IfOk result (λ t. t ≡ text.now) }
{
    match text {
        None => Ok(None),
        Some(text) => Ok(Some(copy_text(alloc, text)?)),
    }
}

impl Kind {
    /// An equal kind.
    pub fn copy(&self, alloc: Global) -> Result<Kind, AllocError>
        ensures { IfOk result (λ k. k ≡ self.now) }
    {
        match self {
            Kind::Row(name) => Ok(Kind::Row(copy_maybe_text(alloc, name)?)),
            Kind::Value => Ok(Kind::Value),
            Kind::Values => Ok(Kind::Values),
            Kind::Attr => Ok(Kind::Attr),
            Kind::Ty => Ok(Kind::Ty),
            Kind::Tys => Ok(Kind::Tys),
            Kind::Call => Ok(Kind::Call),
        }
    }

    /// Whether something of the other kind is taken where this one is written.
    pub(crate) fn takes(&self, other: &Kind) -> bool
        ensures { result ≡ is_taken self.now other.now }
    {
        match (self, other) {
            (Kind::Row(written), Kind::Row(known)) => is_name_taken(written, known),
            (Kind::Value, Kind::Value) => true,
            (Kind::Values, Kind::Values) => true,
            (Kind::Attr, Kind::Attr) => true,
            (Kind::Ty, Kind::Ty) => true,
            (Kind::Tys, Kind::Tys) => true,
            _ => false,
        }
    }

    pub(crate) fn is_row(&self) -> bool
        ensures { result ≡ is_row self.now }
    {
        matches!(self, Kind::Row(_))
    }

    pub(crate) fn is_call(&self) -> bool
        ensures { result ≡ is_call self.now }
    {
        matches!(self, Kind::Call)
    }

    /// Whether it may be an operand.
    pub(crate) fn is_operand(&self) -> bool
        ensures { result ≡ is_operand self.now }
    {
        matches!(self, Kind::Row(_) | Kind::Value | Kind::Values)
    }

    /// Whether it may be a result type.
    pub(crate) fn is_type_or_types(&self) -> bool
        ensures { result ≡ is_type_or_types self.now }
    {
        matches!(self, Kind::Ty | Kind::Tys)
    }

    pub(crate) fn is_range(&self) -> bool
        ensures { result ≡ is_range self.now }
    {
        matches!(self, Kind::Values | Kind::Tys)
    }
}

/// Whether an operation, whose name may be known, is one where `Op` with or without a name is written.
fn is_name_taken(written: &Option<Text>, known: &Option<Text>) -> bool
    ensures { result ≡ is_name_taken written.now known.now }
{
    match (written, known) {
        (None, _) => true,
        (Some(name), Some(other)) => name.as_slice() == other.as_slice(),
        (Some(_), None) => false,
    }
}

/// An equal kind, where there is one.
pub(crate) fn copy_maybe_kind(
    alloc: Global,
    kind: &Option<Kind>,
) -> Result<Option<Kind>, AllocError>
    ensures { IfOk result (λ k. k ≡ kind.now) }
{
    match kind {
        None => Ok(None),
        Some(kind) => Ok(Some(kind.copy(alloc)?)),
    }
}
