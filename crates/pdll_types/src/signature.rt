//! What a declaration says to those that call it.

use crate::kind::Kind;
use sqlite_items::Items;

/// What is declared.
#[derive(Clone, Copy)]
pub enum Sort {
    Pattern,
    Constraint,
    Rewrite,
}

/// What a declaration says to those that call it.
#[derive(Drop)]
pub struct Signature {
    pub sort: Sort,
    /// The kinds of its parameters. One is missing only where the declaration is refused.
    pub params: Items<Option<Kind>>,
    /// The kind of a call of it. A pattern can't be called.
    pub gives: Option<Kind>,
}
