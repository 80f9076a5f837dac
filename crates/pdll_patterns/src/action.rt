//! What a rewrite does.

use mlir_tree::attr::Attr;
use mlir_tree::ty::Ty;
use native_set::native::Rewrite;
use pdll_expand::expr::Expr;
use sqlite_items::Items;

/// A thing that an action works on.
#[derive(Clone, Copy)]
pub enum Part {
    /// What an expression of the match denoted when the step began.
    Matched(Expr),
    /// What the rewrite made, counted from 0.
    Made(usize),
}

/// A part with the name of an attribute.
#[derive(Clone, Copy)]
pub struct NamedPart<'t> {
    pub name: &'t [u8],
    pub part: Part,
}

/// What stands behind the name in `op<name>(..) {..} -> (..)`.
#[derive(Drop)]
pub struct Parts<'t> {
    pub operands: Items<Part>,
    pub entries: Items<NamedPart<'t>>,
    pub types: Items<Part>,
}

/// An expression of the rewrite whose parts are there.
#[derive(Drop)]
pub enum Making<'t> {
    AttrLiteral(Attr),
    TypeLiteral(Ty),
    NewOperation(&'t [u8], Parts<'t>),
    /// The result of this index of an operation.
    ResultOf(Part, u16),
    /// An operation among operands.
    OnlyResultOf(Part),
    /// An operation among replacements.
    ResultsOf(Part),
    /// Left-out types directly after `replace e with`.
    ResultTypesOf(Part),
    Native(Rewrite, Items<Part>),
}

/// What a rewrite does, one after another.
#[derive(Drop)]
pub enum Action<'t> {
    Makes(Making<'t>),
    Replaces(Part, Items<Part>),
    Erases(Part),
}
