//! What a match asks for.

use crate::expr::Expr;
use mlir_tree::attr::Attr;
use mlir_tree::ty::Ty;
use native_set::native::Constraint;
use sqlite_items::Items;

/// An expression with the name of an attribute.
#[derive(Clone, Copy)]
pub struct NamedExpr<'t> {
    pub name: &'t [u8],
    pub value: Expr,
}

/// What stands behind the name in `op<name>(..) {..} -> (..)`.
#[derive(Drop)]
pub struct Parts<'t> {
    pub operands: Items<Expr>,
    pub entries: Items<NamedExpr<'t>>,
    pub types: Items<Expr>,
}

/// What a match asks for. That an expression denotes something is asked where it is written.
#[derive(Drop)]
pub enum Demand<'t> {
    /// The expression denotes something.
    Stands(Expr),
    /// `attr<"..">`
    IsAttr(usize, Attr),
    /// `type<"..">`
    IsType(usize, Ty),
    /// `op<name>`, `x: Op<name>`
    HasName(usize, &'t [u8]),
    /// `op<..>(..) {..} -> (..)`
    HasParts(usize, Parts<'t>),
    /// `x: Value<t>`, `x: ValueRange<t>`, `x: Attr<t>`
    HasType(usize, Expr),
    /// A call of a native constraint.
    Calls(Constraint, Items<Expr>),
}
