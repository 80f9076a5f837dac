//! Whether what a match asks for holds.

ghost use Rattle.std.specs.Prelude.{◌≡◌, ◌↔◌, [], ◌∷◌, map, Some, option_copied, option_map, IsTrue};
ghost use Rattle.std.specs.List.{AllByRecursion};
ghost use Rattle.rewrite_model.specs.Pattern as demand;
ghost use Rattle.rewrite_model.specs.Things as things;
ghost use Rattle.rewrite_model.specs.Things.{each};
ghost use Rattle.rewrite_model.specs.Holding.{thing_type, Holds};
ghost use Rattle.pdll_expand.specs.View.{expr_of, parts_of, demand_of};
ghost use Rattle.row_index.specs.Indexing.{Indexes};
ghost use Rattle.row_matcher.specs.Behind.{Leaves};
ghost use Rattle.row_matcher.specs.View.{thing_of, seen_of};

use crate::matching::denoting::{denoted, is, row_given, seen_at, type_of};
use crate::matching::naming::is_named;
use crate::matching::parts::has_parts;
use crate::natives::{holds_of_one, holds_of_two};
use crate::thing::{Seen, Thing};
use row_index::index::RowIndex;
use mlir_tree::row::Row;
use mlir_tree::ty::Ty;
use mlir_tree::value::Val;
use native_set::native::Constraint;
use pdll_expand::demand::{Demand, Parts};
use pdll_expand::expr::Expr;

/// Whether a type is there, and is this one.
fn is_type(there: Option<&Ty>, ty: &Ty) -> bool
    ensures { IsTrue result ↔ (option_copied there.entry ≡ Some ty.now) }
{
    match there {
        Some(t) => t.equal(ty),
        None => false,
    }
}

/// What stands behind a type, where it is there and stands first.
fn behind_type<'a>(there: Option<&Ty>, all: &'a [Ty]) -> Option<&'a [Ty]>
    ensures { Leaves (option_map (λ t. t ∷ []) (option_copied there.entry)) all.now (option_copied result) }
{
    match (there, all.split_first()) {
        (Some(t), Some((first, rest))) => if first.equal(t) { Some(rest) } else { None },
        _ => None,
    }
}

/// Whether the values have these types.
fn have_types(rows: &[Row], index: &RowIndex, vs: &[Val], ts: &[Ty]) -> bool
    requires { Indexes index.now rows.now }
    ensures { IsTrue result ↔ (each (things.type_of rows.now) vs.now ≡ Some ts.now) }
{
    let mut rest = ts;
    for v in vs {
        match behind_type(type_of(rows, index, *v), rest) {
            Some(more) => rest = more,
            None => return false,
        }
    }
    rest.is_empty()
}

/// Whether a thing has the type that another thing is.
fn thing_has_type(rows: &[Row], index: &RowIndex, thing: Seen<'_>, ty: Seen<'_>) -> bool
    requires { Indexes index.now rows.now }
    ensures { IsTrue result ↔ (thing_type rows.now (seen_of thing.entry) ≡ Some (seen_of ty.entry)) }
{
    match (thing, ty) {
        (Seen::Value(v), Seen::Ty(t)) => is_type(type_of(rows, index, v), t),
        (Seen::Values(vs), Seen::Tys(ts)) => have_types(rows, index, vs, ts),
        (Seen::Attr(v), Seen::Ty(t)) => is_type(v.ty(), t),
        _ => false,
    }
}

/// Whether what a number was given has the type that an expression denotes.
fn has_type(rows: &[Row], index: &RowIndex, given: &[Thing], x: usize, e: Expr) -> bool
    requires { Indexes index.now rows.now }
    ensures { IsTrue result ↔ Holds rows.now (map thing_of given.now) (demand.has_type x (expr_of e)) }
{
    match (seen_at(given, x), denoted(rows, index, given, e)) {
        (Some(thing), Some(ty)) => thing_has_type(rows, index, thing, ty),
        _ => false,
    }
}

/// Whether a number was given a row of this name.
fn has_name(rows: &[Row], index: &RowIndex, given: &[Thing], x: usize, name: &[u8]) -> bool
    requires { Indexes index.now rows.now }
    ensures { IsTrue result ↔ Holds rows.now (map thing_of given.now) (demand.has_name x name.now) }
{
    is_named(row_given(rows, index, given, x), name)
}

/// Whether a number was given a row of these parts.
fn is_row_of(rows: &[Row], index: &RowIndex, given: &[Thing], x: usize, parts: &Parts<'_>) -> bool
    requires { Indexes index.now rows.now }
    ensures { IsTrue result ↔ Holds rows.now (map thing_of given.now) (demand.has_parts x (parts_of parts.now)) }
{
    match row_given(rows, index, given, x) {
        Some(r) => has_parts(rows, index, given, parts, r),
        None => false,
    }
}

/// Whether a native constraint holds of one expression.
fn call_of_one(rows: &[Row], index: &RowIndex, given: &[Thing], c: Constraint, e: Expr) -> bool
    requires { Indexes index.now rows.now }
    ensures { IsTrue result ↔ Holds rows.now (map thing_of given.now) (demand.calls c (expr_of e ∷ [])) }
{
    match denoted(rows, index, given, e) {
        Some(t) => holds_of_one(rows, index, c, t),
        None => false,
    }
}

/// Whether a native constraint holds of two expressions.
fn call_of_two(
    rows: &[Row],
    index: &RowIndex,
    given: &[Thing],
    c: Constraint,
    e: Expr,
    f: Expr,
) -> bool
    requires { Indexes index.now rows.now }
    ensures { IsTrue result ↔ Holds rows.now (map thing_of given.now) (demand.calls c (expr_of e ∷ expr_of f ∷ [])) }
{
    match (
        denoted(rows, index, given, e),
        denoted(rows, index, given, f),
    ) {
        (Some(t), Some(u)) => holds_of_two(rows, index, c, t, u),
        _ => false,
    }
}

/// Whether a native constraint holds of expressions.
fn call_holds(
    rows: &[Row],
    index: &RowIndex,
    given: &[Thing],
    c: Constraint,
    exprs: &[Expr],
) -> bool
    requires { Indexes index.now rows.now }
    ensures { IsTrue result ↔ Holds rows.now (map thing_of given.now) (demand.calls c (map expr_of exprs.now)) }
{
    if exprs.len() == 1 {
        return call_of_one(rows, index, given, c, exprs[0]);
    }
    if exprs.len() == 2 {
        return call_of_two(rows, index, given, c, exprs[0], exprs[1]);
    }
    false
}

/// Whether what is asked for holds.
pub fn holds(rows: &[Row], index: &RowIndex, given: &[Thing], demand: &Demand<'_>) -> bool
    requires { Indexes index.now rows.now }
    ensures { IsTrue result ↔ Holds rows.now (map thing_of given.now) (demand_of demand.now) }
{
    match demand {
        Demand::Stands(e) => denoted(rows, index, given, *e).is_some(),
        Demand::IsAttr(x, v) => is(seen_at(given, *x), Seen::Attr(v)),
        Demand::IsType(x, t) => is(seen_at(given, *x), Seen::Ty(t)),
        Demand::HasName(x, name) => has_name(rows, index, given, *x, *name),
        Demand::HasParts(x, parts) => is_row_of(rows, index, given, *x, parts),
        Demand::HasType(x, e) => has_type(rows, index, given, *x, *e),
        Demand::Calls(c, exprs) => call_holds(rows, index, given, *c, exprs.as_slice()),
    }
}
