//! What the expressions of a match denote.

ghost use Rattle.std.specs.Prelude.{◌≡◌, ◌↔◌, map, slice_get, Some, option_copied, option_map, IsTrue};
ghost use Rattle.mlir_tree.specs.Edits as edits;
ghost use Rattle.rewrite_model.specs.Things as spec;
ghost use Rattle.rewrite_model.specs.Holding as holding;
ghost use Rattle.pdll_expand.specs.View.{expr_of};
ghost use Rattle.row_index.specs.Indexing.{Indexes};
ghost use Rattle.row_matcher.specs.View.{thing_of, seen_of};

use crate::thing::{Seen, Thing};
use row_index::index::{RowIndex, row_of};
use mlir_tree::row::Row;
use mlir_tree::ty::Ty;
use mlir_tree::value::Val;
use pdll_expand::expr::Expr;

/// What a number was given.
#[tactic(auto, using(crate::proofs::Fitting::thing_there, crate::proofs::Fitting::thing_nowhere))]
pub fn seen_at(given: &[Thing], x: usize) -> Option<Seen<'_>>
    ensures { option_map seen_of result ≡ slice_get (map thing_of given.now) x }
{
    match given.get(x) {
        Some(t) => Some(t.seen()),
        None => None,
    }
}

/// The row that a number was given.
pub fn row_given<'r>(
    rows: &'r [Row],
    index: &RowIndex,
    given: &[Thing],
    x: usize,
) -> Option<&'r Row>
    requires { Indexes index.now rows.now }
    ensures { option_copied result ≡ holding.row_given rows.now (map thing_of given.now) x }
{
    match seen_at(given, x) {
        Some(Seen::Op(id)) => row_of(rows, index, id),
        _ => None,
    }
}

/// A result of a row.
fn result_at(r: &Row, k: u16) -> Option<Seen<'static>>
    ensures { option_map seen_of result ≡ spec.result_at k r.now }
{
    if usize::from(k) < r.results.len() {
        return Some(Seen::Value(Val::Res(r.id, k)));
    }
    None
}

/// The result of a row that has exactly one.
fn only_result_at(r: &Row) -> Option<Seen<'static>>
    ensures { option_map seen_of result ≡ spec.only_result_at r.now }
{
    if r.results.len() == 1 {
        return Some(Seen::Value(Val::Res(r.id, 0)));
    }
    None
}

/// What an expression denotes.
pub fn denoted<'a>(rows: &[Row], index: &RowIndex, given: &'a [Thing], e: Expr) -> Option<Seen<'a>>
    requires { Indexes index.now rows.now }
    ensures { option_map seen_of result ≡ spec.denoted rows.now (map thing_of given.now) (expr_of e) }
{
    match e {
        Expr::The(x) => seen_at(given, x),
        Expr::Result(x, k) => match row_given(rows, index, given, x) {
            Some(r) => result_at(r, k),
            None => None,
        },
        Expr::OnlyResult(x) => match row_given(rows, index, given, x) {
            Some(r) => only_result_at(r),
            None => None,
        },
    }
}

/// Whether there is a thing, and it is this one.
pub fn is(there: Option<Seen<'_>>, thing: Seen<'_>) -> bool
    ensures { IsTrue result ↔ (option_map seen_of there.entry ≡ Some (seen_of thing.entry)) }
{
    match there {
        Some(t) => t.equal(thing),
        None => false,
    }
}

/// The type of a value.
pub fn type_of<'r>(rows: &'r [Row], index: &RowIndex, v: Val) -> Option<&'r Ty>
    requires { Indexes index.now rows.now }
    ensures { option_copied result ≡ spec.type_of rows.now v }
{
    match v {
        Val::Res(d, k) => match row_of(rows, index, d) {
            Some(r) => r.results.get(usize::from(k)),
            None => None,
        },
        Val::Arg(d, g, k) => match row_of(rows, index, d) {
            Some(r) => match r.regions.get(usize::from(g)) {
                Some(arguments) => arguments.get(usize::from(k)),
                None => None,
            },
            None => None,
        },
    }
}
