//! Native constraints.

ghost use Rattle.std.specs.Prelude.{◌≡◌, ◌↔◌, ◌+◌, ◌∷◌, [], ◌≤◌, min, count_by, Some, option_map, IsTrue};
ghost use Rattle.mlir_tree.specs.Edits.{val_eq};
ghost use Rattle.mlir_tree.specs.Module as rowset;
ghost use Rattle.rewrite_model.specs.Holding.{uses, is_result_of, result_uses, NativeHolds};
ghost use Rattle.row_index.specs.Indexing.{Indexes};
ghost use Rattle.row_matcher.specs.View.{seen_of};

use crate::thing::Seen;
use row_index::index::{RowIndex, row_of};
use mlir_tree::row::{Home, Row};
use mlir_tree::value::Val;
use native_set::arithmetic::{is_int, is_zero};
use native_set::native::Constraint;

/// Whether the values are the same.
pub fn is_value(v: Val, w: Val) -> bool
    ensures { result ≡ val_eq v w }
{
    match (v, w) {
        (Val::Res(d, k), Val::Res(e, j)) => d == e && k == j,
        (Val::Arg(d, g, k), Val::Arg(e, h, j)) => d == e && g == h && k == j,
        _ => false,
    }
}

/// Whether the value is a result of the row.
fn is_result(id: u32, v: Val) -> bool
    ensures { result ≡ is_result_of id v }
{
    match v {
        Val::Res(d, _) => d == id,
        Val::Arg(_, _, _) => false,
    }
}

/// How many operand places hold the value, with those that were seen before. Two count as many.
fn count_in(seen: u8, v: Val, operands: &[Val]) -> u8
    requires { seen ≤ 2 }
    ensures { result ≡ min 2 (seen + count_by (val_eq v) operands.now) }
{
    let mut count = seen;
    for w in operands {
        if count < 2 && is_value(v, *w) {
            count += 1;
        }
    }
    count
}

/// Whether exactly one operand place holds the value.
fn has_one_use(rows: &[Row], v: Val) -> bool
    ensures { IsTrue result ↔ (uses rows.now v ≡ 1) }
{
    let mut count = 0;
    for r in rows {
        count = count_in(count, v, r.operands.as_slice());
    }
    count == 1
}

/// Whether no operand place holds a result of the row.
fn holds_no_result(id: u32, operands: &[Val]) -> bool
    ensures { IsTrue result ↔ (count_by (is_result_of id) operands.now ≡ 0) }
{
    for v in operands {
        if is_result(id, *v) {
            return false;
        }
    }
    true
}

/// Whether no operand place of any row holds a result of the row.
fn has_no_use(rows: &[Row], id: u32) -> bool
    ensures { IsTrue result ↔ (result_uses rows.now id ≡ 0) }
{
    for r in rows {
        if !holds_no_result(id, r.operands.as_slice()) {
            return false;
        }
    }
    true
}

/// The region in which a row stands.
fn home_of(rows: &[Row], index: &RowIndex, id: u32) -> Option<Home>
    requires { Indexes index.now rows.now }
    ensures { result ≡ rowset.home_of rows.now id }
{
    match row_of(rows, index, id) {
        Some(r) => r.home,
        None => None,
    }
}

/// Whether the row is there and has no regions.
fn has_no_regions(rows: &[Row], index: &RowIndex, id: u32) -> bool
    requires { Indexes index.now rows.now }
    ensures { IsTrue result ↔ (option_map (λ r. r.regions) (rowset.row_of rows.now id) ≡ Some []) }
{
    match row_of(rows, index, id) {
        Some(r) => r.regions.is_empty(),
        None => false,
    }
}

/// Whether a native constraint holds of one thing.
pub fn holds_of_one(rows: &[Row], index: &RowIndex, c: Constraint, t: Seen<'_>) -> bool
    requires { Indexes index.now rows.now }
    ensures { IsTrue result ↔ NativeHolds rows.now c (seen_of t.entry ∷ []) }
{
    match (c, t) {
        (Constraint::HasOneUse, Seen::Value(v)) => has_one_use(rows, v),
        (Constraint::HasNoUse, Seen::Op(id)) => has_no_use(rows, id),
        (Constraint::IsInt, Seen::Attr(v)) => is_int(v),
        (Constraint::IsZero, Seen::Attr(v)) => is_zero(v),
        (Constraint::NoRegions, Seen::Op(id)) => has_no_regions(rows, index, id),
        _ => false,
    }
}

/// Whether a native constraint holds of two things.
pub fn holds_of_two(rows: &[Row], index: &RowIndex, c: Constraint, t: Seen<'_>, u: Seen<'_>) -> bool
    requires { Indexes index.now rows.now }
    ensures { IsTrue result ↔ NativeHolds rows.now c (seen_of t.entry ∷ seen_of u.entry ∷ []) }
{
    match (c, t, u) {
        (Constraint::SameBlock, Seen::Op(i), Seen::Op(j)) => home_of(rows, index, i)
            == home_of(rows, index, j),
        _ => false,
    }
}
