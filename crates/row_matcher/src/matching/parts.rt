//! The parts of an operation against its row.

ghost use Rattle.std.specs.Prelude.{◌≡◌, ◌↔◌, [], ◌∷◌, map, Some, option_copied, option_map, option_and_then, IsTrue};
ghost use Rattle.std.specs.List.{AllByRecursion};
ghost use Rattle.std.specs.Str.{bytes_eq};
ghost use Rattle.mlir_tree.specs.Edits as edits;
ghost use Rattle.rewrite_model.specs.Ranges.{has_ranges};
ghost use Rattle.rewrite_model.specs.Things.{kind_of, concatenated, values_in, types_in, values_denoted, types_denoted};
ghost use Rattle.rewrite_model.specs.Holding.{HasEntry, HasOperands, HasParts};
ghost use Rattle.pdll_expand.specs.View.{expr_of, named_expr_of, parts_of};
ghost use Rattle.row_index.specs.Indexing.{Indexes};
ghost use Rattle.row_matcher.specs.View.{thing_of, seen_of};
ghost use Rattle.row_matcher.specs.Behind.{Leaves};

use crate::matching::denoting::{denoted, is};
use crate::matching::segments::{are_given_ranges, has_segments, spelled_sizes};
use crate::thing::{Seen, Thing};
use mlir_tree::attr::Attr;
use mlir_tree::row::Row;
use mlir_tree::text::Text;
use mlir_tree::ty::{Ty, equal_tys};
use mlir_tree::value::{Val, equal_vals};
use pdll_expand::demand::{NamedExpr, Parts};
use pdll_expand::expr::Expr;
use row_index::index::RowIndex;

// ---- operands

/// What stands behind this value, where it stands first.
fn behind_value<'a>(v: Val, all: &'a [Val]) -> Option<&'a [Val]>
    ensures { Leaves (Some (v ∷ [])) all.now (option_copied result) }
{
    match all.split_first() {
        Some((first, rest)) => if *first == v { Some(rest) } else { None },
        None => None,
    }
}

/// What stands behind these values, where they stand first.
fn behind_values<'a>(part: &[Val], all: &'a [Val]) -> Option<&'a [Val]>
    ensures { Leaves (Some part.now) all.now (option_copied result) }
{
    if part.len() > all.len() {
        return None;
    }
    let (front, rest) = all.split_at(part.len());
    if equal_vals(front, part) {
        Some(rest)
    } else {
        None
    }
}

/// What stands behind the values of a thing, where they stand first.
fn behind_value_part<'a>(part: Option<Seen<'_>>, all: &'a [Val]) -> Option<&'a [Val]>
    ensures { Leaves (option_and_then values_in (option_map seen_of part.entry)) all.now (option_copied result) }
{
    match part {
        Some(Seen::Value(v)) => behind_value(v, all),
        Some(Seen::Values(vs)) => behind_values(vs, all),
        _ => None,
    }
}

/// Whether these expressions denote the operands, one behind another.
#[tactic(auto, using(crate::proofs::Fitting::part_off, crate::proofs::Fitting::no_part))]
fn has_operands(
    rows: &[Row],
    index: &RowIndex,
    given: &[Thing],
    exprs: &[Expr],
    all: &[Val],
) -> bool
    requires { Indexes index.now rows.now }
    ensures { IsTrue result ↔ (concatenated (values_denoted rows.now (map thing_of given.now)) (map expr_of exprs.now) ≡ Some all.now) }
{
    let mut rest = all;
    for e in exprs {
        match behind_value_part(denoted(rows, index, given, *e), rest) {
            Some(more) => rest = more,
            None => return false,
        }
    }
    rest.is_empty()
}

/// Whether these expressions denote the operands of the row: by its segments where two or more are ranges, and otherwise
/// one behind another.
fn has_all_operands(
    rows: &[Row],
    index: &RowIndex,
    given: &[Thing],
    exprs: &[Expr],
    r: &Row,
) -> bool
    requires { Indexes index.now rows.now }
    ensures { IsTrue result ↔ HasOperands (has_ranges (map kind_of (map thing_of given.now)) (map expr_of exprs.now)) rows.now (map thing_of given.now) (map expr_of exprs.now) r.now }
{
    if !are_given_ranges(given, exprs) {
        return has_operands(rows, index, given, exprs, r.operands.as_slice());
    }
    match spelled_sizes(r) {
        Some(sizes) => has_segments(rows, index, given, exprs, sizes, r.operands.as_slice()),
        None => false,
    }
}

// ---- types

/// What stands behind this type, where it stands first.
fn behind_type<'a>(t: &Ty, all: &'a [Ty]) -> Option<&'a [Ty]>
    ensures { Leaves (Some (t.now ∷ [])) all.now (option_copied result) }
{
    match all.split_first() {
        Some((first, rest)) => if first.equal(t) { Some(rest) } else { None },
        None => None,
    }
}

/// What stands behind these types, where they stand first.
fn behind_types<'a>(part: &[Ty], all: &'a [Ty]) -> Option<&'a [Ty]>
    ensures { Leaves (Some part.now) all.now (option_copied result) }
{
    if part.len() > all.len() {
        return None;
    }
    let (front, rest) = all.split_at(part.len());
    if equal_tys(front, part) {
        Some(rest)
    } else {
        None
    }
}

/// What stands behind the types of a thing, where they stand first.
fn behind_type_part<'a>(part: Option<Seen<'_>>, all: &'a [Ty]) -> Option<&'a [Ty]>
    ensures { Leaves (option_and_then types_in (option_map seen_of part.entry)) all.now (option_copied result) }
{
    match part {
        Some(Seen::Ty(t)) => behind_type(t, all),
        Some(Seen::Tys(ts)) => behind_types(ts, all),
        _ => None,
    }
}

/// Whether these expressions denote the types, one behind another.
fn has_types(rows: &[Row], index: &RowIndex, given: &[Thing], exprs: &[Expr], all: &[Ty]) -> bool
    requires { Indexes index.now rows.now }
    ensures { IsTrue result ↔ (concatenated (types_denoted rows.now (map thing_of given.now)) (map expr_of exprs.now) ≡ Some all.now) }
{
    let mut rest = all;
    for e in exprs {
        match behind_type_part(denoted(rows, index, given, *e), rest) {
            Some(more) => rest = more,
            None => return false,
        }
    }
    rest.is_empty()
}

// ---- attributes

fn is_text(a: &[u8], b: &[u8]) -> bool
    ensures { result ≡ bytes_eq a.now b.now }
{
    a == b
}

/// The attribute of this name in a dictionary.
fn entry_of<'r>(entries: &'r [(Text, Attr)], name: &[u8]) -> Option<&'r Attr>
    ensures { option_copied result ≡ edits.entry_of entries.now name.now }
{
    for entry in entries {
        if is_text(entry.0.as_slice(), name) {
            return Some(&entry.1);
        }
    }
    None
}

/// The attribute of this name.
pub fn attribute_of<'r>(r: &'r Row, name: &[u8]) -> Option<&'r Attr>
    ensures { option_copied result ≡ edits.attribute_of r.now name.now }
{
    match entry_of(r.props.as_slice(), name) {
        Some(v) => Some(v),
        None => entry_of(r.attrs.as_slice(), name),
    }
}

/// Whether the attribute of a name is what the expression denotes.
fn has_entry(rows: &[Row], index: &RowIndex, given: &[Thing], r: &Row, e: &NamedExpr<'_>) -> bool
    requires { Indexes index.now rows.now }
    ensures { IsTrue result ↔ HasEntry rows.now (map thing_of given.now) r.now (named_expr_of e.now) }
{
    match attribute_of(r, e.name) {
        Some(v) => is(denoted(rows, index, given, e.value), Seen::Attr(v)),
        None => false,
    }
}

/// Whether each of these names has the attribute that its expression denotes.
fn has_entries(
    rows: &[Row],
    index: &RowIndex,
    given: &[Thing],
    r: &Row,
    entries: &[NamedExpr<'_>],
) -> bool
    requires { Indexes index.now rows.now }
    ensures { IsTrue result ↔ AllByRecursion (HasEntry rows.now (map thing_of given.now) r.now) (map named_expr_of entries.now) }
{
    for e in entries {
        if !has_entry(rows, index, given, r, e) {
            return false;
        }
    }
    true
}

// ---- all

/// Whether the row has the parts of an operation.
pub fn has_parts(
    rows: &[Row],
    index: &RowIndex,
    given: &[Thing],
    parts: &Parts<'_>,
    r: &Row,
) -> bool
    requires { Indexes index.now rows.now }
    ensures { IsTrue result ↔ HasParts rows.now (map thing_of given.now) (parts_of parts.now) r.now }
{
    has_all_operands(rows, index, given, parts.operands.as_slice(), r)
        && has_entries(rows, index, given, r, parts.entries.as_slice())
        && has_types(
            rows,
            index,
            given,
            parts.types.as_slice(),
            r.results.as_slice(),
        )
}
