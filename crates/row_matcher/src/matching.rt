//! Whether a pattern matches at an operation.

ghost use Rattle.std.specs.Prelude.{◌≡◌, ◌↔◌, map, IfOk, IfSome, IfNone, IsTrue};
ghost use Rattle.std.specs.List.{AllByRecursion, list_all};
ghost use Rattle.mlir_tree.specs.Module as rowset;
ghost use Rattle.rewrite_model.specs.Pattern.{Pattern};
ghost use Rattle.rewrite_model.specs.Things as spec;
ghost use Rattle.rewrite_model.specs.Holding.{Holds};
ghost use Rattle.rewrite_model.specs.Matching.{MatchesBy, Matches};
ghost use Rattle.rewrite_model.specs.Determined.{IsDetermined};
ghost use Rattle.pdll_expand.specs.View.{demand_of};
ghost use Rattle.row_index.specs.Indexing.{Indexes};
ghost use Rattle.row_matcher.specs.View.{thing_of, seen_of};
ghost use Rattle.row_matcher.specs.Asked.{Asks};

pub mod denoting;
pub mod holding;
mod learning;
mod naming;
pub mod parts;
mod segments;

use crate::matching::denoting::{is, seen_at};
use crate::matching::holding::holds;
use crate::matching::learning::told;
use crate::matching::naming::may_be_root;
use crate::thing::{Seen, Thing};
use mlir_tree::row::Row;
use mlir_tree::value::Val;
use native_set::native::Kind;
use pdll_expand::demand::Demand;
use row_index::index::{RowIndex, row_of};
use sqlite_items::Items;
use std::alloc::{AllocError, Global};

/// Whether each thing is of the kind at its place.
fn have_kinds(given: &[Thing], kinds: &[Kind]) -> bool
    ensures { IsTrue result ↔ (map spec.kind_of (map thing_of given.now) ≡ kinds.now) }
{
    let mut rest = kinds;
    for t in given {
        match rest.split_first() {
            Some((kind, more)) if t.seen().kind() == *kind => rest = more,
            _ => return false,
        }
    }
    rest.is_empty()
}

/// Whether the value exists.
fn is_value(rows: &[Row], index: &RowIndex, v: Val) -> bool
    requires { Indexes index.now rows.now }
    ensures { result ≡ rowset.is_value rows.now v }
{
    match v {
        Val::Res(d, k) => match row_of(rows, index, d) {
            Some(r) => usize::from(k) < r.results.len(),
            None => false,
        },
        Val::Arg(d, g, k) => match row_of(rows, index, d) {
            Some(r) => match r.regions.get(usize::from(g)) {
                Some(arguments) => usize::from(k) < arguments.len(),
                None => false,
            },
            None => false,
        },
    }
}

/// Whether the values exist.
fn are_values(rows: &[Row], index: &RowIndex, vs: &[Val]) -> bool
    requires { Indexes index.now rows.now }
    ensures { result ≡ list_all (rowset.is_value rows.now) vs.now }
{
    for v in vs {
        if !is_value(rows, index, *v) {
            return false;
        }
    }
    true
}

/// Whether the row is live.
#[tactic(auto, using(crate::proofs::Asking::row_is_there, crate::proofs::Asking::row_is_not_there))]
fn has_row(rows: &[Row], index: &RowIndex, id: u32) -> bool
    requires { Indexes index.now rows.now }
    ensures { result ≡ rowset.has_row rows.now id }
{
    match row_of(rows, index, id) {
        Some(_) => true,
        None => false,
    }
}

/// Whether the thing is one of the module.
fn is_thing(rows: &[Row], index: &RowIndex, t: Seen<'_>) -> bool
    requires { Indexes index.now rows.now }
    ensures { result ≡ spec.is_thing rows.now (seen_of t.entry) }
{
    match t {
        Seen::Op(id) => has_row(rows, index, id),
        Seen::Value(v) => is_value(rows, index, v),
        Seen::Values(vs) => are_values(rows, index, vs),
        _ => true,
    }
}

/// Whether the things are things of the module.
fn are_things(rows: &[Row], index: &RowIndex, given: &[Thing]) -> bool
    requires { Indexes index.now rows.now }
    ensures { result ≡ list_all (spec.is_thing rows.now) (map thing_of given.now) }
{
    for t in given {
        if !is_thing(rows, index, t.seen()) {
            return false;
        }
    }
    true
}

/// Whether all that is asked for holds.
fn all_hold(rows: &[Row], index: &RowIndex, given: &[Thing], demands: &[Demand<'_>]) -> bool
    requires { Indexes index.now rows.now }
    ensures { IsTrue result ↔ AllByRecursion (Holds rows.now (map thing_of given.now)) (map demand_of demands.now) }
{
    for demand in demands {
        if !holds(rows, index, given, demand) {
            return false;
        }
    }
    true
}

/// Whether the pattern of these kinds, demands and root matches at an operation under an assignment.
pub fn matches_by(
    rows: &[Row],
    index: &RowIndex,
    kinds: &[Kind],
    demands: &[Demand<'_>],
    root: usize,
    given: &[Thing],
    id: u32,
) -> bool
    requires { Indexes index.now rows.now }
    ensures { (p : Pattern) → Asks kinds.now demands.now root p → IsTrue result ↔ MatchesBy rows.now p (map thing_of given.now) id }
{
    have_kinds(given, kinds)
        && are_things(rows, index, given)
        && all_hold(rows, index, given, demands)
        && is(seen_at(given, root), Seen::Op(id))
}

/// Where the pattern of these kinds, demands and root matches at an operation, the assignment under which it does.
pub fn match_at(
    alloc: Global,
    rows: &[Row],
    index: &RowIndex,
    kinds: &[Kind],
    demands: &[Demand<'_>],
    root: usize,
    id: u32,
) -> Result<Option<Items<Thing>>, AllocError>
    requires { Indexes index.now rows.now }
    // What is found is an assignment under which it matches.
    ensures found { IfOk result (λ found. IfSome found (λ a. (p : Pattern) → Asks kinds.now demands.now root p → MatchesBy rows.now p (map thing_of a) id)) }
    // Where nothing is found, it doesn't match.
    ensures none { IfOk result (λ found. IfNone found ((p : Pattern) → Asks kinds.now demands.now root p → IsDetermined p → Matches rows.now p id → ⊥)) }
{
    if !may_be_root(row_of(rows, index, id), demands, root) {
        return Ok(None);
    }
    let found = told(alloc, rows, index, kinds, demands, root, id)?;
    match found {
        None => Ok(None),
        Some(given) => if matches_by(rows, index, kinds, demands, root, given.as_slice(), id) {
            Ok(Some(given))
        } else {
            Ok(None)
        },
    }
}
