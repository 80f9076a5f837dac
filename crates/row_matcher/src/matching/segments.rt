//! The operands of a row by their segments.

ghost use Rattle.std.specs.Prelude.{◌≡◌, ◌↔◌, map, Some, option_copied, option_map, option_and_then, IsTrue};
ghost use Rattle.segment_sizes.specs.Sizes.{parts};
ghost use Rattle.segment_sizes.specs.Reading.{segments_in};
ghost use Rattle.rewrite_model.specs.Ranges as ranges;
ghost use Rattle.rewrite_model.specs.Things.{kind_of, values_in};
ghost use Rattle.pdll_expand.specs.View.{expr_of};
ghost use Rattle.row_index.specs.Indexing.{Indexes};
ghost use Rattle.row_matcher.specs.View.{thing_of, seen_of};
ghost use Rattle.row_matcher.specs.Learning as spec;
ghost use Rattle.row_matcher.specs.Segments.{AreDenoted, SpellsSegments, IsNextSegment};

use crate::matching::denoting::denoted;
use crate::matching::parts::attribute_of;
use crate::thing::{Seen, Thing};
use mlir_tree::row::Row;
use mlir_tree::value::{Val, equal_vals};
use native_set::native::Kind;
use pdll_expand::expr::Expr;
use row_index::index::RowIndex;
use segment_sizes::segments::{Segment, first_segment, segment_count};
use segment_sizes::sizes::spelling;
use sqlite_items::at;

/// Whether an expression stands for several values or types.
pub fn is_range(kinds: &[Kind], e: Expr) -> bool
    ensures { result ≡ ranges.is_range kinds.now (expr_of e) }
{
    match e {
        Expr::The(x) => match kinds.get(x) {
            Some(Kind::Values) | Some(Kind::Tys) => true,
            _ => false,
        },
        _ => false,
    }
}

/// Whether two or more of the expressions stand for several values or types.
#[tactic(auto, using(crate::proofs::Segments::ranges_next))]
pub fn has_ranges(kinds: &[Kind], exprs: &[Expr]) -> bool
    ensures { result ≡ ranges.has_ranges kinds.now (map expr_of exprs.now) }
{
    let mut one = false;
    for e in exprs {
        if is_range(kinds, *e) {
            if one {
                return true;
            }
            one = true;
        }
    }
    false
}

/// Whether an expression stands for several values or types, by what the numbers were given.
#[tactic(auto, using(crate::proofs::Segments::kind_there, crate::proofs::Segments::kind_nowhere))]
fn is_given_range(given: &[Thing], e: Expr) -> bool
    ensures { result ≡ ranges.is_range (map kind_of (map thing_of given.now)) (expr_of e) }
{
    match e {
        Expr::The(x) => match at(given, x) {
            Some(t) => matches!(t.seen().kind(), Kind::Values | Kind::Tys),
            None => false,
        },
        _ => false,
    }
}

/// Whether two or more of the expressions do.
#[tactic(auto, using(crate::proofs::Segments::ranges_next))]
pub fn are_given_ranges(given: &[Thing], exprs: &[Expr]) -> bool
    ensures { result ≡ ranges.has_ranges (map kind_of (map thing_of given.now)) (map expr_of exprs.now) }
{
    let mut one = false;
    for e in exprs {
        if is_given_range(given, *e) {
            if one {
                return true;
            }
            one = true;
        }
    }
    false
}

/// The sizes of the segments of the row's operands, as its attribute spells them, where it has segments.
#[tactic(auto, using(crate::proofs::Segments::no_attribute, crate::proofs::Segments::counted, crate::proofs::Segments::spelled))]
pub fn spelled_sizes(r: &Row) -> Option<&[u8]>
    ensures { SpellsSegments r.now (option_copied result) }
{
    let sizes = attribute_of(r, b"operandSegmentSizes")?;
    segment_count(sizes, r.operands.len())?;
    spelling(sizes)
}

/// Whether a thing has exactly these values.
fn has_values(part: Option<Seen<'_>>, all: &[Val]) -> bool
    ensures { IsTrue result ↔ (option_and_then values_in (option_map seen_of part.entry) ≡ Some all.now) }
{
    match part {
        Some(Seen::Value(v)) => match all.split_first() {
            Some((first, rest)) => *first == v && rest.is_empty(),
            None => false,
        },
        Some(Seen::Values(vs)) => equal_vals(vs, all),
        _ => false,
    }
}

/// The first segment of a list by the sizes that are left.
pub fn next_segment<'a>(left: Option<&'a [u8]>, all: &'a [Val]) -> Option<Segment<'a, Val>>
    ensures { IsNextSegment (option_copied left.entry) all.now result }
{
    match left {
        Some(sizes) => first_segment(sizes, all),
        None => None,
    }
}

/// Whether each of these expressions denotes the values of its segment.
#[tactic(auto, using(crate::proofs::Segments::segments_next, crate::proofs::Segments::segments_differ, crate::proofs::Segments::segments_end, crate::proofs::Segments::all_denoted))]
pub fn has_segments(
    rows: &[Row],
    index: &RowIndex,
    given: &[Thing],
    exprs: &[Expr],
    sizes: &[u8],
    all: &[Val],
) -> bool
    requires { Indexes index.now rows.now }
    ensures { IsTrue result ↔ AreDenoted rows.now (map thing_of given.now) (map expr_of exprs.now) (segments_in (parts sizes.now) all.now) }
{
    let mut left = Some(sizes);
    let mut rest = all;
    for e in exprs {
        match next_segment(left, rest) {
            Some(s) => {
                if !has_values(denoted(rows, index, given, *e), s.items) {
                    return false;
                }
                left = s.sizes;
                rest = s.rest;
            }
            None => return false,
        }
    }
    left.is_none() && rest.is_empty()
}

/// What a member of a list of operands is by its segment.
pub fn segment_thing(is_range: bool, all: &[Val]) -> Option<Seen<'_>>
    ensures { option_map seen_of result ≡ spec.segment_thing is_range all.now }
{
    if is_range {
        return Some(Seen::Values(all));
    }
    match all.split_first() {
        Some((first, [])) => Some(Seen::Value(*first)),
        _ => None,
    }
}
