//! What is known of the things that numbers have.

ghost use Rattle.std.specs.Prelude.{◌≡◌, List, map, length, Some, None, replicate, slice_get, option_copied, option_map, option_and_then, ◌↔◌, [], ◌∷◌, IsTrue, IfOk, OnOk};
ghost use Rattle.rewrite_model.specs.Things as things;
ghost use Rattle.mlir_tree.specs.declared.value.Val.{Val as Value};
ghost use Rattle.segment_sizes.specs.Sizes.{parts as size_parts};
ghost use Rattle.segment_sizes.specs.Reading.{segments_in};
ghost use Rattle.rewrite_model.specs.Holding as holding;
ghost use Rattle.rewrite_model.specs.Laws as laws;
ghost use Rattle.pdll_expand.specs.View.{expr_of, named_expr_of, parts_of, demand_of};
ghost use Rattle.row_index.specs.Indexing.{Indexes};
ghost use Rattle.row_matcher.specs.View.{thing_of, seen_of};
ghost use Rattle.row_matcher.specs.Learning as spec;

use crate::matching::denoting::type_of;
use crate::matching::parts::attribute_of;
use crate::matching::segments::{has_ranges, is_range, next_segment, segment_thing, spelled_sizes};
use crate::thing::{Seen, Thing};
use mlir_tree::row::Row;
use mlir_tree::ty::{Ty, TyList};
use mlir_tree::value::Val;
use native_set::native::Kind;
use pdll_expand::demand::{Demand, NamedExpr, Parts};
use pdll_expand::expr::Expr;
use row_index::index::{RowIndex, row_of};
use shared_list::Shared;
use sqlite_items::Items;
use std::alloc::{AllocError, Global};

/// What is known of the numbers 0, 1, ..
pub type Known = Items<Option<Thing>>;

/// Nothing is known of so many numbers.
fn nothing_known(alloc: Global, count: usize) -> Result<Known, AllocError>
    ensures { IfOk result (λ k. spec.known_of k ≡ replicate count None) }
{
    let mut known = Items::new(alloc);
    for _ in 0..count {
        known.push(None)?;
    }
    Ok(known)
}

/// Whether nothing is known of a number.
fn is_open(known: &[Option<Thing>], x: usize) -> bool
    ensures { IsTrue result ↔ (slice_get known.now x ≡ Some None) }
{
    match known.get(x) {
        Some(None) => true,
        _ => false,
    }
}

/// Learns the thing of a number, where nothing is known of it.
fn learn(alloc: Global, known: &mut Known, x: usize, thing: Seen<'_>) -> Result<(), AllocError>
    ensures { OnOk result (spec.known_of known.new ≡ spec.learnt x (seen_of thing.entry) (spec.known_of known.old)) }
{
    if is_open(known.as_slice(), x) {
        let own = thing.copied(alloc)?;
        known.set(x, Some(own));
    }
    Ok(())
}

/// Learns the thing of the number in an expression, by what the expression denotes.
fn tell(alloc: Global, known: &mut Known, e: Expr, thing: Seen<'_>) -> Result<(), AllocError>
    ensures { OnOk result (spec.known_of known.new ≡ spec.tell (expr_of e) (Some (seen_of thing.entry)) (spec.known_of known.old)) }
{
    match (e, thing) {
        (Expr::The(x), _) => learn(alloc, known, x, thing),
        (Expr::Result(x, _), Seen::Value(Val::Res(d, _))) => learn(alloc, known, x, Seen::Op(d)),
        (Expr::OnlyResult(x), Seen::Value(Val::Res(d, _))) => learn(alloc, known, x, Seen::Op(d)),
        _ => Ok(()),
    }
}

// ---- attributes

/// Tells an expression the attribute of a name.
fn tell_entry(
    alloc: Global,
    known: &mut Known,
    r: &Row,
    e: &NamedExpr<'_>,
) -> Result<(), AllocError>
    ensures { OnOk result (spec.known_of known.new ≡ spec.tell_entries r.now (named_expr_of e.now ∷ []) (spec.known_of known.old)) }
{
    match attribute_of(r, e.name) {
        Some(v) => tell(alloc, known, e.value, Seen::Attr(v)),
        None => Ok(()),
    }
}

/// Tells expressions the attributes of their names.
fn tell_entries(
    alloc: Global,
    known: &mut Known,
    r: &Row,
    entries: &[NamedExpr<'_>],
) -> Result<(), AllocError>
    ensures { OnOk result (spec.known_of known.new ≡ spec.tell_entries r.now (map named_expr_of entries.now) (spec.known_of known.old)) }
{
    for e in entries {
        tell_entry(alloc, known, r, e)?;
    }
    Ok(())
}

// ---- types

/// The types of values, if all have one.
fn types_of(
    alloc: Global,
    rows: &[Row],
    index: &RowIndex,
    vs: &[Val],
) -> Result<Option<TyList>, AllocError>
    requires { Indexes index.now rows.now }
    ensures { IfOk result (λ ts. ts ≡ things.each (things.type_of rows.now) vs.now) }
{
    let mut types = Items::new(alloc);
    for v in vs {
        match type_of(rows, index, *v) {
            Some(t) => types.push(t.copy(alloc)?)?,
            None => return Ok(None),
        }
    }
    let all = Shared::new(alloc, types)?;
    Ok(Some(all))
}

/// What a thing has for a type.
fn thing_type(
    alloc: Global,
    rows: &[Row],
    index: &RowIndex,
    thing: Seen<'_>,
) -> Result<Option<Thing>, AllocError>
    requires { Indexes index.now rows.now }
    ensures { IfOk result (λ t. option_map thing_of t ≡ holding.thing_type rows.now (seen_of thing.entry)) }
{
    match thing {
        Seen::Value(v) => match type_of(rows, index, v) {
            Some(t) => Ok(Some(Thing::Ty(t.copy(alloc)?))),
            None => Ok(None),
        },
        Seen::Values(vs) => match types_of(alloc, rows, index, vs)? {
            Some(ts) => Ok(Some(Thing::Tys(ts))),
            None => Ok(None),
        },
        Seen::Attr(v) => match v.ty() {
            Some(t) => Ok(Some(Thing::Ty(t.copy(alloc)?))),
            None => Ok(None),
        },
        _ => Ok(None),
    }
}

// ---- lists of values

/// The first piece of a list of values, with what is left, where so many are behind. A range leaves one for each.
fn value_piece<'a>(is_range: bool, behind: usize, all: &'a [Val]) -> Option<(Seen<'a>, &'a [Val])>
    ensures { option_map (λ p. (seen_of p.0, p.1.now)) result ≡ spec.cut_one things.a_value things.some_values is_range behind all.now }
{
    if is_range {
        let (front, back) = all.split_at(all.len().saturating_sub(behind));
        return Some((Seen::Values(front), back));
    }
    match all.split_first() {
        Some((first, back)) => Some((Seen::Value(*first), back)),
        None => None,
    }
}

/// Tells expressions their pieces of a list of values.
fn tell_values(
    alloc: Global,
    known: &mut Known,
    kinds: &[Kind],
    exprs: &[Expr],
    all: &[Val],
) -> Result<(), AllocError>
    ensures { OnOk result (spec.known_of known.new ≡ spec.tell_list things.a_value things.some_values kinds.now (map expr_of exprs.now) all.now (spec.known_of known.old)) }
{
    let mut rest = all;
    for i in 0..exprs.len() {
        let e = exprs[i];
        match value_piece(is_range(kinds, e), exprs.len() - i - 1, rest) {
            Some((thing, back)) => {
                tell(alloc, known, e, thing)?;
                rest = back;
            }
            None => return Ok(()),
        }
    }
    Ok(())
}

/// Tells expressions the segments of a list of values, whose sizes a text spells.
#[tactic(auto, using(crate::proofs::Segments::segment_told, crate::proofs::Segments::segment_untold, crate::proofs::Segments::no_segment))]
fn tell_segments(
    alloc: Global,
    known: &mut Known,
    kinds: &[Kind],
    exprs: &[Expr],
    sizes: &[u8],
    all: &[Val],
) -> Result<(), AllocError>
    requires { (ss : List (List Value)) × (segments_in (size_parts sizes.now) all.now ≡ Some ss) }
    ensures { OnOk result (spec.known_of known.new ≡ spec.tell_segments kinds.now (map expr_of exprs.now) (segments_in (size_parts sizes.now) all.now) (spec.known_of known.old)) }
{
    let mut left = Some(sizes);
    let mut rest = all;
    for e in exprs {
        match next_segment(left, rest) {
            Some(s) => {
                match segment_thing(is_range(kinds, *e), s.items) {
                    Some(thing) => tell(alloc, known, *e, thing)?,
                    None => return Ok(()),
                }
                left = s.sizes;
                rest = s.rest;
            }
            None => return Ok(()),
        }
    }
    Ok(())
}

/// Tells the members of a list of operands what the row has.
fn tell_operands(
    alloc: Global,
    known: &mut Known,
    kinds: &[Kind],
    exprs: &[Expr],
    r: &Row,
) -> Result<(), AllocError>
    ensures { OnOk result (spec.known_of known.new ≡ spec.tell_operands kinds.now (map expr_of exprs.now) r.now (spec.known_of known.old)) }
{
    if !has_ranges(kinds, exprs) {
        return tell_values(alloc, known, kinds, exprs, r.operands.as_slice());
    }
    match spelled_sizes(r) {
        Some(sizes) => tell_segments(alloc, known, kinds, exprs, sizes, r.operands.as_slice()),
        None => Ok(()),
    }
}

// ---- lists of types

/// The first piece of a list of types, with what is left, where so many are behind. A range leaves one for each.
fn type_piece<'a>(is_range: bool, behind: usize, all: &'a [Ty]) -> Option<(Seen<'a>, &'a [Ty])>
    ensures { option_map (λ p. (seen_of p.0, p.1.now)) result ≡ spec.cut_one things.a_type things.some_types is_range behind all.now }
{
    if is_range {
        let (front, back) = all.split_at(all.len().saturating_sub(behind));
        return Some((Seen::Tys(front), back));
    }
    match all.split_first() {
        Some((first, back)) => Some((Seen::Ty(first), back)),
        None => None,
    }
}

/// Tells expressions their pieces of a list of types.
fn tell_types(
    alloc: Global,
    known: &mut Known,
    kinds: &[Kind],
    exprs: &[Expr],
    all: &[Ty],
) -> Result<(), AllocError>
    ensures { OnOk result (spec.known_of known.new ≡ spec.tell_list things.a_type things.some_types kinds.now (map expr_of exprs.now) all.now (spec.known_of known.old)) }
{
    let mut rest = all;
    for i in 0..exprs.len() {
        let e = exprs[i];
        match type_piece(is_range(kinds, e), exprs.len() - i - 1, rest) {
            Some((thing, back)) => {
                tell(alloc, known, e, thing)?;
                rest = back;
            }
            None => return Ok(()),
        }
    }
    Ok(())
}

// ---- demands

/// What is known of a number.
#[tactic(auto, using(crate::proofs::Learnt::known_there, crate::proofs::Learnt::known_nowhere))]
fn seen_known(known: &[Option<Thing>], x: usize) -> Option<Seen<'_>>
    ensures { option_map seen_of result ≡ spec.known_at (spec.known_of known.now) x }
{
    match known.get(x) {
        Some(Some(t)) => Some(t.seen()),
        Some(None) => None,
        None => None,
    }
}

/// The row that a number is known to be.
fn known_row<'r>(
    rows: &'r [Row],
    index: &RowIndex,
    known: &[Option<Thing>],
    x: usize,
) -> Option<&'r Row>
    requires { Indexes index.now rows.now }
    ensures { option_copied result ≡ option_and_then (things.row_at rows.now) (spec.known_at (spec.known_of known.now) x) }
{
    match seen_known(known, x) {
        Some(Seen::Op(id)) => row_of(rows, index, id),
        _ => None,
    }
}

/// The type of what is known of a number.
fn known_type(
    alloc: Global,
    rows: &[Row],
    index: &RowIndex,
    known: &[Option<Thing>],
    x: usize,
) -> Result<Option<Thing>, AllocError>
    requires { Indexes index.now rows.now }
    ensures { IfOk result (λ t. option_map thing_of t ≡ option_and_then (holding.thing_type rows.now) (spec.known_at (spec.known_of known.now) x)) }
{
    match seen_known(known, x) {
        Some(thing) => thing_type(alloc, rows, index, thing),
        None => Ok(None),
    }
}

/// Tells the parts of an operation what the row has.
fn tell_parts(
    alloc: Global,
    known: &mut Known,
    kinds: &[Kind],
    parts: &Parts<'_>,
    r: &Row,
) -> Result<(), AllocError>
    ensures { OnOk result (spec.known_of known.new ≡ spec.tell_parts kinds.now r.now (parts_of parts.now) (spec.known_of known.old)) }
{
    tell_operands(alloc, known, kinds, parts.operands.as_slice(), r)?;
    tell_entries(alloc, known, r, parts.entries.as_slice())?;
    tell_types(
        alloc,
        known,
        kinds,
        parts.types.as_slice(),
        r.results.as_slice(),
    )
}

/// Learns what a demand tells.
#[tactic(auto, unfolding(crate::specs::Learning::grown))]
fn grow(
    alloc: Global,
    rows: &[Row],
    index: &RowIndex,
    kinds: &[Kind],
    known: &mut Known,
    demand: &Demand<'_>,
) -> Result<(), AllocError>
    requires { Indexes index.now rows.now }
    ensures { OnOk result (spec.known_of known.new ≡ spec.grown rows.now kinds.now (demand_of demand.now) (spec.known_of known.old)) }
{
    match demand {
        Demand::IsAttr(x, v) => learn(alloc, known, *x, Seen::Attr(v)),
        Demand::IsType(x, t) => learn(alloc, known, *x, Seen::Ty(t)),
        Demand::HasParts(x, parts) => match known_row(rows, index, known.as_slice(), *x) {
            Some(r) => tell_parts(alloc, known, kinds, parts, r),
            None => Ok(()),
        },
        Demand::HasType(x, e) => match known_type(alloc, rows, index, known.as_slice(), *x)? {
            Some(t) => tell(alloc, known, *e, t.seen()),
            None => Ok(()),
        },
        _ => Ok(()),
    }
}

/// Learns what the demands tell, the last one first: a demand on a number stands before those that mention it.
fn pass(
    alloc: Global,
    rows: &[Row],
    index: &RowIndex,
    kinds: &[Kind],
    demands: &[Demand<'_>],
    known: &mut Known,
) -> Result<(), AllocError>
    requires { Indexes index.now rows.now }
    ensures { OnOk result (spec.known_of known.new ≡ spec.passed rows.now kinds.now (map demand_of demands.now) (spec.known_of known.old)) }
{
    let mut at = demands.len();
    while at > 0 {
        at -= 1;
        grow(alloc, rows, index, kinds, known, &demands[at])?;
    }
    Ok(())
}

/// Of how many numbers something is known.
fn count(known: &[Option<Thing>]) -> usize
    ensures { result ≡ spec.known_in (spec.known_of known.now) }
{
    let mut count = 0;
    for o in known {
        if o.is_some() {
            count += 1;
        }
    }
    count
}

/// Learns all that follows from what is known.
fn close(
    alloc: Global,
    rows: &[Row],
    index: &RowIndex,
    kinds: &[Kind],
    demands: &[Demand<'_>],
    known: &mut Known,
) -> Result<(), AllocError>
    requires { Indexes index.now rows.now }
    // One more way through the demands adds nothing.
    ensures closed { OnOk result (spec.passed rows.now kinds.now (map demand_of demands.now) (spec.known_of known.new) ≡ spec.known_of known.new) }
    ensures reached { OnOk result (spec.IsReached rows.now kinds.now (map demand_of demands.now) (spec.known_of known.old) (spec.known_of known.new)) }
{
    let mut grows = true;
    while grows {
        let before = count(known.as_slice());
        pass(alloc, rows, index, kinds, demands, known)?;
        grows = count(known.as_slice()) > before;
    }
    Ok(())
}

/// The things of all numbers, if all are known.
fn all_known(alloc: Global, known: &[Option<Thing>]) -> Result<Option<Items<Thing>>, AllocError>
    ensures { IfOk result (λ ts. option_map (map thing_of) ts ≡ spec.all_known (spec.known_of known.now)) }
{
    let mut found = Items::new(alloc);
    for o in known {
        match o {
            Some(t) => found.push(t.copy(alloc)?)?,
            None => return Ok(None),
        }
    }
    Ok(Some(found))
}

/// The things that the root tells to be those of all numbers, where it tells all.
pub fn told(
    alloc: Global,
    rows: &[Row],
    index: &RowIndex,
    kinds: &[Kind],
    demands: &[Demand<'_>],
    root: usize,
    id: u32,
) -> Result<Option<Items<Thing>>, AllocError>
    requires { Indexes index.now rows.now }
    ensures { IfOk result (λ o. spec.AreTold rows.now kinds.now (map demand_of demands.now) root id (option_map (map thing_of) o)) }
{
    let mut known = nothing_known(alloc, kinds.len())?;
    learn(alloc, &mut known, root, Seen::Op(id))?;
    close(alloc, rows, index, kinds, demands, &mut known)?;
    let found = all_known(alloc, known.as_slice())?;
    Ok(found)
}
