//! Where the next step is.

ghost use Rattle.std.specs.Prelude.{◌≡◌, ◌<◌, ◌+◌, List, length, map, IfOk};
ghost use Rattle.rewrite_model.specs.declared.run.Order.TheVariants as orders;
ghost use Rattle.rewrite_model.specs.Determined.{AreDetermined};
ghost use Rattle.row_index.specs.Indexing.{Indexes};
ghost use Rattle.pdll_patterns.specs.View.{pattern_of};
ghost use Rattle.greedy_driver.specs.Found.{BestOf, IsNextFound, benefit_at, is_as_good};

use mlir_tree::row::Row;
use pdll_patterns::pattern::Pattern;
use rewrite_model::run::Order;
use row_index::index::RowIndex;
use row_matcher::matching::match_at;
use row_matcher::thing::Thing;
use sqlite_items::Items;
use std::alloc::{AllocError, Global};

/// Where a pattern matches: its place among the patterns of the file, and the assignment.
#[derive(Drop)]
pub struct Found {
    pub at: usize,
    pub given: Items<Thing>,
}

/// The benefit of the pattern at a place.
fn benefit_at(patterns: &[Pattern<'_>], at: usize) -> u16
    ensures { result ≡ benefit_at (map pattern_of patterns.now) at }
{
    match patterns.get(at) {
        Some(pattern) => pattern.benefit,
        None => 0,
    }
}

/// Whether what was found has at least the benefit of the pattern at a place.
fn is_as_good(patterns: &[Pattern<'_>], found: &Option<Found>, at: usize) -> bool
    ensures { result ≡ is_as_good (map pattern_of patterns.now) found.now at }
{
    match found {
        None => false,
        Some(f) => benefit_at(patterns, at) <= benefit_at(patterns, f.at),
    }
}

/// The better one of what was found among the patterns before a place and the pattern at it.
fn better(
    alloc: Global,
    rows: &[Row],
    index: &RowIndex,
    patterns: &[Pattern<'_>],
    id: u32,
    at: usize,
    found: Option<Found>,
) -> Result<Option<Found>, AllocError>
    requires index { Indexes index.now rows.now }
    requires determined { ∥ AreDetermined (map pattern_of patterns.now) ∥₁ }
    requires within { at < length patterns.now }
    requires before { BestOf (map pattern_of patterns.now) rows.now id at found }
    ensures { IfOk result (λ o. BestOf (map pattern_of patterns.now) rows.now id (at + 1) o) }
{
    if is_as_good(patterns, &found, at) {
        return Ok(found);
    }
    let pattern = &patterns[at];
    let kinds = pattern.kinds.as_slice();
    let demands = pattern.demands.as_slice();
    match match_at(alloc, rows, index, kinds, demands, pattern.root, id)? {
        Some(given) => Ok(Some(Found { at, given })),
        None => Ok(found),
    }
}

/// The best pattern that matches at an operation.
#[tactic(auto, using(crate::proofs::Best::nothing_yet))]
fn best(
    alloc: Global,
    rows: &[Row],
    index: &RowIndex,
    patterns: &[Pattern<'_>],
    id: u32,
) -> Result<Option<Found>, AllocError>
    requires index { Indexes index.now rows.now }
    requires determined { ∥ AreDetermined (map pattern_of patterns.now) ∥₁ }
    ensures { IfOk result (λ o. BestOf (map pattern_of patterns.now) rows.now id (length patterns.now) o) }
{
    let mut found = None;
    for at in 0..patterns.len() {
        found = better(alloc, rows, index, patterns, id, at, found)?;
    }
    Ok(found)
}

/// The first operation in text order at which a pattern matches, with its best pattern.
fn first(
    alloc: Global,
    rows: &[Row],
    index: &RowIndex,
    patterns: &[Pattern<'_>],
) -> Result<Option<(u32, Found)>, AllocError>
    requires index { Indexes index.now rows.now }
    requires determined { ∥ AreDetermined (map pattern_of patterns.now) ∥₁ }
    ensures { IfOk result (λ o. IsNextFound orders.First (map pattern_of patterns.now) rows.now o) }
{
    for row in rows {
        if let Some(found) = best(alloc, rows, index, patterns, row.id)? {
            return Ok(Some((row.id, found)));
        }
    }
    Ok(None)
}

/// The last one.
fn last(
    alloc: Global,
    rows: &[Row],
    index: &RowIndex,
    patterns: &[Pattern<'_>],
) -> Result<Option<(u32, Found)>, AllocError>
    requires index { Indexes index.now rows.now }
    requires determined { ∥ AreDetermined (map pattern_of patterns.now) ∥₁ }
    ensures { IfOk result (λ o. IsNextFound orders.Last (map pattern_of patterns.now) rows.now o) }
{
    let mut at = rows.len();
    while at > 0 {
        at -= 1;
        let row = &rows[at];
        if let Some(found) = best(alloc, rows, index, patterns, row.id)? {
            return Ok(Some((row.id, found)));
        }
    }
    Ok(None)
}

/// The first operation in this order at which a pattern matches, with its best pattern.
pub fn next(
    alloc: Global,
    rows: &[Row],
    index: &RowIndex,
    patterns: &[Pattern<'_>],
    order: Order,
) -> Result<Option<(u32, Found)>, AllocError>
    requires index { Indexes index.now rows.now }
    requires determined { ∥ AreDetermined (map pattern_of patterns.now) ∥₁ }
    ensures { IfOk result (λ o. IsNextFound order (map pattern_of patterns.now) rows.now o) }
{
    match order {
        Order::First => first(alloc, rows, index, patterns),
        Order::Last => last(alloc, rows, index, patterns),
    }
}
