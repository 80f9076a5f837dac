//! One turn of the run.

ghost use Rattle.std.specs.Prelude.{◌≡◌, ◌<◌, ◌∷◌, length, map, slice_get, IfOk, Ok, Some, OnErr};
ghost use Rattle.mlir_tree.specs.WellFormed.{IsWellFormed};
ghost use Rattle.mlir_tree.specs.declared.refusal.Refusal.TheVariants.{Fault};
ghost use Rattle.row_index.specs.Indexing.{Indexes};
ghost use Rattle.rewrite_model.specs.Determined.{AreDetermined};
ghost use Rattle.rewrite_model.specs.Step.{step};
ghost use Rattle.rewrite_model.specs.Running.{taken, ending_by, Reaches};
ghost use Rattle.row_matcher.specs.View.{thing_of};
ghost use Rattle.pdll_patterns.specs.View.{pattern_of};
ghost use Rattle.rewrite_step.specs.View.{stop_of};
ghost use Rattle.greedy_driver.specs.Found.{IsNextFound};
ghost use Rattle.greedy_driver.specs.Course.{IsTurn};

use crate::next::{Found, next};
use mlir_tree::refusal::Refusal;
use mlir_tree::rows::Rows;
use pdll_patterns::pattern::Pattern;
use rewrite_model::laws::{numbers_rise, steps_keep_well_formed};
use rewrite_model::run::{BoundKind, Broken, Ending, Hit, Order};
use rewrite_step::refresh::refresh;
use rewrite_step::step::{made_numbers, removed_numbers, step};
use rewrite_step::stop::Stop;
use row_index::index::RowIndex;
use row_matcher::thing::Thing;
use run_model::run::StepRec;
use shared_text::SharedText;
use sqlite_items::Items;
use std::alloc::{AllocError, Global};
use std::mem::replace;

/// What a turn of the run comes to.
#[derive(Drop)]
pub enum Turn {
    /// The run is over.
    Ended(Ending),
    /// A step was taken, and behind it the rows stand at these places.
    Took(StepRec, RowIndex),
}

/// How a run ends whose next step is stopped.
fn ending_by(hit: Hit, stop: Stop) -> Ending
    ensures { result ≡ ending_by hit (stop_of stop) }
{
    match stop {
        Stop::Breaks(why) => Ending::Broken(Broken {
            pattern: hit.pattern,
            root: hit.row,
            why,
        }),
        Stop::Bound(kind) => Ending::Bound(kind, hit),
    }
}

/// What the log tells of the step from one module to the next.
fn told(
    alloc: Global,
    pattern: &Pattern<'_>,
    hit: Hit,
    before: &Rows,
    after: &Rows,
) -> Result<StepRec, AllocError>
    ensures { IfOk result (λ t. t ≡ taken (pattern_of pattern.now) hit before.now after.now) }
{
    let made = made_numbers(alloc, before, after)?;
    let removed = removed_numbers(alloc, before, after)?;
    let name = SharedText::from_slice(alloc, pattern.name)?;
    numbers_rise();
    Ok(StepRec {
        pattern: hit.pattern,
        name,
        root: hit.row,
        made,
        removed,
    })
}

/// A module without rows.
pub fn no_rows(alloc: Global) -> Rows {
    Rows {
        rows: Items::new(alloc),
        next: 0,
    }
}

/// A copy of the module, which is made of the spare one.
fn copy_in(alloc: Global, spare: &mut Rows, rows: &Rows) -> Result<Rows, AllocError>
    ensures { IfOk result (λ copy. copy ≡ rows.now) }
{
    refresh(alloc, spare, rows)?;
    Ok(replace(spare, no_rows(alloc)))
}

/// Takes a step, in the spare module, which is the module before it from then on. Where it can't be taken, the module stays
/// as it is.
fn advance(
    alloc: Global,
    rows: &mut Rows,
    spare: &mut Rows,
    pattern: &Pattern<'_>,
    hit: Hit,
    given: &[Thing],
) -> Result<(StepRec, RowIndex), Refusal<Stop>>
    requires { IsWellFormed rows.old }
    ensures steps { IfOk result (λ t. step (pattern_of pattern.now) (map thing_of given.now) hit.row rows.old ≡ Ok rows.new) }
    ensures told { IfOk result (λ t. t.0 ≡ taken (pattern_of pattern.now) hit rows.old rows.new) }
    ensures index { IfOk result (λ t. Indexes t.1 rows.new.rows) }
    ensures stops { (s : _) → result ≡ Err (Fault s) → step (pattern_of pattern.now) (map thing_of given.now) hit.row rows.old ≡ Err (stop_of s) }
    ensures stays { OnErr result (rows.new ≡ rows.old) }
    ensures well_formed { IsWellFormed rows.new }
{
    let copy = copy_in(alloc, spare, rows)?;
    let actions = pattern.actions.as_slice();
    let (after, index) = match step(alloc, rows, copy, given, hit.row, actions) {
        Err(stop) => return Err(stop),
        Ok(taken) => taken,
    };
    let told = told(alloc, pattern, hit, rows, &after)?;
    steps_keep_well_formed();
    *spare = replace(rows, after);
    Ok((told, index))
}

/// The place of a pattern as a number.
fn number_of(at: usize) -> Result<u32, AllocError>
    ensures { IfOk result (λ n. n ≡ at) }
{
    if at > u32::MAX as usize {
        return Err(AllocError);
    }
    Ok(at as u32)
}

/// The next operation at which a pattern matches, with its best pattern.
fn locate(
    alloc: Global,
    rows: &Rows,
    index: &RowIndex,
    patterns: &[Pattern<'_>],
    order: Order,
) -> Result<Option<(u32, Found)>, AllocError>
    requires index { Indexes index.now rows.now.rows }
    requires determined { ∥ AreDetermined (map pattern_of patterns.now) ∥₁ }
    ensures { IfOk result (λ o. IsNextFound order (map pattern_of patterns.now) rows.now.rows o) }
{
    next(alloc, rows.rows.as_slice(), index, patterns, order)
}

/// Takes the step that is next, where steps are left.
fn take(
    alloc: Global,
    rows: &mut Rows,
    spare: &mut Rows,
    patterns: &[Pattern<'_>],
    order: Order,
    left: u32,
    row: u32,
    found: &Found,
) -> Result<Turn, AllocError>
    requires well_formed { IsWellFormed rows.old }
    requires found { IsNextFound order (map pattern_of patterns.now) rows.old.rows (Some (row, found.now)) }
    ensures turn { IfOk result (λ t. IsTurn order (map pattern_of patterns.now) left rows.old rows.new t) }
    ensures reached { Reaches order (map pattern_of patterns.now) left rows.old rows.new }
    ensures well_formed { IsWellFormed rows.new }
{
    let hit = Hit {
        pattern: number_of(found.at)?,
        row,
    };
    if left == 0 {
        return Ok(Turn::Ended(Ending::Bound(BoundKind::Rewrites, hit)));
    }
    match advance(
        alloc,
        rows,
        spare,
        &patterns[found.at],
        hit,
        found.given.as_slice(),
    ) {
        Ok((told, index)) => Ok(Turn::Took(told, index)),
        Err(Refusal::Fault(stop)) => Ok(Turn::Ended(ending_by(hit, stop))),
        Err(Refusal::NoMemory) => Err(AllocError),
    }
}

/// One turn of the run, where so many steps are left. What the spare module holds doesn't matter. It takes least where
/// it is the module of the turn before.
pub fn go_on(
    alloc: Global,
    rows: &mut Rows,
    index: &RowIndex,
    spare: &mut Rows,
    patterns: &[Pattern<'_>],
    order: Order,
    left: u32,
) -> Result<Turn, AllocError>
    requires well_formed { IsWellFormed rows.old }
    requires index { Indexes index.now rows.old.rows }
    requires determined { ∥ AreDetermined (map pattern_of patterns.now) ∥₁ }
    ensures turn { IfOk result (λ t. IsTurn order (map pattern_of patterns.now) left rows.old rows.new t) }
    ensures reached { Reaches order (map pattern_of patterns.now) left rows.old rows.new }
    ensures well_formed { IsWellFormed rows.new }
{
    match locate(alloc, rows, index, patterns, order)? {
        None => Ok(Turn::Ended(Ending::Converged)),
        Some((row, found)) => take(alloc, rows, spare, patterns, order, left, row, &found),
    }
}
