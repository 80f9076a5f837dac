//! One step: the actions of a pattern, and the test of the module that they leave.

ghost use Rattle.std.specs.Prelude.{◌≡◌, [], map, filter, IfOk};
ghost use Rattle.std.specs.List.{range_with_len};
ghost use Rattle.row_index.specs.BadUses.{bad_use};
ghost use Rattle.row_index.specs.Indexing.{Indexes};
ghost use Rattle.rewrite_model.specs.Laws.{IsLaidOut};
ghost use Rattle.rewrite_model.specs.Pattern.{Pattern};
ghost use Rattle.rewrite_model.specs.Making.{all_slots};
ghost use Rattle.rewrite_model.specs.Step as spec;
ghost use Rattle.row_matcher.specs.View.{thing_of};
ghost use Rattle.pdll_patterns.specs.View.{action_of};
ghost use Rattle.rewrite_step.specs.View.{progress_of};
ghost use Rattle.rewrite_step.specs.Ends.{Ends};
ghost use Rattle.rewrite_step.specs.Marking.{marked, is_marked, was_removed, AreMarked};

use crate::progress::{Progress, Start};
use crate::stop::{Stop, breaks};
use row_index::index::RowIndex;
use row_index::well_formed_by;
use mlir_tree::refusal::Refusal;
use mlir_tree::row::{IdList, Row};
use mlir_tree::rows::Rows;
use pdll_patterns::action::Action;
use rewrite_model::laws::rewrites_keep_layout;
use rewrite_model::run::Break;
use row_matcher::thing::Thing;
use sqlite_items::Items;
use std::alloc::{AllocError, Global};

// How many operands and results the rows have. Their numbers differ and are below the next one, so there aren't too many.
fn all_slots(rows: &[Row], next: u32) -> usize
    requires { IsLaidOut (record { rows = rows.now; next = next }) }
    ensures { result ≡ all_slots rows.now }
{
    let mut slots = 0;
    let mut at = rows.len();
    while at > 0 {
        at -= 1;
        let row = &rows[at];
        slots += row.operands.len() + row.results.len();
    }
    slots
}

// How far a step is before its first action, in a copy of the rows.
fn begin(alloc: Global, rows: &Rows, copy: Rows) -> Progress
    requires layout { IsLaidOut rows.now }
    requires same { copy ≡ rows.now }
    ensures { progress_of result ≡ spec.begun rows.now }
{
    let all = rows.rows.as_slice();
    let slots = all_slots(all, rows.next);
    Progress {
        current: copy,
        made: Items::new(alloc),
        rows: all.len(),
        slots,
    }
}

// The rows and their places, where each operand exists and is visible.
fn accepted(alloc: Global, rows: Rows) -> Result<(Rows, RowIndex), Refusal<Stop>>
    requires layout { IsLaidOut rows }
    ensures rows { Ends (λ it. it.0) (spec.accepted rows (bad_use rows.rows)) result }
    ensures index { IfOk result (λ it. Indexes it.1 it.0.rows) }
{
    let index = RowIndex::new(alloc, &rows)?;
    match well_formed_by(&rows, &index) {
        None => Ok((rows, index)),
        Some(found) => Err(breaks(Break::BadUse(found.row, found.place))),
    }
}

/// The rows after the actions of a pattern under an assignment, with their places, or what stops them: the first of the
/// actions that can't be done or would make too much, or then the first operand that doesn't exist or isn't visible. The
/// actions are done in `copy`, a copy of the rows, and the rows stay as they were.
pub fn step(
    alloc: Global,
    rows: &Rows,
    copy: Rows,
    given: &[Thing],
    root: u32,
    actions: &[Action<'_>],
) -> Result<(Rows, RowIndex), Refusal<Stop>>
    requires layout { IsLaidOut rows.now }
    requires same { copy ≡ rows.now }
    ensures rows { (p : Pattern) → p.actions ≡ map action_of actions.now → Ends (λ it. it.0) (spec.step p (map thing_of given.now) root rows.now) result }
    ensures index { IfOk result (λ it. Indexes it.1 it.0.rows) }
{
    rewrites_keep_layout();
    let start = Start {
        rows: rows.rows.as_slice(),
        given,
        root,
    };
    let mut progress = begin(alloc, rows, copy);
    if let Err(e) = progress.act_all(alloc, &start, actions) {
        return Err(e);
    }
    accepted(alloc, progress.current)
}

/// The numbers that a step gave, of the rows before it and after it.
pub fn made_numbers(alloc: Global, before: &Rows, after: &Rows) -> Result<IdList, AllocError>
    ensures { IfOk result (λ ids. ids ≡ spec.made_numbers before.now after.now) }
{
    let mut found = Items::new(alloc);
    for id in before.next..after.next {
        found.push(id)?;
    }
    Ok(found)
}

// No marks for so many numbers.
fn no_marks(alloc: Global, count: u32) -> Result<Items<bool>, AllocError>
    ensures { IfOk result (λ marks. AreMarked [] count marks) }
{
    let mut marks = Items::new(alloc);
    for _ in 0..count {
        marks.push(false)?;
    }
    Ok(marks)
}

// Marks a number.
fn mark(marks: &mut Items<bool>, id: u32)
    ensures { marks.new ≡ marked marks.old id }
{
    if (id as usize) < marks.len() {
        marks.set(id as usize, true);
    }
}

// For each of so many numbers, whether a row has it.
fn marks_of(alloc: Global, rows: &[Row], count: u32) -> Result<Items<bool>, AllocError>
    ensures { IfOk result (λ marks. AreMarked rows.now count marks) }
{
    let mut marks = no_marks(alloc, count)?;
    let mut at = rows.len();
    while at > 0 {
        at -= 1;
        mark(&mut marks, rows[at].id);
    }
    Ok(marks)
}

// Whether a number is marked.
fn is_marked(marks: &[bool], id: u32) -> bool
    ensures { result ≡ is_marked marks.now id }
{
    let at = id as usize;
    at < marks.len() && marks[at]
}

// Whether a number was in use before a step or given by it, and isn't in use behind it.
fn was_removed(before: &[bool], after: &[bool], next: u32, id: u32) -> bool
    ensures { result ≡ was_removed before.now after.now next id }
{
    (is_marked(before, id) || next <= id) && !is_marked(after, id)
}

// The numbers that were removed, of so many.
fn removed_of(
    alloc: Global,
    before: &[bool],
    after: &[bool],
    next: u32,
    count: u32,
) -> Result<IdList, AllocError>
    ensures { IfOk result (λ ids. ids ≡ filter (was_removed before.now after.now next) (range_with_len 0 count)) }
{
    let mut found = Items::new(alloc);
    for id in 0..count {
        if was_removed(before, after, next, id) {
            found.push(id)?;
        }
    }
    Ok(found)
}

/// The numbers of the rows that stood before a step or were made by it, and stand no more behind it.
pub fn removed_numbers(alloc: Global, before: &Rows, after: &Rows) -> Result<IdList, AllocError>
    ensures { IfOk result (λ ids. ids ≡ spec.removed_numbers before.now after.now) }
{
    let old = marks_of(alloc, before.rows.as_slice(), after.next)?;
    let new = marks_of(alloc, after.rows.as_slice(), after.next)?;
    let found = removed_of(
        alloc,
        old.as_slice(),
        new.as_slice(),
        before.next,
        after.next,
    )?;
    Ok(found)
}
