//! Which numbers of a declaration are determined.

ghost use Rattle.std.specs.Prelude.{◌≡◌, ◌+◌, [], ◌∷◌, map, max, replicate, false, IfOk};
ghost use Rattle.rewrite_model.specs.Determined.{values_of};
ghost use Rattle.rewrite_model.specs.Laws.{number_in};
ghost use Rattle.pdll_expand.specs.View.{expr_of, named_expr_of, parts_of, demand_of};
ghost use Rattle.pdll_expand.specs.Marking as spec;

use crate::demand::{Demand, NamedExpr, Parts};
use crate::expr::Expr;
use crate::scene::Own;
use sqlite_items::Items;
use std::alloc::{AllocError, Global};
use std::marker::Model;

/// Numbers, as marks.
#[derive(Drop)]
pub struct Marks {
    bits: Items<bool>,
}

impl Model for Marks {
    ghost use Rattle.std.specs.Prelude.{List, Bool};

    ghost Value = { List Bool };

    ghost view = { λ m. m.bits };
}

impl Marks {
    /// Room for so many numbers, none of which is marked.
    fn new(alloc: Global, count: usize) -> Result<Marks, AllocError>
        ensures { IfOk result (λ m. m ≡ replicate count false) }
    {
        let mut bits = Items::new(alloc);
        for _ in 0..count {
            bits.push(false)?;
        }
        Ok(Marks { bits })
    }

    /// Whether the number is marked.
    #[tactic(auto, using(crate::proofs::Marking::marked_there, crate::proofs::Marking::marked_nowhere))]
    pub fn has(&self, number: usize) -> bool
        ensures { result ≡ spec.is_marked self.now number }
    {
        match self.bits.get(number) {
            Some(bit) => *bit,
            None => false,
        }
    }

    /// Marks a number, if there is room for it.
    fn mark(&mut self, number: usize)
        ensures { self.new ≡ spec.marked (number ∷ []) self.old }
    {
        if number < self.bits.len() {
            self.bits.set(number, true);
        }
    }

    /// How many numbers are marked.
    fn count(&self) -> usize
        ensures { result ≡ spec.marks_in self.now }
    {
        count_of(self.bits.as_slice())
    }
}

/// How many marks there are.
fn count_of(bits: &[bool]) -> usize
    ensures { result ≡ spec.marks_in bits.now }
{
    let mut count = 0;
    for bit in bits {
        if *bit {
            count += 1;
        }
    }
    count
}

// ---- one way through the demands

/// What has a number in an expression.
fn number_in(e: Expr) -> usize
    ensures { result ≡ number_in (expr_of e) }
{
    match e {
        Expr::The(number) | Expr::Result(number, _) | Expr::OnlyResult(number) => number,
    }
}

/// Marks what has a number in these expressions.
fn mark_exprs(marks: &mut Marks, exprs: &[Expr])
    ensures { marks.new ≡ spec.marked (map number_in (map expr_of exprs.now)) marks.old }
{
    for e in exprs {
        marks.mark(number_in(*e));
    }
}

/// Marks what has a number in these attributes.
fn mark_entries(marks: &mut Marks, entries: &[NamedExpr<'_>])
    ensures { marks.new ≡ spec.marked (map number_in (values_of (map named_expr_of entries.now))) marks.old }
{
    for e in entries {
        marks.mark(number_in(e.value));
    }
}

/// Marks the operands, attributes and types of an operation.
#[tactic(auto, using(crate::proofs::Marking::marked_both))]
fn mark_parts(marks: &mut Marks, parts: &Parts<'_>)
    ensures { marks.new ≡ spec.marked (spec.numbers_of (parts_of parts.now)) marks.old }
{
    mark_exprs(marks, parts.operands.as_slice());
    mark_entries(marks, parts.entries.as_slice());
    mark_exprs(marks, parts.types.as_slice());
}

/// Marks what a demand tells to be determined.
#[tactic(auto, unfolding(crate::specs::Marking::grown))]
fn grow(marks: &mut Marks, demand: &Demand<'_>)
    ensures { marks.new ≡ spec.grown (demand_of demand.now) marks.old }
{
    match demand {
        Demand::IsAttr(number, _) => marks.mark(*number),
        Demand::IsType(number, _) => marks.mark(*number),
        Demand::HasParts(number, parts) => {
            if marks.has(*number) {
                mark_parts(marks, parts);
            }
        }
        Demand::HasType(number, e) => {
            if marks.has(*number) {
                marks.mark(number_in(*e));
            }
        }
        _ => (),
    }
}

/// Marks what the demands tell, the last one first: a demand on a number stands before those that mention it.
fn pass(marks: &mut Marks, demands: &[Demand<'_>])
    ensures { marks.new ≡ spec.passed (map demand_of demands.now) marks.old }
{
    let mut at = demands.len();
    while at > 0 {
        at -= 1;
        grow(marks, &demands[at]);
    }
}

// ---- until nothing is added

/// Marks all that follows from what is marked.
fn close(marks: &mut Marks, demands: &[Demand<'_>])
    // One more way through the demands adds nothing.
    ensures closed { spec.passed (map demand_of demands.now) marks.new ≡ marks.new }
    // What was marked stays marked, and what is marked besides is determined.
    ensures grown { spec.IsGrown (map demand_of demands.now) marks.old marks.new }
{
    let mut grows = true;
    while grows {
        let before = marks.count();
        pass(marks, demands);
        grows = marks.count() > before;
    }
}

// ---- room

/// The highest of a number and those in these expressions.
fn highest_of_exprs(mut highest: usize, exprs: &[Expr]) -> usize
    ensures { result ≡ spec.highest (map number_in (map expr_of exprs.now)) highest }
{
    for e in exprs {
        highest = highest.max(number_in(*e));
    }
    highest
}

/// The highest of a number and those in these attributes.
fn highest_of_entries(mut highest: usize, entries: &[NamedExpr<'_>]) -> usize
    ensures { result ≡ spec.highest (map number_in (values_of (map named_expr_of entries.now))) highest }
{
    for e in entries {
        highest = highest.max(number_in(e.value));
    }
    highest
}

/// The highest of a number and those of the parts of an operation.
#[tactic(auto, using(crate::proofs::Marking::highest_both))]
fn highest_of_parts(highest: usize, parts: &Parts<'_>) -> usize
    ensures { result ≡ spec.highest (spec.numbers_of (parts_of parts.now)) highest }
{
    let highest = highest_of_exprs(highest, parts.operands.as_slice());
    let highest = highest_of_entries(highest, parts.entries.as_slice());
    highest_of_exprs(highest, parts.types.as_slice())
}

/// The highest of a number and those that a demand tells of.
fn highest_of_demand(highest: usize, demand: &Demand<'_>) -> usize
    ensures { result ≡ spec.highest (spec.numbers_in (demand_of demand.now)) highest }
{
    match demand {
        Demand::IsAttr(number, _) => highest.max(*number),
        Demand::IsType(number, _) => highest.max(*number),
        Demand::HasParts(number, parts) => highest_of_parts(highest.max(*number), parts),
        Demand::HasType(number, e) => highest.max(*number).max(number_in(*e)),
        _ => highest,
    }
}

/// The highest of a number and those that demands tell of.
fn highest_of_demands(mut highest: usize, demands: &[Demand<'_>]) -> usize
    ensures { result ≡ spec.highest_in (map demand_of demands.now) highest }
{
    for demand in demands {
        highest = highest_of_demand(highest, demand);
    }
    highest
}

/// The highest of these numbers.
fn highest_of(numbers: &[usize]) -> usize
    ensures { result ≡ spec.highest numbers.now 0 }
{
    let mut highest = 0;
    for number in numbers {
        highest = highest.max(*number);
    }
    highest
}

/// One more than the highest number that is told of.
fn room(given: &[usize], demands: &[Demand<'_>]) -> Result<usize, AllocError>
    ensures { IfOk result (λ n. n ≡ spec.highest_in (map demand_of demands.now) (spec.highest given.now 0) + 1) }
{
    let highest = highest_of_demands(highest_of(given), demands);
    if highest == usize::MAX {
        return Err(AllocError);
    }
    Ok(highest + 1)
}

// ---- all

/// Marks these numbers.
fn mark_all(marks: &mut Marks, numbers: &[usize])
    ensures { marks.new ≡ spec.marked numbers.now marks.old }
{
    for number in numbers {
        marks.mark(*number);
    }
}

/// The numbers that what is given and demands determine.
pub fn determined(alloc: Global, own: &Own<'_>) -> Result<Marks, AllocError>
    // Exactly what is determined is marked.
    ensures { IfOk result (spec.MarkDetermined own.now.given (map demand_of own.now.scene.demands)) }
{
    let given = own.given.as_slice();
    let demands = own.scene.demands.as_slice();
    let mut marks = Marks::new(alloc, room(given, demands)?)?;
    mark_all(&mut marks, given);
    close(&mut marks, demands);
    Ok(marks)
}
