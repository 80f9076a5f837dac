//! What a rewrite makes.

ghost use Rattle.std.specs.Prelude.{◌≡◌, map, IfOk, OnOk, Option};
ghost use Rattle.mlir_tree.specs.Tree.{Attr as AttrOf};
ghost use Rattle.native_set.specs.Answers.{Gives};
ghost use Rattle.rewrite_model.specs.Things.{Thing as ThingOf};
ghost use Rattle.rewrite_model.specs.Making.{Outcome, Start as StartOf, Progress as ProgressOf};
ghost use Rattle.rewrite_model.specs.Making as spec;
ghost use Rattle.row_matcher.specs.View.{thing_of};
ghost use Rattle.pdll_patterns.specs.View.{part_of};
ghost use Rattle.rewrite_step.specs.View.{start_of, progress_of};
ghost use Rattle.rewrite_step.specs.Ends.{Ends};
ghost use Rattle.rewrite_step.specs.Worked.{the_result, the_only_result, all_results, all_result_types, attr_outcome, given};

use crate::places::{only_result_at, result_at};
use crate::progress::{Progress, Start};
use crate::stop::{Stop, breaks};
use mlir_tree::attr::Attr;
use mlir_tree::refusal::Refusal;
use mlir_tree::row::Row;
use mlir_tree::ty::copy_tys;
use mlir_tree::value::{Val, ValList};
use native_set::arithmetic::Refused;
use pdll_patterns::action::Part;
use rewrite_model::run::Break;
use row_matcher::thing::Thing;
use sqlite_items::Items;
use std::alloc::{AllocError, Global};

/// The results of a row.
pub fn results_of(alloc: Global, row: &Row) -> Result<ValList, AllocError>
    ensures { IfOk result (λ vs. vs ≡ spec.results row.now) }
{
    let mut found = Items::new(alloc);
    for k in 0..row.results.len() {
        if k > 65535 {
            return Err(AllocError);
        }
        found.push(Val::Res(row.id, k as u16))?;
    }
    let all = ValList::new(alloc, found)?;
    Ok(all)
}

// The result of a native, or that it has none.
pub fn attr_or_stop(attr: Result<Attr, Refusal<Refused>>) -> Result<Thing, Refusal<Stop>>
    ensures { (o : Option AttrOf) → Gives attr o → Ends thing_of (attr_outcome o) result }
{
    match attr {
        Ok(value) => Ok(Thing::Attr(value)),
        Err(Refusal::Fault(_)) => Err(breaks(Break::NativeRefused)),
        Err(Refusal::NoMemory) => Err(Refusal::NoMemory),
    }
}

impl Progress {
    // Adds a thing to what was made.
    fn give(&mut self, thing: Thing) -> Result<(), AllocError>
        ensures { OnOk result ((s : StartOf) → progress_of self.new ≡ spec.giving s (progress_of self.old) (thing_of thing)) }
    {
        self.made.push(thing)
    }

    // The same, where nothing stops it.
    pub fn give_ended(&mut self, thing: Result<Thing, Refusal<Stop>>) -> Result<(), Refusal<Stop>>
        ensures { (s : StartOf) (o : Outcome ThingOf) (q : Outcome ProgressOf) → Ends thing_of o thing → given s (progress_of self.old) o ≡ q → Ends (λ _. progress_of self.new) q result }
    {
        match thing {
            Err(e) => Err(e),
            Ok(thing) => Ok(self.give(thing)?),
        }
    }

    pub fn result_thing(
        &self,
        alloc: Global,
        start: &Start<'_>,
        x: Part,
        k: u16,
    ) -> Result<Thing, Refusal<Stop>>
        ensures { Ends thing_of (the_result (start_of start.now) (progress_of self.now) (part_of x) k) result }
    {
        let row = self.live_row(alloc, start, x)?;
        match result_at(k, row) {
            None => Err(breaks(Break::Count)),
            Some(thing) => Ok(thing),
        }
    }

    pub fn only_result_thing(
        &self,
        alloc: Global,
        start: &Start<'_>,
        x: Part,
    ) -> Result<Thing, Refusal<Stop>>
        ensures { Ends thing_of (the_only_result (start_of start.now) (progress_of self.now) (part_of x)) result }
    {
        let row = self.live_row(alloc, start, x)?;
        match only_result_at(row) {
            None => Err(breaks(Break::Count)),
            Some(thing) => Ok(thing),
        }
    }

    pub fn results_thing(
        &self,
        alloc: Global,
        start: &Start<'_>,
        x: Part,
    ) -> Result<Thing, Refusal<Stop>>
        ensures { Ends thing_of (all_results (start_of start.now) (progress_of self.now) (part_of x)) result }
    {
        let row = self.live_row(alloc, start, x)?;
        Ok(Thing::Values(results_of(alloc, row)?))
    }

    pub fn result_types_thing(
        &self,
        alloc: Global,
        start: &Start<'_>,
        x: Part,
    ) -> Result<Thing, Refusal<Stop>>
        ensures { Ends thing_of (all_result_types (start_of start.now) (progress_of self.now) (part_of x)) result }
    {
        let row = self.live_row(alloc, start, x)?;
        Ok(Thing::Tys(copy_tys(alloc, row.results.as_slice())?))
    }
}
