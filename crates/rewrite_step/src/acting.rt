//! The actions of a rewrite.

ghost use Rattle.std.specs.Prelude.{map};
ghost use Rattle.rewrite_model.specs.Making as spec;
ghost use Rattle.pdll_patterns.specs.View.{making_of, action_of};
ghost use Rattle.rewrite_step.specs.View.{start_of, progress_of};
ghost use Rattle.rewrite_step.specs.Ends.{Ends};

use crate::progress::{Progress, Start};
use crate::stop::Stop;
use mlir_tree::refusal::Refusal;
use pdll_patterns::action::{Action, Making};
use row_matcher::thing::Thing;
use std::alloc::Global;

impl Progress {
    /// Makes a thing, which counts as the last that was made.
    pub fn making(
        &mut self,
        alloc: Global,
        start: &Start<'_>,
        x: &Making<'_>,
    ) -> Result<(), Refusal<Stop>>
        ensures { Ends (λ _. progress_of self.new) (spec.making (start_of start.now) (progress_of self.old) (making_of x.now)) result }
    {
        match x {
            Making::AttrLiteral(value) => {
                let thing = Thing::Attr(value.copy(alloc)?);
                self.give_ended(Ok(thing))
            }
            Making::TypeLiteral(ty) => {
                let thing = Thing::Ty(ty.copy(alloc)?);
                self.give_ended(Ok(thing))
            }
            Making::NewOperation(name, o) => self.create(alloc, start, name, o),
            Making::ResultOf(x, k) => {
                let thing = self.result_thing(alloc, start, *x, *k);
                self.give_ended(thing)
            }
            Making::OnlyResultOf(x) => {
                let thing = self.only_result_thing(alloc, start, *x);
                self.give_ended(thing)
            }
            Making::ResultsOf(x) => {
                let thing = self.results_thing(alloc, start, *x);
                self.give_ended(thing)
            }
            Making::ResultTypesOf(x) => {
                let thing = self.result_types_thing(alloc, start, *x);
                self.give_ended(thing)
            }
            Making::Native(f, xs) => {
                let thing = self.native_thing(alloc, start, *f, xs.as_slice());
                self.give_ended(thing)
            }
        }
    }

    /// Does an action.
    pub fn act(
        &mut self,
        alloc: Global,
        start: &Start<'_>,
        x: &Action<'_>,
    ) -> Result<(), Refusal<Stop>>
        ensures { Ends (λ _. progress_of self.new) (spec.act (start_of start.now) (progress_of self.old) (action_of x.now)) result }
    {
        match x {
            Action::Makes(x) => self.making(alloc, start, x),
            Action::Replaces(x, xs) => self.replace(alloc, start, *x, xs.as_slice()),
            Action::Erases(x) => self.erase(alloc, start, *x),
        }
    }

    /// Does actions one after another.
    pub fn act_all(
        &mut self,
        alloc: Global,
        start: &Start<'_>,
        xs: &[Action<'_>],
    ) -> Result<(), Refusal<Stop>>
        ensures { Ends (λ _. progress_of self.new) (spec.act_all (start_of start.now) (progress_of self.old) (map action_of xs.now)) result }
    {
        for x in xs {
            if let Err(e) = self.act(alloc, start, x) {
                return Err(e);
            }
        }
        Ok(())
    }
}
