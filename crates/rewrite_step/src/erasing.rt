//! The removal of an operation.

ghost use Rattle.rewrite_model.specs.Making as spec;
ghost use Rattle.pdll_patterns.specs.View.{part_of};
ghost use Rattle.rewrite_step.specs.View.{start_of, progress_of};
ghost use Rattle.rewrite_step.specs.Ends.{Ends};

use crate::edits::remove;
use crate::progress::{Progress, Start};
use crate::stop::{Stop, breaks};
use mlir_tree::refusal::Refusal;
use pdll_patterns::action::Part;
use rewrite_model::run::Break;
use std::alloc::Global;

impl Progress {
    /// Removes an operation with all rows inside it. The module itself can't be removed.
    pub fn erase(&mut self, alloc: Global, start: &Start<'_>, x: Part) -> Result<(), Refusal<Stop>>
        ensures { Ends (λ _. progress_of self.new) (spec.erase (start_of start.now) (progress_of self.old) (part_of x)) result }
    {
        let id = self.live_row(alloc, start, x)?.id;
        if id == 0 {
            return Err(breaks(Break::Top));
        }
        Ok(remove(alloc, &mut self.current, id)?)
    }
}
