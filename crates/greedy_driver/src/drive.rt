//! The whole run.

ghost use Rattle.std.specs.Prelude.{map, IfOk};
ghost use Rattle.mlir_tree.specs.WellFormed.{IsWellFormed};
ghost use Rattle.rewrite_model.specs.Expanding as spec;
ghost use Rattle.rewrite_model.specs.Determined.{AreDetermined};
ghost use Rattle.rewrite_model.specs.Running.{Runs, Reaches};
ghost use Rattle.pdll_patterns.specs.View.{pattern_of};
ghost use Rattle.greedy_driver.specs.Course.{course_of};

use crate::turn::{Turn, go_on, no_rows};
use mlir_tree::rows::Rows;
use pdll_patterns::pattern::{Pattern, patterns};
use pdll_types::laws::accepted_files_are_determined;
use pdll_types::typed::Typed;
use rewrite_model::run::Order;
use row_index::index::RowIndex;
use run_model::run::Run;
use sqlite_items::Items;
use std::alloc::{AllocError, Global};

/// Runs these patterns in this order.
fn drive(
    alloc: Global,
    rows: &mut Rows,
    patterns: &[Pattern<'_>],
    order: Order,
    bound: u32,
) -> Result<Run, AllocError>
    requires well_formed { IsWellFormed rows.old }
    requires determined { ∥ AreDetermined (map pattern_of patterns.now) ∥₁ }
    ensures run { IfOk result (λ r. Runs order (map pattern_of patterns.now) bound rows.old (course_of r rows.new)) }
    ensures reached { Reaches order (map pattern_of patterns.now) bound rows.old rows.new }
    ensures well_formed { IsWellFormed rows.new }
{
    let mut spare = no_rows(alloc);
    let mut index = RowIndex::new(alloc, rows)?;
    let mut taken = Items::new(alloc);
    let mut left = bound;
    loop {
        match go_on(alloc, rows, &index, &mut spare, patterns, order, left)? {
            Turn::Ended(ending) => return Ok(Run { taken, ending }),
            Turn::Took(told, later) => {
                taken.push(told)?;
                left -= 1;
                index = later;
            }
        }
    }
}

/// Rewrites a module by the patterns of a file: while fewer steps than `bound` were taken, the first operation in text order
/// at which a pattern matches, or the last one, by its best pattern (MLIR's greedy pattern rewrite driver goes in another
/// order). Tells the steps and how the run ended, and `rows` is the module at its end. After want of memory it is the module
/// after the steps that were taken.
pub fn drive_rows(
    alloc: Global,
    rows: &mut Rows,
    typed: &Typed,
    order: Order,
    bound: u32,
) -> Result<Run, AllocError>
    requires { IsWellFormed rows.old }
    // The run is that of the patterns, and the module is the one at its end.
    ensures run { IfOk result (λ r. Runs order (spec.patterns typed.now.file) bound rows.old (course_of r rows.new)) }
    // After want of memory too, it is one of the modules of the run.
    ensures reached { Reaches order (spec.patterns typed.now.file) bound rows.old rows.new }
    ensures well_formed { IsWellFormed rows.new }
{
    accepted_files_are_determined();
    let patterns = patterns(alloc, &typed.file)?;
    drive(alloc, rows, patterns.as_slice(), order, bound)
}
