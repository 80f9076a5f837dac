//! The replacement of an operation.

ghost use Rattle.std.specs.Prelude.{◌≡◌, map, OnOk};
ghost use Rattle.mlir_tree.specs.Edits.{removed, substituted};
ghost use Rattle.rewrite_model.specs.Making as spec;
ghost use Rattle.pdll_patterns.specs.View.{part_of};
ghost use Rattle.rewrite_step.specs.View.{start_of, progress_of};
ghost use Rattle.rewrite_step.specs.Ends.{Ends};
ghost use Rattle.rewrite_step.specs.Worked.{may_replace};

use crate::edits::{remove, substitute};
use crate::making::results_of;
use crate::places::{are_live, have_types};
use crate::progress::{Progress, Start};
use crate::stop::{Stop, breaks};
use mlir_tree::refusal::Refusal;
use mlir_tree::row::Row;
use mlir_tree::rows::Rows;
use mlir_tree::value::Val;
use pdll_patterns::action::Part;
use rewrite_model::run::Break;
use std::alloc::{AllocError, Global};

// Whether values may be used in place of the results of a row.
fn may_replace(rows: &[Row], row: &Row, values: &[Val]) -> Result<(), Refusal<Stop>>
    ensures { Ends (λ u. u) (may_replace rows.now row.now values.now) result }
{
    if !are_live(rows, values) {
        return Err(breaks(Break::Gone));
    }
    if values.len() != row.results.len() {
        return Err(breaks(Break::Count));
    }
    if !have_types(rows, values, row.results.as_slice()) {
        return Err(breaks(Break::Types));
    }
    if row.id == 0 {
        return Err(breaks(Break::Top));
    }
    Ok(())
}

// Uses values in place of others, and removes a row with all rows inside it.
fn exchange(
    alloc: Global,
    rows: &mut Rows,
    id: u32,
    from: &[Val],
    to: &[Val],
) -> Result<(), AllocError>
    ensures { OnOk result (rows.new ≡ removed id (substituted from.now to.now rows.old)) }
{
    substitute(alloc, rows, from, to)?;
    remove(alloc, rows, id)
}

impl Progress {
    /// Uses values in place of the results of an operation, in every row at once, and removes the operation with all rows
    /// inside it (pdl dialect, "pdl.replace"). The module itself can't be replaced.
    pub fn replace(
        &mut self,
        alloc: Global,
        start: &Start<'_>,
        x: Part,
        xs: &[Part],
    ) -> Result<(), Refusal<Stop>>
        ensures { Ends (λ _. progress_of self.new) (spec.replace (start_of start.now) (progress_of self.old) (part_of x) (map part_of xs.now)) result }
    {
        let row = self.live_row(alloc, start, x)?;
        let values = self.values_at(alloc, start, xs)?;
        let rows = self.current.rows.as_slice();
        if let Err(e) = may_replace(rows, row, values.as_slice()) {
            return Err(e);
        }
        let id = row.id;
        let results = results_of(alloc, row)?;
        let from = results.as_slice();
        exchange(alloc, &mut self.current, id, from, values.as_slice())?;
        Ok(())
    }
}
