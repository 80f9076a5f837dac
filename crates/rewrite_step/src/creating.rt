//! New operations.

ghost use Rattle.std.specs.Prelude.{◌≡◌, ◌<◌, ◌+◌, IfOk, OnOk};
ghost use Rattle.rewrite_model.specs.Making.{Start as StartOf, slots_of};
ghost use Rattle.rewrite_model.specs.Making as spec;
ghost use Rattle.pdll_patterns.specs.View.{parts_of};
ghost use Rattle.rewrite_step.specs.View.{start_of, progress_of};
ghost use Rattle.rewrite_step.specs.Ends.{Ends};
ghost use Rattle.rewrite_step.specs.Worked.{slots_with, row_with, added, home_for, created};

use crate::dictionary::sorted;
use crate::edits::insert;
use crate::places::{are_live, row_of};
use crate::progress::{Progress, Start};
use crate::stop::{Stop, bound, breaks};
use mlir_tree::attr::Attr;
use mlir_tree::refusal::Refusal;
use mlir_tree::row::{Home, Row};
use mlir_tree::text::Text;
use mlir_tree::ty::TyList;
use mlir_tree::value::{Val, ValList};
use pdll_patterns::action::Parts;
use rewrite_model::run::{BoundKind, Break};
use row_matcher::thing::Thing;
use shared_list::Shared;
use shared_text::SharedText;
use sqlite_items::Items;
use std::alloc::{AllocError, Global};

// The home of the root, where it is live and isn't the module, and so are the operations that have the operands.
fn home_for(rows: &[Row], operands: &[Val], root: u32) -> Result<Option<Home>, Refusal<Stop>>
    ensures { Ends (λ h. h) (home_for rows.now operands.now root) result }
{
    if !are_live(rows, operands) {
        return Err(breaks(Break::Gone));
    }
    if root == 0 {
        return Err(breaks(Break::Top));
    }
    match row_of(rows, root) {
        None => Err(breaks(Break::Gone)),
        Some(row) => Ok(row.home),
    }
}

// A row without properties and regions.
fn new_row(
    alloc: Global,
    id: u32,
    home: Option<Home>,
    name: &[u8],
    operands: ValList,
    entries: &mut Items<(Text, Attr)>,
    types: TyList,
) -> Result<Row, AllocError>
    ensures { IfOk result (λ row. row ≡ row_with home id name.now operands entries.old types) }
{
    Ok(Row {
        id,
        home,
        name: SharedText::from_slice(alloc, name)?,
        operands,
        results: types,
        props: Shared::empty(),
        attrs: sorted(alloc, entries)?,
        regions: Shared::empty(),
    })
}

impl Progress {
    // How many slots there are with one more row, where it fits: at most 4,000,000 rows, then at most 16,000,000 slots, and
    // at most 65,535 operands and results of one row.
    fn room(&self, operands: usize, results: usize) -> Result<usize, Refusal<Stop>>
        ensures slots { Ends (λ n. n) (slots_with self.now.rows self.now.slots operands results) result }
        ensures rows { IfOk result (λ _. self.now.rows < 4000000) }
    {
        if self.rows >= 4_000_000 {
            return Err(bound(BoundKind::RowLimit));
        }
        if operands > 65_535 || results > 65_535 || self.slots > 16_000_000 {
            return Err(bound(BoundKind::SlotLimit));
        }
        let slots = self.slots + (operands + results);
        if slots > 16_000_000 {
            return Err(bound(BoundKind::SlotLimit));
        }
        Ok(slots)
    }

    // Puts a row just before the root.
    fn put_in(&mut self, alloc: Global, root: u32, row: Row, slots: usize) -> Result<(), AllocError>
        requires { self.old.rows < 4000000 }
        ensures { OnOk result ((s : StartOf) → s.root ≡ root → slots ≡ self.old.slots + slots_of row → progress_of self.new ≡ spec.put_in s (progress_of self.old) row) }
    {
        let id = row.id;
        insert(alloc, &mut self.current, root, row)?;
        self.made.push(Thing::Op(id))?;
        self.rows += 1;
        self.slots = slots;
        Ok(())
    }

    // Makes a row and puts it in, where there is room.
    fn add_row(
        &mut self,
        alloc: Global,
        start: &Start<'_>,
        home: Option<Home>,
        name: &[u8],
        operands: ValList,
        entries: &mut Items<(Text, Attr)>,
        types: TyList,
    ) -> Result<(), Refusal<Stop>>
        ensures { Ends (λ _. progress_of self.new) (added (start_of start.now) (progress_of self.old) home name.now operands entries.old types) result }
    {
        let slots = self.room(operands.len(), types.len())?;
        let id = self.current.next;
        let row = new_row(alloc, id, home, name, operands, entries, types)?;
        Ok(self.put_in(alloc, start.root, row, slots)?)
    }

    // Makes an operation with these operands, attributes and types.
    fn create_with(
        &mut self,
        alloc: Global,
        start: &Start<'_>,
        name: &[u8],
        operands: ValList,
        entries: &mut Items<(Text, Attr)>,
        types: TyList,
    ) -> Result<(), Refusal<Stop>>
        ensures { Ends (λ _. progress_of self.new) (created (start_of start.now) (progress_of self.old) name.now operands entries.old types) result }
    {
        let rows = self.current.rows.as_slice();
        let home = match home_for(rows, operands.as_slice(), start.root) {
            Err(e) => return Err(e),
            Ok(home) => home,
        };
        self.add_row(alloc, start, home, name, operands, entries, types)?;
        Ok(())
    }

    /// Makes an operation just before the root, in its block, without properties and regions.
    pub fn create(
        &mut self,
        alloc: Global,
        start: &Start<'_>,
        name: &[u8],
        o: &Parts<'_>,
    ) -> Result<(), Refusal<Stop>>
        ensures { Ends (λ _. progress_of self.new) (spec.create (start_of start.now) (progress_of self.old) name.now (parts_of o.now)) result }
    {
        let operands = self.values_at(alloc, start, o.operands.as_slice())?;
        let mut entries = self.entries_at(alloc, start, o.entries.as_slice())?;
        let types = self.types_at(alloc, start, o.types.as_slice())?;
        self.create_with(alloc, start, name, operands, &mut entries, types)?;
        Ok(())
    }
}
