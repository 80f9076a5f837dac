//! Rows of a module: copies, and what is equal.

use crate::reading::ty;
use crate::resolving::module;
use call_answers::Answers;
use mlir_tree::content::Content;
use mlir_tree::row::{RegionList, Row};
use mlir_tree::rows::{Rows, copy_rows, equal_rows};
use shared_list::Shared;
use sqlite_items::Items;
use std::alloc::{AllocError, Global};

fn given<C: Content>(alloc: Global, content: &C) -> Result<Rows, AllocError> {
    content.give_rows(alloc)
}

fn tell_copies(answers: &mut Answers) -> Result<(), AllocError> {
    let alloc = answers.alloc;
    let rows = module(alloc)?;
    let mut copy = rows.copy(alloc)?;
    answers.tell_value("Rows::equal(the module, its copy)", &copy.equal(&rows))?;
    copy.next = 5;
    answers.tell_value(
        "Rows::equal(the module, its copy with next 5)",
        &copy.equal(&rows),
    )?;
    let other = given(alloc, &rows)?;
    answers.tell_value(
        "Rows::equal(the module, Content::give_rows of it)",
        &other.equal(&rows),
    )
}

fn tell_lists(answers: &mut Answers) -> Result<(), AllocError> {
    let rows = module(answers.alloc)?;
    let all = rows.rows.as_slice();
    let mut copy = copy_rows(answers.alloc, all)?;
    answers.tell_value(
        "equal_rows(the rows, copy_rows of them)",
        &equal_rows(all, copy.as_slice()),
    )?;
    let _ = copy.pop();
    answers.tell_value(
        "equal_rows(the rows, all but the last)",
        &equal_rows(all, copy.as_slice()),
    )
}

// One region with an argument of type i32.
fn one_argument(alloc: Global) -> Result<RegionList, AllocError> {
    let mut types = Items::new(alloc);
    types.push(ty(alloc, "i32")?)?;
    let mut regions = Items::new(alloc);
    regions.push(Shared::new(alloc, types)?)?;
    Shared::new(alloc, regions)
}

fn tell_row(answers: &mut Answers, row: &Row) -> Result<(), AllocError> {
    let mut copy = row.copy(answers.alloc)?;
    answers.tell_value("Row::equal(func.func, its copy)", &copy.equal(row))?;
    copy.props = Shared::empty();
    answers.tell_value(
        "Row::equal(func.func, it without properties)",
        &copy.equal(row),
    )?;
    let mut copy = row.copy(answers.alloc)?;
    copy.regions = one_argument(answers.alloc)?;
    answers.tell_value(
        "Row::equal(func.func, it with an argument)",
        &copy.equal(row),
    )
}

fn tell_function(answers: &mut Answers) -> Result<(), AllocError> {
    let rows = module(answers.alloc)?;
    match rows.rows.get(1) {
        Some(row) => tell_row(answers, row),
        None => answers.tell("Items::get(1)", b"no row"),
    }
}

pub fn tell(answers: &mut Answers) -> Result<(), AllocError> {
    tell_copies(answers)?;
    tell_lists(answers)?;
    tell_function(answers)
}
