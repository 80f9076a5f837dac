//! Calls of `row_index`.

use crate::resolving::module;
use call_answers::Answers;
use mlir_tree::rows::Rows;
use row_index::index::RowIndex;
use row_index::well_formed;
use std::alloc::AllocError;

fn tell_places(answers: &mut Answers, rows: &Rows) -> Result<(), AllocError> {
    let index = RowIndex::new(answers.alloc, rows)?;
    answers.tell_value("RowIndex::find(the module, 0)", &index.find(0))?;
    answers.tell_value("RowIndex::find(the module, 3)", &index.find(3))?;
    answers.tell_value("RowIndex::find(the module, 4)", &index.find(4))
}

pub fn tell(answers: &mut Answers) -> Result<(), AllocError> {
    let rows = module(answers.alloc)?;
    tell_places(answers, &rows)?;
    answers.tell_value("well_formed(the module)", &well_formed(&rows))
}
