//! Calls of `mlir_tree`.

mod attributes;
mod rows;
mod types;
mod values;

use call_answers::Answers;
use std::alloc::AllocError;

pub fn tell(answers: &mut Answers) -> Result<(), AllocError> {
    types::tell(answers)?;
    attributes::tell(answers)?;
    values::tell(answers)?;
    rows::tell(answers)
}
