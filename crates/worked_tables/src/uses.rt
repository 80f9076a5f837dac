//! Calls of `use_lists`.

use call_answers::Answers;
use mlir_tree::value::Val;
use std::alloc::AllocError;
use use_lists::uses::Uses;

pub fn tell(answers: &mut Answers) -> Result<(), AllocError> {
    let value = Val::Res(3, 0);
    let mut uses = Uses::new(answers.alloc);
    answers.tell_value(
        "Uses::count(result 0 of row 3), of none",
        &uses.count(value),
    )?;
    answers.tell_value("Uses::first(it), of none", &uses.first(value))?;
    uses.reserve(1)?;
    uses.link(value, 7, 0);
    answers.tell_value("Uses::count(result 0 of row 3)", &uses.count(value))?;
    answers.tell_value("Uses::first(it)", &uses.first(value))
}
