//! Lists of values, of up to two and of more.

use call_answers::Answers;
use mlir_tree::value::{Val, ValList};
use sqlite_items::Items;
use std::alloc::AllocError;

fn tell_empty(answers: &mut Answers) -> Result<(), AllocError> {
    let list = ValList::empty();
    answers.tell_value("ValList::empty()", &list.as_slice())?;
    answers.tell_value("ValList::is_empty([])", &list.is_empty())?;
    answers.tell_value("ValList::len([])", &list.len())
}

fn tell_list(answers: &mut Answers, values: &[Val]) -> Result<(), AllocError> {
    let list = ValList::from_slice(answers.alloc, values)?;
    let call = format!(in answers.alloc; "ValList::from_slice({values:?})")?;
    answers.tell_value(call.as_str(), &list.as_slice())?;
    let call = format!(in answers.alloc; "ValList::copy({values:?})")?;
    answers.tell_value(call.as_str(), &list.copy()?.as_slice())
}

fn tell_kept(answers: &mut Answers, values: &[Val]) -> Result<(), AllocError> {
    let items = Items::from_slice(answers.alloc, values)?;
    let list = ValList::new(answers.alloc, items)?;
    let call = format!(in answers.alloc; "ValList::new({values:?})")?;
    answers.tell_value(call.as_str(), &list.as_slice())?;
    let call = format!(in answers.alloc; "ValList::get({values:?}, 2)")?;
    answers.tell_value(call.as_str(), &list.get(2))
}

pub fn tell(answers: &mut Answers) -> Result<(), AllocError> {
    tell_empty(answers)?;
    let values = [Val::Res(1, 0), Val::Arg(2, 0, 1), Val::Res(3, 4)];
    tell_list(answers, &values[..2])?;
    tell_list(answers, &values)?;
    tell_kept(answers, &values[..2])?;
    tell_kept(answers, &values)
}
