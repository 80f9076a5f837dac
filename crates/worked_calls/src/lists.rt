//! Calls of `shared_list`.

use call_answers::Answers;
use shared_list::Shared;
use sqlite_items::Items;
use std::alloc::{AllocError, Global};

fn tell_empty(answers: &mut Answers) -> Result<(), AllocError> {
    let list: Shared<u8> = Shared::empty();
    answers.tell_value("Shared::empty()", &list.as_slice())?;
    answers.tell_value("Shared::copy([])", &list.copy()?.as_slice())?;
    answers.tell_value("Shared::is_empty([])", &list.is_empty())?;
    let list: Shared<u8> = Shared::new(answers.alloc, Items::new(answers.alloc))?;
    answers.tell_value("Shared::new([])", &list.as_slice())
}

fn tell_two(answers: &mut Answers) -> Result<(), AllocError> {
    let list = Shared::from_slice(answers.alloc, &[7, 8])?;
    answers.tell_value("Shared::from_slice([7, 8])", &list.as_slice())?;
    answers.tell_value("Shared::copy([7, 8])", &list.copy()?.as_slice())?;
    answers.tell_value("Shared::len([7, 8])", &list.len())?;
    answers.tell_value("Shared::is_empty([7, 8])", &list.is_empty())?;
    answers.tell_value("Shared::get([7, 8], 1)", &list.get(1))?;
    answers.tell_value("Shared::get([7, 8], 2)", &list.get(2))
}

// A list whose members take memory.
fn nested(alloc: Global) -> Result<Shared<Shared<u8>>, AllocError> {
    let mut items = Items::new(alloc);
    items.push(Shared::from_slice(alloc, &[7, 8])?)?;
    items.push(Shared::empty())?;
    Shared::new(alloc, items)
}

fn tell_nested(answers: &mut Answers) -> Result<(), AllocError> {
    let copied = nested(answers.alloc)?.copy()?;
    match copied.as_slice() {
        [first, second] => {
            answers.tell_value("Shared::copy([[7, 8], []]), its first", &first.as_slice())?;
            answers.tell_value("Shared::copy([[7, 8], []]), its second", &second.as_slice())
        }
        _ => answers.tell("Shared::copy([[7, 8], []])", b"other than two"),
    }
}

pub fn tell(answers: &mut Answers) -> Result<(), AllocError> {
    tell_empty(answers)?;
    tell_two(answers)?;
    tell_nested(answers)
}
