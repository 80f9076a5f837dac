//! Calls of `shared_text`, at 22 bytes and at 23.

use call_answers::Answers;
use shared_text::SharedText;
use sqlite_items::Items;
use std::alloc::AllocError;

fn tell_empty(answers: &mut Answers) -> Result<(), AllocError> {
    let text = SharedText::empty();
    answers.tell("SharedText::empty()", text.as_slice())?;
    answers.tell_value("SharedText::is_empty()", &text.is_empty())
}

fn tell_sizes(answers: &mut Answers, given: &str) -> Result<(), AllocError> {
    let text = SharedText::from_slice(answers.alloc, given.as_bytes())?;
    let call = format!(in answers.alloc; "SharedText::len({given})")?;
    answers.tell_value(call.as_str(), &text.len())?;
    let call = format!(in answers.alloc; "SharedText::is_empty({given})")?;
    answers.tell_value(call.as_str(), &text.is_empty())
}

fn tell_copy(answers: &mut Answers, given: &str) -> Result<(), AllocError> {
    let text = SharedText::from_slice(answers.alloc, given.as_bytes())?;
    let call = format!(in answers.alloc; "SharedText::from_slice({given})")?;
    answers.tell(call.as_str(), text.as_slice())?;
    let call = format!(in answers.alloc; "SharedText::copy({given})")?;
    answers.tell(call.as_str(), text.copy()?.as_slice())
}

fn tell_kept(answers: &mut Answers, given: &str) -> Result<(), AllocError> {
    let items = Items::from_slice(answers.alloc, given.as_bytes())?;
    let text = SharedText::new(answers.alloc, items)?;
    let call = format!(in answers.alloc; "SharedText::new({given})")?;
    answers.tell(call.as_str(), text.as_slice())
}

fn tell_text(answers: &mut Answers, given: &str) -> Result<(), AllocError> {
    tell_sizes(answers, given)?;
    tell_copy(answers, given)?;
    tell_kept(answers, given)
}

pub fn tell(answers: &mut Answers) -> Result<(), AllocError> {
    tell_empty(answers)?;
    tell_text(answers, "abcdefghijklmnopqrstuv")?;
    tell_text(answers, "abcdefghijklmnopqrstuvw")
}
