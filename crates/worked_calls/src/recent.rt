//! Calls of `recent_values`.

use crate::reading::{attr, ty};
use call_answers::Answers;
use mlir_tree::attr::{Attr, equal_dicts};
use mlir_tree::text::Text;
use mlir_tree::ty::{Ty, equal_tys};
use recent_values::Recent;
use shared_text::SharedText;
use sqlite_items::Items;
use std::alloc::{AllocError, Global};

fn tell_text(answers: &mut Answers, recent: &mut Recent, given: &str) -> Result<(), AllocError> {
    let text = recent.text(answers.alloc, given.as_bytes())?;
    let call = format!(in answers.alloc; "Recent::text({given})")?;
    answers.tell(call.as_str(), text.as_slice())
}

fn tell_texts(answers: &mut Answers, recent: &mut Recent) -> Result<(), AllocError> {
    tell_text(answers, recent, "abcdefghijklmnopqrstuvw")?;
    tell_text(answers, recent, "abcdefghijklmnopqrstuvw")?;
    tell_text(answers, recent, "abcdefghijklmnopqrstuvx")?;
    tell_text(answers, recent, "abc")
}

// i32, and the type of this text.
fn types(alloc: Global, second: &str) -> Result<Items<Ty>, AllocError> {
    let mut items = Items::new(alloc);
    items.push(ty(alloc, "i32")?)?;
    items.push(ty(alloc, second)?)?;
    Ok(items)
}

fn tell_types(answers: &mut Answers, recent: &mut Recent, second: &str) -> Result<(), AllocError> {
    let alloc = answers.alloc;
    let list = recent.types(alloc, types(alloc, second)?)?;
    let are_equal = equal_tys(list.as_slice(), types(alloc, second)?.as_slice());
    let call = format!(in alloc; "equal_tys(Recent::types([i32, {second}]), them)")?;
    answers.tell_value(call.as_str(), &are_equal)
}

// The entry `a` with the attribute of this text.
fn entries(alloc: Global, text: &str) -> Result<Items<(Text, Attr)>, AllocError> {
    let name = SharedText::from_slice(alloc, b"a")?;
    let value = attr(alloc, text)?;
    let mut items = Items::new(alloc);
    items.push((name, value))?;
    Ok(items)
}

fn tell_dict(answers: &mut Answers, recent: &mut Recent, text: &str) -> Result<(), AllocError> {
    let alloc = answers.alloc;
    let dict = recent.dict(alloc, entries(alloc, text)?)?;
    let are_equal = equal_dicts(dict.as_slice(), entries(alloc, text)?.as_slice());
    let call = format!(in alloc; "equal_dicts(Recent::dict(a = {text}), it)")?;
    answers.tell_value(call.as_str(), &are_equal)
}

pub fn tell(answers: &mut Answers) -> Result<(), AllocError> {
    let mut recent = Recent::new(answers.alloc);
    tell_texts(answers, &mut recent)?;
    tell_types(answers, &mut recent, "index")?;
    tell_types(answers, &mut recent, "index")?;
    tell_types(answers, &mut recent, "(i1) -> i1")?;
    tell_dict(answers, &mut recent, "[unit]")?;
    tell_dict(answers, &mut recent, "[unit]")?;
    tell_dict(answers, &mut recent, "[7 : i8]")
}
