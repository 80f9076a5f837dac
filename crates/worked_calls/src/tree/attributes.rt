//! Attributes: copies, their order, and keys.

use crate::reading::attr;
use call_answers::Answers;
use std::alloc::AllocError;
use std::collections::HashSet;

// Each is below the next.
const ATTRIBUTES: [&str; 16] = [
    "unit",
    "8 : si8",
    "-7 : si8",
    "1.5 : f32",
    "\"a\"",
    "\"a\" : i32",
    "\"b\"",
    "@a",
    "@a::@b",
    "@b",
    "i32",
    "[]",
    "[unit, unit]",
    "{}",
    "#t.x",
    "#t.x : i32",
];

fn tell_copy(answers: &mut Answers, text: &str) -> Result<(), AllocError> {
    let given = attr(answers.alloc, text)?;
    let copy = given.copy(answers.alloc)?;
    let call = format!(in answers.alloc; "Attr::equal({text}, its copy)")?;
    answers.tell_value(call.as_str(), &copy.equal(&given))
}

fn tell_copies(answers: &mut Answers) -> Result<(), AllocError> {
    for text in ATTRIBUTES {
        tell_copy(answers, text)?;
    }
    Ok(())
}

fn tell_order(answers: &mut Answers, first: &str, second: &str) -> Result<(), AllocError> {
    let order = attr(answers.alloc, first)?.cmp(&attr(answers.alloc, second)?);
    let call = format!(in answers.alloc; "Attr::cmp({first}, {second})")?;
    answers.tell_value(call.as_str(), &order)
}

fn tell_orders(answers: &mut Answers) -> Result<(), AllocError> {
    for (first, second) in ATTRIBUTES.iter().zip(ATTRIBUTES.iter().skip(1)) {
        tell_order(answers, first, second)?;
    }
    Ok(())
}

fn tell_keys(answers: &mut Answers, texts: &[&str]) -> Result<(), AllocError> {
    let mut set = HashSet::new(answers.alloc);
    for text in texts {
        let inserted = set.insert(attr(answers.alloc, text)?)?;
        let call = format!(in answers.alloc; "HashSet::insert({text})")?;
        answers.tell_value(call.as_str(), &inserted)?;
    }
    Ok(())
}

pub fn tell(answers: &mut Answers) -> Result<(), AllocError> {
    tell_copies(answers)?;
    tell_orders(answers)?;
    tell_keys(
        answers,
        &[
            "@a::@b",
            "@a::@b",
            "[unit, unit]",
            "[unit, unit]",
            "[i32, unit]",
        ],
    )
}
