//! Types: copies, their order, the integers that they hold, and keys.

use crate::reading::ty;
use call_answers::Answers;
use mlir_tree::number::Number;
use std::alloc::AllocError;
use std::collections::HashSet;

// Each is below the next.
const TYPES: [&str; 12] = [
    "i8",
    "i32",
    "si8",
    "ui8",
    "index",
    "() -> ()",
    "() -> i32",
    "(i32) -> ()",
    "(i32) -> i32",
    "(i32, i32) -> ()",
    "f32",
    "f64",
];

fn tell_copy(answers: &mut Answers, text: &str) -> Result<(), AllocError> {
    let given = ty(answers.alloc, text)?;
    let copy = given.copy(answers.alloc)?;
    let call = format!(in answers.alloc; "Ty::equal({text}, its copy)")?;
    answers.tell_value(call.as_str(), &copy.equal(&given))
}

fn tell_copies(answers: &mut Answers) -> Result<(), AllocError> {
    for text in TYPES {
        tell_copy(answers, text)?;
    }
    Ok(())
}

fn tell_order(answers: &mut Answers, first: &str, second: &str) -> Result<(), AllocError> {
    let order = ty(answers.alloc, first)?.cmp(&ty(answers.alloc, second)?);
    let call = format!(in answers.alloc; "Ty::cmp({first}, {second})")?;
    answers.tell_value(call.as_str(), &order)
}

fn tell_orders(answers: &mut Answers) -> Result<(), AllocError> {
    for (first, second) in TYPES.iter().zip(TYPES.iter().skip(1)) {
        tell_order(answers, first, second)?;
    }
    Ok(())
}

fn number(value: i128) -> Number {
    Number {
        neg: value < 0,
        mag: value.unsigned_abs(),
    }
}

fn tell_held(answers: &mut Answers, text: &str, values: &[i128]) -> Result<(), AllocError> {
    let ty = ty(answers.alloc, text)?;
    for value in values {
        let call = format!(in answers.alloc; "Ty::holds({text}, {value})")?;
        answers.tell_value(call.as_str(), &ty.holds(number(*value)))?;
    }
    Ok(())
}

fn tell_ranges(answers: &mut Answers) -> Result<(), AllocError> {
    tell_held(answers, "i8", &[-129, -128, 127, 128])?;
    tell_held(answers, "ui8", &[-1, 0, 255, 256])?;
    tell_held(
        answers,
        "index",
        &[-9223372036854775809, -9223372036854775808],
    )?;
    tell_held(
        answers,
        "index",
        &[9223372036854775807, 9223372036854775808],
    )?;
    tell_held(answers, "i0", &[-1, 0, 1])?;
    tell_held(answers, "i129", &[0])?;
    tell_held(answers, "f32", &[0])
}

fn tell_keys(answers: &mut Answers, texts: &[&str]) -> Result<(), AllocError> {
    let mut set = HashSet::new(answers.alloc);
    for text in texts {
        let inserted = set.insert(ty(answers.alloc, text)?)?;
        let call = format!(in answers.alloc; "HashSet::insert({text})")?;
        answers.tell_value(call.as_str(), &inserted)?;
    }
    Ok(())
}

pub fn tell(answers: &mut Answers) -> Result<(), AllocError> {
    tell_copies(answers)?;
    tell_orders(answers)?;
    tell_ranges(answers)?;
    tell_keys(answers, &["i32", "i32", "si32", "() -> i32", "() -> i32"])
}
