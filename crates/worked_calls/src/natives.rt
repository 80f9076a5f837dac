//! Calls of `native_set`.

use crate::reading::attr;
use call_answers::Answers;
use mlir_print::attr_text;
use mlir_tree::attr::Attr;
use mlir_tree::refusal::Refusal;
use native_set::arithmetic::{Refused, add_int, is_int, is_zero, mul_int, neg_int};
use native_set::native::{Constraint, Kind, Rewrite};
use native_set::table::{constraint, rewrite};
use std::alloc::AllocError;

fn tell_made(
    answers: &mut Answers,
    call: &str,
    made: Result<Attr, Refusal<Refused>>,
) -> Result<(), AllocError> {
    match made {
        Ok(attr) => answers.tell(call, attr_text(answers.alloc, &attr)?.as_slice()),
        Err(refusal) => answers.tell_value(call, &refusal),
    }
}

fn tell_sum(answers: &mut Answers, a: &str, b: &str) -> Result<(), AllocError> {
    let alloc = answers.alloc;
    let call = format!(in alloc; "add_int({a}, {b})")?;
    let sum = add_int(alloc, &attr(alloc, a)?, &attr(alloc, b)?);
    tell_made(answers, call.as_str(), sum)
}

fn tell_product(answers: &mut Answers, a: &str, b: &str) -> Result<(), AllocError> {
    let alloc = answers.alloc;
    let call = format!(in alloc; "mul_int({a}, {b})")?;
    let product = mul_int(alloc, &attr(alloc, a)?, &attr(alloc, b)?);
    tell_made(answers, call.as_str(), product)
}

fn tell_negative(answers: &mut Answers, a: &str) -> Result<(), AllocError> {
    let alloc = answers.alloc;
    let call = format!(in alloc; "neg_int({a})")?;
    let negative = neg_int(alloc, &attr(alloc, a)?);
    tell_made(answers, call.as_str(), negative)
}

fn tell_arithmetic(answers: &mut Answers) -> Result<(), AllocError> {
    tell_sum(answers, "100 : i8", "50 : i8")?;
    tell_sum(answers, "200 : ui8", "100 : ui8")?;
    tell_sum(answers, "100 : i8", "50 : i16")?;
    tell_product(answers, "16 : i8", "16 : i8")?;
    tell_product(answers, "unit", "16 : i8")?;
    tell_negative(answers, "-128 : i8")?;
    tell_negative(answers, "unit")
}

fn tell_test(answers: &mut Answers, text: &str) -> Result<(), AllocError> {
    let attr = attr(answers.alloc, text)?;
    let call = format!(in answers.alloc; "is_int({text})")?;
    answers.tell_value(call.as_str(), &is_int(&attr))?;
    let call = format!(in answers.alloc; "is_zero({text})")?;
    answers.tell_value(call.as_str(), &is_zero(&attr))
}

fn tell_constraint(
    answers: &mut Answers,
    call: &str,
    name: &[u8],
    kinds: &[Kind],
) -> Result<(), AllocError> {
    let found: Option<Constraint> = constraint(name, kinds);
    answers.tell_value(call, &found)
}

fn tell_constraints(answers: &mut Answers) -> Result<(), AllocError> {
    tell_constraint(
        answers,
        "constraint(HasOneUse, [Value])",
        b"HasOneUse",
        &[Kind::Value],
    )?;
    tell_constraint(
        answers,
        "constraint(HasOneUse, [Op])",
        b"HasOneUse",
        &[Kind::Op],
    )?;
    tell_constraint(
        answers,
        "constraint(SameBlock, [Op, Op])",
        b"SameBlock",
        &[Kind::Op, Kind::Op],
    )?;
    tell_constraint(
        answers,
        "constraint(SameBlock, [Op])",
        b"SameBlock",
        &[Kind::Op],
    )
}

fn tell_rewrites(answers: &mut Answers) -> Result<(), AllocError> {
    let found: Option<Rewrite> = rewrite(b"NegInt", &[Kind::Attr], Some(Kind::Attr));
    answers.tell_value("rewrite(NegInt, [Attr], Some(Attr))", &found)?;
    let found = rewrite(b"NegInt", &[Kind::Attr], None);
    answers.tell_value("rewrite(NegInt, [Attr], None)", &found)?;
    let found = rewrite(b"Negint", &[Kind::Attr], Some(Kind::Attr));
    answers.tell_value("rewrite(Negint, [Attr], Some(Attr))", &found)
}

pub fn tell(answers: &mut Answers) -> Result<(), AllocError> {
    tell_arithmetic(answers)?;
    tell_test(answers, "0 : ui8")?;
    tell_test(answers, "true")?;
    tell_test(answers, "0.0 : f32")?;
    tell_constraints(answers)?;
    tell_rewrites(answers)
}
