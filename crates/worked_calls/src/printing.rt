//! Calls of `mlir_print`.

use crate::reading::{attr, ty};
use crate::resolving::module;
use call_answers::Answers;
use mlir_print::{
    attr_text, number, print_attr, print_rows, print_string, print_ty, string_text, ty_text,
};
use rw_outside::MemSink;
use std::alloc::AllocError;

fn tell_texts(answers: &mut Answers) -> Result<(), AllocError> {
    let alloc = answers.alloc;
    let text = ty_text(alloc, &ty(alloc, "(i32)->index")?)?;
    answers.tell("ty_text((i32) -> index)", text.as_slice())?;
    let text = attr_text(alloc, &attr(alloc, "7")?)?;
    answers.tell("attr_text(7)", text.as_slice())?;
    answers.tell(
        "string_text(a, byte 255, b)",
        string_text(alloc, b"a\xFFb")?.as_slice(),
    )
}

fn tell_type(answers: &mut Answers, call: &str, room: usize) -> Result<(), AllocError> {
    let ty = ty(answers.alloc, "(i32, index) -> ()")?;
    let mut sink = MemSink::new(answers.alloc, room)?;
    answers.tell_value(call, &print_ty(&ty, &mut sink))?;
    answers.tell("MemSink::bytes()", sink.bytes())
}

fn tell_attribute(answers: &mut Answers) -> Result<(), AllocError> {
    let attr = attr(answers.alloc, "[unit, 7]")?;
    let mut sink = MemSink::new(answers.alloc, 100)?;
    answers.tell_value("print_attr([unit, 7 : i64])", &print_attr(&attr, &mut sink))?;
    answers.tell("MemSink::bytes()", sink.bytes())
}

fn tell_string(answers: &mut Answers) -> Result<(), AllocError> {
    let mut sink = MemSink::new(answers.alloc, 100)?;
    answers.tell_value(
        "print_string(a, byte 255, b)",
        &print_string(b"a\xFFb", &mut sink),
    )?;
    answers.tell("MemSink::bytes()", sink.bytes())
}

fn tell_module(answers: &mut Answers) -> Result<(), AllocError> {
    let rows = module(answers.alloc)?;
    let numbers = number(answers.alloc, &rows)?;
    let mut sink = MemSink::new(answers.alloc, 1000)?;
    answers.tell_value(
        "print_rows(the module)",
        &print_rows(&rows, &numbers, &mut sink),
    )?;
    answers.tell("MemSink::bytes()", sink.bytes())
}

pub fn tell(answers: &mut Answers) -> Result<(), AllocError> {
    tell_texts(answers)?;
    tell_type(
        answers,
        "print_ty((i32, index) -> ()) into MemSink of 100",
        100,
    )?;
    tell_type(answers, "print_ty((i32, index) -> ()) into MemSink of 6", 6)?;
    tell_attribute(answers)?;
    tell_string(answers)?;
    tell_module(answers)
}
