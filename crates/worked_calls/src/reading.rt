//! Calls of `mlir_attributes`. Here are the types and attributes that the other calls are made on; a text that spells none
//! ends the program, as want of memory does.

use call_answers::Answers;
use mlir_attributes::{parse_attr, parse_ty};
use mlir_tree::attr::Attr;
use mlir_tree::ty::Ty;
use std::alloc::{AllocError, Global};

/// The type of this text.
pub fn ty(alloc: Global, text: &str) -> Result<Ty, AllocError> {
    match parse_ty(alloc, text.as_bytes()) {
        Ok(ty) => Ok(ty),
        Err(_) => Err(AllocError),
    }
}

/// The attribute of this text.
pub fn attr(alloc: Global, text: &str) -> Result<Attr, AllocError> {
    match parse_attr(alloc, text.as_bytes()) {
        Ok(attr) => Ok(attr),
        Err(_) => Err(AllocError),
    }
}

fn tell_refused_type(answers: &mut Answers, text: &str) -> Result<(), AllocError> {
    let call = format!(in answers.alloc; "parse_ty({text})")?;
    match parse_ty(answers.alloc, text.as_bytes()) {
        Ok(_) => answers.tell(call.as_str(), b"a type"),
        Err(refusal) => answers.tell_value(call.as_str(), &refusal),
    }
}

fn tell_refused_attribute(answers: &mut Answers, text: &str) -> Result<(), AllocError> {
    let call = format!(in answers.alloc; "parse_attr({text})")?;
    match parse_attr(answers.alloc, text.as_bytes()) {
        Ok(_) => answers.tell(call.as_str(), b"an attribute"),
        Err(refusal) => answers.tell_value(call.as_str(), &refusal),
    }
}

pub fn tell(answers: &mut Answers) -> Result<(), AllocError> {
    tell_refused_type(answers, "(i32) ->")?;
    tell_refused_type(answers, "i32 i32")?;
    tell_refused_attribute(answers, "300 : i8")?;
    tell_refused_attribute(answers, "{a, a}")
}
