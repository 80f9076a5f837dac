//! Calls of the libraries of modules and natives, each with what it answers.
#![tactic(auto)]

mod indexing;
mod lists;
mod natives;
mod outside;
mod printing;
mod reading;
mod recent;
mod resolving;
mod texts;
mod tree;

use call_answers::Answers;
use rw_outside::{StreamSink, put_all};
use std::alloc::AllocError;
use std::process::ExitCode;

fn tell_data(answers: &mut Answers) -> Result<(), AllocError> {
    outside::tell(answers)?;
    lists::tell(answers)?;
    texts::tell(answers)?;
    tree::tell(answers)?;
    recent::tell(answers)
}

fn tell_modules(answers: &mut Answers) -> Result<(), AllocError> {
    printing::tell(answers)?;
    reading::tell(answers)?;
    resolving::tell(answers)?;
    indexing::tell(answers)
}

fn tell_all(answers: &mut Answers) -> Result<(), AllocError> {
    tell_data(answers)?;
    tell_modules(answers)?;
    natives::tell(answers)
}

fn main(rt: HostRuntime) -> ExitCode {
    let mut answers = Answers::new(rt.alloc());
    let told = tell_all(&mut answers).is_ok() && outside::tell_real(&mut answers, &rt).is_ok();
    let mut out = StreamSink::new(rt.stdout());
    let put = put_all(&mut out, &answers.text);
    if told && put.is_ok() {
        ExitCode::SUCCESS
    } else {
        ExitCode::FAILURE
    }
}
