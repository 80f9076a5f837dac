//! Calls of the libraries of patterns and runs, each with what it answers.
#![tactic(auto)]

mod logs;
mod orders;
mod sizes;
mod spelling;
mod syntax;

use call_answers::Answers;
use rw_outside::{StreamSink, put_all};
use std::alloc::AllocError;
use std::process::ExitCode;

fn tell_patterns(answers: &mut Answers) -> Result<(), AllocError> {
    spelling::tell(answers)?;
    syntax::tell(answers)?;
    sizes::tell(answers)
}

fn tell_all(answers: &mut Answers) -> Result<(), AllocError> {
    tell_patterns(answers)?;
    logs::tell(answers)?;
    orders::tell(answers)
}

fn main(rt: HostRuntime) -> ExitCode {
    let mut answers = Answers::new(rt.alloc());
    let told = tell_all(&mut answers);
    let mut out = StreamSink::new(rt.stdout());
    let put = put_all(&mut out, &answers.text);
    if told.is_ok() && put.is_ok() {
        ExitCode::SUCCESS
    } else {
        ExitCode::FAILURE
    }
}
