//! Calls of the tables on which modules under edits will stand, each with what it answers.
#![tactic(auto)]

mod keys;
mod labels;
mod uses;

use call_answers::Answers;
use rw_outside::{StreamSink, put_all};
use std::alloc::AllocError;
use std::process::ExitCode;

fn tell_all(answers: &mut Answers) -> Result<(), AllocError> {
    keys::tell(answers)?;
    labels::tell(answers)?;
    uses::tell(answers)
}

fn main(rt: HostRuntime) -> ExitCode {
    let mut answers = Answers::new(rt.alloc());
    let told = tell_all(&mut answers);
    let mut out = StreamSink::new(rt.stdout());
    let put = put_all(&mut out, &answers.text);
    if told.is_ok() && put.is_ok() {
        ExitCode::SUCCESS
    } else {
        ExitCode::FAILURE
    }
}
