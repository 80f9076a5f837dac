//! Calls of `run_log`.

use call_answers::Answers;
use run_log::{put_log, read_log};
use run_model::run::{Run, StepRec};
use rw_outside::MemSink;
use std::alloc::{AllocError, Global};

const STEPS: &[u8] = b"pdllrw-log 1
step 1 pattern 0 \"ReshapeReshape\" root 3 made 5 removed 3
step 2 pattern 1 \"Drop\" root 4 made - removed 4,5
end converged steps 2
";

// The run that a log tells. A text that is no log ends the program, as want of memory does.
fn run_of(alloc: Global, text: &[u8]) -> Result<Run, AllocError> {
    if text.len() > 1000 {
        return Err(AllocError);
    }
    match read_log(alloc, text) {
        Ok(run) => Ok(run),
        Err(_) => Err(AllocError),
    }
}

fn tell_step(answers: &mut Answers, step: &StepRec) -> Result<(), AllocError> {
    answers.tell("read_log(two steps), a name", step.name.as_slice())?;
    answers.tell_value(
        "read_log(two steps), pattern and root",
        &(step.pattern, step.root),
    )?;
    answers.tell_value("read_log(two steps), made", &step.made.as_slice())?;
    answers.tell_value("read_log(two steps), removed", &step.removed.as_slice())
}

fn tell_read(answers: &mut Answers) -> Result<(), AllocError> {
    let run = run_of(answers.alloc, STEPS)?;
    answers.tell_value("read_log(two steps), steps", &run.taken.len())?;
    for step in run.taken.as_slice() {
        tell_step(answers, step)?;
    }
    answers.tell_value("read_log(two steps), ending", &run.ending)
}

fn tell_put(answers: &mut Answers) -> Result<(), AllocError> {
    let run = run_of(answers.alloc, STEPS)?;
    let mut sink = MemSink::new(answers.alloc, 1000)?;
    answers.tell_value("put_log(two steps)", &put_log(&run, &mut sink))?;
    answers.tell("MemSink::bytes()", sink.bytes())
}

fn tell_put_in_part(answers: &mut Answers) -> Result<(), AllocError> {
    let run = run_of(answers.alloc, STEPS)?;
    let mut sink = MemSink::new(answers.alloc, 12)?;
    answers.tell_value(
        "put_log(two steps) into MemSink of 12",
        &put_log(&run, &mut sink),
    )?;
    answers.tell("MemSink::bytes()", sink.bytes())
}

fn tell_ending(answers: &mut Answers, line: &str) -> Result<(), AllocError> {
    let text = format!(in answers.alloc; "pdllrw-log 1\n{line}\n")?;
    let run = run_of(answers.alloc, text.as_bytes())?;
    let call = format!(in answers.alloc; "read_log({line})")?;
    answers.tell_value(call.as_str(), &run.ending)?;
    let mut sink = MemSink::new(answers.alloc, 1000)?;
    answers.tell_value("put_log(it)", &put_log(&run, &mut sink))?;
    answers.tell_value(
        "MemSink::bytes() are the log",
        &(sink.bytes() == text.as_bytes()),
    )
}

fn tell_bounds(answers: &mut Answers) -> Result<(), AllocError> {
    tell_ending(answers, "end bound rewrites steps 0 pattern 2 root 10")?;
    tell_ending(answers, "end bound rows steps 0 pattern 2 root 10")?;
    tell_ending(answers, "end bound slots steps 0 pattern 2 root 10")
}

fn tell_breaks(answers: &mut Answers) -> Result<(), AllocError> {
    tell_ending(answers, "end broken steps 0 pattern 0 root 3 gone")?;
    tell_ending(answers, "end broken steps 0 pattern 0 root 3 count")?;
    tell_ending(answers, "end broken steps 0 pattern 0 root 3 types")?;
    tell_ending(answers, "end broken steps 0 pattern 0 root 3 top")?;
    tell_ending(
        answers,
        "end broken steps 0 pattern 0 root 3 native-refused",
    )?;
    tell_ending(
        answers,
        "end broken steps 0 pattern 0 root 3 bad-use row 12 place 0",
    )
}

fn tell_bad(answers: &mut Answers, call: &str, text: &[u8]) -> Result<(), AllocError> {
    if text.len() > 1000 {
        return Err(AllocError);
    }
    match read_log(answers.alloc, text) {
        Ok(run) => answers.tell_value(call, &run.ending),
        Err(refusal) => answers.tell_value(call, &refusal),
    }
}

fn tell_faults(answers: &mut Answers) -> Result<(), AllocError> {
    tell_bad(answers, "read_log(no header)", b"end converged steps 0\n")?;
    tell_bad(answers, "read_log(the header alone)", b"pdllrw-log 1\n")?;
    tell_bad(
        answers,
        "read_log(a step that made 5,4)",
        b"pdllrw-log 1\nstep 1 pattern 1 \"Drop\" root 4 made 5,4 removed 4\nend converged steps 1\n",
    )?;
    tell_bad(
        answers,
        "read_log(two ends)",
        b"pdllrw-log 1\nend converged steps 0\nend converged steps 0\n",
    )
}

pub fn tell(answers: &mut Answers) -> Result<(), AllocError> {
    tell_read(answers)?;
    tell_put(answers)?;
    tell_put_in_part(answers)?;
    tell_bounds(answers)?;
    tell_breaks(answers)?;
    tell_faults(answers)
}
