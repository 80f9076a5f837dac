//! Rewrites a module by patterns.
#![tactic(auto)]

use pdllrw_command::{Status, run};
use rw_outside::{FileHost, StreamSink};
use std::alloc::AllocError;
use std::env;
use std::io::ErrorKind;
use std::process::ExitCode;
use std::rt::Env;

// The words without the program's own name. Where one of them is no UTF-8, there are none, which no command takes.
fn given_words<R: Env + AllocGlobal>(rt: &R) -> Result<Vec<String>, AllocError> {
    let mut words = Vec::new(rt.alloc());
    match env::args(rt) {
        Ok(args) => {
            for word in args.skip(1) {
                words.push(word)?;
            }
        }
        Err(error) if error.kind() == ErrorKind::OutOfMemory => return Err(AllocError),
        Err(_) => {}
    }
    Ok(words)
}

fn main(rt: HostRuntime) -> ExitCode {
    let alloc = rt.alloc();
    let Ok(words) = given_words(&rt) else {
        return ExitCode::from(Status::NoMemory.code());
    };
    let mut out = StreamSink::new(rt.stdout());
    let mut log = StreamSink::new(rt.stderr());
    let mut host = FileHost::new(rt);
    let status = run(alloc, &words, &mut host, &mut out, &mut log);
    ExitCode::from(status.code())
}
