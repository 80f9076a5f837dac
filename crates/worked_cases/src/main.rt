//! Runs the command on the cases of its data, and tells which of them have another answer.
#![tactic(auto)]

mod answer;
mod case;
mod lines;
mod report;

use crate::report::Report;
use rw_outside::{StreamSink, put_all};
use std::process::ExitCode;
use std::{fs, io};

/// The files of cases.
const FILES: [&str; 6] = ["rows", "words", "modules", "faults", "patterns", "runs"];

fn main(rt: HostRuntime) -> io::Result<ExitCode> {
    let mut report = Report::new(rt.alloc());
    for name in FILES {
        let text = fs::read_to_string(&rt, name)?;
        report.run_all(text.as_str())?;
    }
    report.end()?;
    let mut out = StreamSink::new(rt.stdout());
    let put = put_all(&mut out, &report.text);
    Ok(if put.is_ok() && report.differ == 0 {
        ExitCode::SUCCESS
    } else {
        ExitCode::FAILURE
    })
}
