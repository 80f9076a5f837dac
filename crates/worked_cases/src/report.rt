//! What is told of the cases.

use crate::answer::{Answer, answer_of};
use crate::case::Case;
use crate::lines::{Bad, read_case};
use std::alloc::{AllocError, Global};

/// The lines that are told so far, and the counts.
#[derive(Drop)]
pub struct Report {
    alloc: Global,
    pub text: Vec<u8>,
    cases: usize,
    pub differ: usize,
}

impl Report {
    pub fn new(alloc: Global) -> Report {
        Report {
            alloc,
            text: Vec::new(alloc),
            cases: 0,
            differ: 0,
        }
    }

    // Tells a line, and a text below it.
    fn tell(&mut self, title: &str, text: &[u8]) -> Result<(), AllocError> {
        self.text.extend_from_slice(title.as_bytes())?;
        self.text.push(b'\n')?;
        self.text.extend_from_slice(text)?;
        self.text.extend_from_slice(b"\n")
    }

    // Tells a case that differs, with both answers.
    fn tell_case(&mut self, name: &str, case: &Case, answer: &Answer) -> Result<(), AllocError> {
        self.differ = self.differ.saturating_add(1);
        let statuses = format!(in self.alloc; "wanted {:?}, got {}", case.status, answer.status)?;
        self.tell(name, statuses.as_bytes())?;
        self.tell("-- wanted output", case.out.text.as_slice())?;
        self.tell("-- output", answer.out.bytes())?;
        self.tell("-- wanted log", case.log.text.as_slice())?;
        self.tell("-- log", answer.log.bytes())
    }

    // Tells a case that can't be read.
    fn tell_bad(&mut self, name: &str, bad: Bad<'_>) -> Result<(), AllocError> {
        self.differ = self.differ.saturating_add(1);
        match bad {
            Bad::Line(line) => {
                self.tell(name, b"has a line that is none:")?;
                self.tell(line, b"")
            }
            Bad::Memory => Err(AllocError),
        }
    }

    fn run_case(&mut self, name: &str, lines: &str) -> Result<(), AllocError> {
        self.cases = self.cases.saturating_add(1);
        let mut case = match read_case(self.alloc, lines) {
            Ok(case) => case,
            Err(bad) => return self.tell_bad(name, bad),
        };
        let answer = answer_of(self.alloc, &mut case)?;
        if answer.is_wanted(&case) {
            Ok(())
        } else {
            self.tell_case(name, &case, &answer)
        }
    }

    /// Runs the cases of a file. Each begins with a line `== ` and its name.
    pub fn run_all(&mut self, text: &str) -> Result<(), AllocError> {
        for part in text.split("\n== ").skip(1) {
            let (name, lines) = part.split_once('\n').unwrap_or((part, ""));
            self.run_case(name, lines)?;
        }
        Ok(())
    }

    /// Tells the counts.
    pub fn end(&mut self) -> Result<(), AllocError> {
        let counts = format!(in self.alloc; "{} cases, {} differ\n", self.cases, self.differ)?;
        self.text.extend_from_slice(counts.as_bytes())
    }
}
