//! The lines that a program of calls tells: a call and its answer.
#![tactic(auto)]

use std::alloc::{AllocError, Global};
use std::fmt::Debug;

/// What is told so far.
#[derive(Drop)]
pub struct Answers {
    pub alloc: Global,
    pub text: Vec<u8>,
}

impl Answers {
    pub fn new(alloc: Global) -> Answers {
        Answers {
            alloc,
            text: Vec::new(alloc),
        }
    }

    /// Tells the bytes that a call answers.
    pub fn tell(&mut self, call: &str, answer: &[u8]) -> Result<(), AllocError> {
        self.text.extend_from_slice(call.as_bytes())?;
        self.text.extend_from_slice(b": ")?;
        self.text.extend_from_slice(answer)?;
        self.text.extend_from_slice(b"\n")
    }

    /// Tells the value that a call answers.
    pub fn tell_value<T: Debug>(&mut self, call: &str, answer: &T) -> Result<(), AllocError> {
        let text = format!(in self.alloc; "{answer:?}")?;
        self.tell(call, text.as_bytes())
    }
}
