//! Calls of `pdll_parser`.

use call_answers::Answers;
use pdll_parser::parse_patterns;
use pdll_syntax::file::PatFile;
use std::alloc::{AllocError, Global};

/// The pattern file of this text. A text that spells none ends the program, as want of memory does.
pub fn patterns(alloc: Global, text: &[u8]) -> Result<PatFile, AllocError> {
    match parse_patterns(alloc, text) {
        Ok(file) => Ok(file),
        Err(_) => Err(AllocError),
    }
}

fn tell_one(answers: &mut Answers, first: &str, second: &str) -> Result<(), AllocError> {
    let alloc = answers.alloc;
    let are_one = patterns(alloc, first.as_bytes())?.equal(&patterns(alloc, second.as_bytes())?);
    let call = format!(in alloc; "PatFile::equal({first}, {second})")?;
    answers.tell_value(call.as_str(), &are_one)
}

pub fn tell(answers: &mut Answers) -> Result<(), AllocError> {
    tell_one(answers, "Pattern => e.65534;", "Pattern => e.65535;")?;
    tell_one(
        answers,
        "Pattern => e.65535;",
        "Pattern => e.700000000000000000000000;",
    )?;
    tell_one(answers, "Pattern => e.1;", "Pattern => e .1;")?;
    tell_one(answers, "Pattern => e.1;", "Pattern => e. 1;")
}
