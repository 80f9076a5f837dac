//! Runs a case.

use crate::case::Case;
use pdllrw_command::run;
use rw_outside::{MemHost, MemSink};
use std::alloc::{AllocError, Global};

/// What the command answered.
#[derive(Drop)]
pub struct Answer {
    pub status: u8,
    pub out: MemSink,
    pub log: MemSink,
}

/// The answer of the command to the words and files of a case.
pub fn answer_of(alloc: Global, case: &mut Case) -> Result<Answer, AllocError> {
    let files = std::mem::replace(&mut case.files, Vec::new(alloc));
    let fail = std::mem::replace(&mut case.fail, Vec::new(alloc));
    let mut host = MemHost::new(files, case.most.max(1), fail);
    let mut out = MemSink::new(alloc, case.out_room)?;
    let mut log = MemSink::new(alloc, case.log_room)?;
    let status = run(alloc, &case.words, &mut host, &mut out, &mut log);
    Ok(Answer {
        status: status.code(),
        out,
        log,
    })
}

impl Answer {
    /// Whether this is what the case wants.
    pub fn is_wanted(&self, case: &Case) -> bool {
        case.status.is_none_or(|status| status == self.status)
            && case.out.admits(self.out.bytes())
            && case.log.admits(self.log.bytes())
    }
}
