//! The command: from its words to the bytes that it writes.
#![tactic(auto)]

mod laws;
mod pieces;
mod position;
mod reading;
mod status;
mod whole;

pub use laws::{completes, one_run};
pub use rewrite_model::run::{BoundKind, Break, Broken, Ending, Hit};
pub use round_trip::reads_back;
pub use run_model::run::{Run, StepRec};
pub use status::Status;
pub use whole::run;
