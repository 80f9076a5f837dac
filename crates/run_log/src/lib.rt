//! The log of a run: the text that tells its steps and how it ended.
#![tactic(auto)]

mod cursor;
mod ending;
pub mod fault;
mod latch;
pub mod laws;
mod log;
mod reading;
mod reading_ending;
mod step;
mod whole;

pub use log::put_log;
pub use whole::read_log;
