//! Runs of bytes of one class, and line feeds, by lanes of 32 bytes.
#![tactic(auto)]

mod block;
mod class;
mod lines;
mod scan;

pub use class::Class;
pub use lines::count_newlines;
pub use scan::run_len;
