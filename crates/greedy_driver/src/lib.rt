//! The run: rewrites, again and again, the first operation in text order at which a pattern matches.
#![tactic(auto)]

mod drive;
pub mod next;
pub mod turn;

pub use drive::drive_rows;
pub use rewrite_model::run::{Ending, Order};
pub use run_model::run::{Run, StepRec};
