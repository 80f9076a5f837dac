//! The words of the command line.
#![tactic(auto)]

mod number;
mod rewriting;
mod simple;

pub use rewriting::{Failure, Rewriting, command};
