//! A step: what the actions of a rewrite do to the rows of a module.
#![tactic(auto)]

pub mod acting;
pub mod creating;
mod dictionary;
pub mod edits;
pub mod erasing;
pub mod making;
mod moves;
pub mod natives;
pub mod places;
pub mod progress;
pub mod refresh;
pub mod replacing;
pub mod step;
pub mod stop;
