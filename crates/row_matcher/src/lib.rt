//! Where a pattern matches a module.
#![tactic(auto)]

pub mod matching;
pub mod natives;
pub mod thing;
