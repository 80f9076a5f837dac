//! What the patterns of a file mean: where they match a module, what a step does, and the run.
#![tactic(auto)]

pub mod laws;
pub mod run;
