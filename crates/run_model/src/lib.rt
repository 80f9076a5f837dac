//! What is told of a run, and the text of its log.
#![tactic(auto)]

pub mod run;
