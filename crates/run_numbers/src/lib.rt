//! Laws: how far the numbers of operations go in a run.
#![tactic(auto)]

pub mod laws;
