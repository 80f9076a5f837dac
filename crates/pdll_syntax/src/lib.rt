//! The tree of a pattern file, as a parser builds it and a checker walks it, and the faults of such a file.
#![tactic(auto)]

pub mod expr;
pub mod fault;
pub mod file;
pub mod name;
pub mod stmt;
