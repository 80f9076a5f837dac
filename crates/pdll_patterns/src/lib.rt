//! The patterns of a file as data: the match, and the rewrite as actions, each call replaced by its body.
#![tactic(auto)]

pub mod action;
mod doing;
mod earlier;
mod in_sight;
mod names;
mod natives;
pub mod pattern;
mod script;
