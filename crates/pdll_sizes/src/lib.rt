//! How large the declarations of a pattern file are after expanding, counted without expanding.
#![tactic(auto)]

mod declarations;
mod expressions;
mod size;
mod sizes;
mod statements;

pub use sizes::Sizes;
