//! The match of a pattern, and the body of a constraint, as numbered variables and demands.
#![tactic(auto)]

mod calls;
pub mod constraints;
pub mod declared;
pub mod demand;
pub mod expr;
mod expressions;
pub mod literals;
pub mod marks;
pub mod own;
pub mod pattern;
pub mod scene;
mod sight;
mod statements;
mod written;
