//! Reads the text of a type and of an attribute, and the parts of module files that stand on them.
#![tactic(auto)]

pub mod aliases;
pub mod attributes;
mod complete;
mod dictionary;
pub mod fault;
mod kept_text;
mod locations;
pub mod nesting;
pub mod numbers;
mod parse;
pub mod reader;
pub mod types;

pub use dictionary::entries_are_kept;
pub use parse::{parse_attr, parse_ty};
