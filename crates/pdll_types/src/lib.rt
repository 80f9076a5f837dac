//! Names, kinds and parts of a pattern file: whether it is accepted, and the kinds of its expressions.
#![tactic(auto)]

mod asked;
mod declarations;
mod expressions;
mod files;
mod headings;
pub mod kind;
pub mod laws;
mod literals;
mod marks;
mod natives;
mod opened;
mod refs;
mod section;
mod sight;
mod signature;
mod statements;
mod table;
pub mod typed;
mod uses;
mod walk;

pub use files::check;
