//! Reads the text of a module.
#![tactic(auto)]

mod file;
mod operations;
mod placed;
pub mod syn;

pub use file::parse_module;
pub use mlir_attributes::{parse_attr, parse_ty};
