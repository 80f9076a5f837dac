//! From the tree of a module to its rows.
#![tactic(auto)]

mod entries;
mod head;
mod module;
mod named;
mod operands;
mod puts;
mod scope;
mod sight;
mod walk;

pub use module::resolve;
pub use row_index::well_formed;
