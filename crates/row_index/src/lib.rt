//! Finds rows by their numbers, and tells whether each operand of a module is visible.
#![tactic(auto)]

pub mod index;
mod places;
mod visibility;

pub use visibility::{well_formed, well_formed_by};
