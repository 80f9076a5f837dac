//! The constraints and rewrites that patterns may call without giving their bodies, and the calls on attributes.
#![tactic(auto)]

pub mod arithmetic;
pub mod laws;
pub mod native;
pub mod table;
