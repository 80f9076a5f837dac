//! The sizes of segments that an attribute spells, and the segments of a list by them.
#![tactic(auto)]

pub mod segments;
pub mod sizes;
