//! A list of different numbers, compared by place in constant time.
#![tactic(auto)]

mod gaps;
mod links;
mod order;

pub use order::Labels;
