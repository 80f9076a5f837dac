//! Keys of types, attributes and names: equal values have one key.
#![tactic(auto)]

pub mod pool;
