//! Laws of the grammars of types, attributes and modules.
#![tactic(auto)]

pub mod laws;
