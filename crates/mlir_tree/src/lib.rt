//! The data of MLIR modules: types, attributes, values, and operations as rows in text order.
#![tactic(auto)]

pub mod attr;
pub mod attr_keys;
pub mod bad_use;
pub mod content;
pub mod laws;
pub mod number;
pub mod refusal;
pub mod row;
pub mod rows;
pub mod sign;
pub mod text;
pub mod ty;
pub mod ty_keys;
pub mod value;
