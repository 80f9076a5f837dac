//! The text of strings, types, attributes and modules.
#![tactic(auto)]

mod attr;
mod latch;
mod module;
mod numbering;
mod numbers;
mod row;
mod string;
mod text_sink;
mod ty;
mod value;

pub use attr::{attr_text, print_attr};
pub use module::print_rows;
pub use numbering::number;
pub use numbers::Numbers;
pub use string::{print_string, string_text};
pub use ty::{print_ty, ty_text};
