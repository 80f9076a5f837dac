//! The tokens of pattern text.
#![tactic(auto)]

pub mod laws;
mod scan;
pub mod token;

pub use scan::next_token;
pub use token::{LexFault, Token, TokenKind};
