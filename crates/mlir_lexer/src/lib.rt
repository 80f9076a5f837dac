#![tactic(auto)]

pub mod body;
mod scan;
pub mod token;

pub use body::{BodyFault, body_end};
pub use scan::{next_token, suffix_len};
pub use token::{LexFault, Token, TokenKind};
