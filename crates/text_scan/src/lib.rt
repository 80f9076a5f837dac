//! What the lexers of module text and of pattern text share: classes of bytes, runs, gaps and strings.
#![tactic(auto)]

pub mod bytes;
pub mod gaps;
pub mod strings;
