//! Why a text isn't the log of a run.

/// Why a text isn't the log of a run.
#[derive(Clone, Copy, Debug, PartialEq, Eq)]
pub enum LogFault {
    /// No log goes on with this line, counted from 1. A text that ends too early has the line behind its last line feed.
    BadLine(u32),
}
