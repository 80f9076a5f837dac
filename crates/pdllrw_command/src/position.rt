// Lines and columns.
ghost use Rattle.std.specs.Prelude.{◌≡◌};
ghost use Rattle.pdllrw_command.specs.Positions.{position_behind, position_of};

use byte_lanes::count_newlines;
use memchr::memrchr;

/// A line and a column of a text, both counted from 1 on.
#[derive(Clone, Copy, Debug, PartialEq, Eq)]
pub struct Position {
    pub line: usize,
    /// One more than the bytes since the last line feed.
    pub column: usize,
}

/// The first place of a text.
pub const FIRST: Position = Position { line: 1, column: 1 };

// The line and the column behind a text.
fn position_behind(text: &[u8]) -> Position
    ensures { result ≡ position_behind text.now }
{
    let line_start = match memrchr(b'\n', text) {
        Some(line_feed) => line_feed + 1,
        None => 0,
    };
    Position {
        line: count_newlines(text) + 1,
        column: text.len() - line_start + 1,
    }
}

/// The line and the column of a place. A place behind the end is that of the end.
pub fn position_of(bytes: &[u8], at: usize) -> Position
    ensures { result ≡ position_of bytes.now at }
{
    position_behind(&bytes[..at.min(bytes.len())])
}
