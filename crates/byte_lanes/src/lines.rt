//! Line feeds.

ghost use Rattle.std.specs.Prelude.{◌≡◌, ◌≤◌, length};
ghost use Rattle.std.specs.List.{count_by};
ghost use Rattle.byte_lanes.specs.Bytes.{is_line_feed};

use crate::block::{LANES, block_lines};

/// The number of line feeds.
pub fn count_newlines(bytes: &[u8]) -> usize
    ensures value { result ≡ count_by is_line_feed bytes.now }
    ensures within { result ≤ length bytes.now }
{
    let mut count = 0;
    let mut at = 0;
    while at < bytes.len() {
        count += block_lines(&bytes[at..]);
        at += LANES;
    }
    count
}
