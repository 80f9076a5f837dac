//! Gaps: the spaces and comments between tokens.

ghost use Rattle.std.specs.Prelude.{◌≡◌, ◌+◌, ◌≤◌, length, drop};
ghost use Rattle.text_scan.specs.Longest.{IsLongest};
ghost use Rattle.text_scan.specs.Gaps.{IsGap, gap_len, starts_comment};

use crate::bytes::{Class, run_len};

/// Whether a comment begins at `at`.
fn is_comment_start(bytes: &[u8], at: usize) -> bool
    ensures { result ≡ starts_comment (drop at bytes.now) }
{
    at < bytes.len() && bytes[at] == b'/' && at + 1 < bytes.len() && bytes[at + 1] == b'/'
}

/// Where the longest gap at `at` ends. A gap is a list of spaces (20, 09, 0A, 0D) and comments, and a comment
/// goes from `//` to before the next line feed or to the end (MLIR Language Reference, "Common syntax").
pub fn gap_end(bytes: &[u8], at: usize) -> usize
    requires { at ≤ length bytes.now }
    ensures gap { IsLongest IsGap bytes.now at result }
    ensures value { result ≡ at + gap_len (drop at bytes.now) }
    ensures in_order { at ≤ result }
    ensures within { result ≤ length bytes.now }
{
    let mut end = at + run_len(bytes, at, Class::Space);
    while is_comment_start(bytes, end) {
        end += run_len(bytes, end, Class::Line);
        end += run_len(bytes, end, Class::Space);
    }
    end
}
