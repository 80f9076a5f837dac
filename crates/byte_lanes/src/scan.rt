//! Runs of bytes of one class. Most runs are short, so the first bytes are tested one by one.

ghost use Rattle.std.specs.Prelude.{◌≡◌, ◌+◌, ◌≤◌, length, drop};
ghost use Rattle.std.specs.List.{prefix_len};
ghost use Rattle.byte_lanes.specs.Bytes.{is_in};
ghost use Rattle.byte_lanes.specs.Runs.{IsRun};

use crate::block::{LANES, block_run};
use crate::class::{Class, is_in};

/// How many bytes of a run are tested one by one.
const FIRST: usize = 16;

fn short_run(bytes: &[u8], class: Class) -> usize
    ensures value { result ≡ prefix_len (is_in class) bytes.now }
    ensures within { result ≤ length bytes.now }
{
    let mut n = 0;
    while n < bytes.len() && is_in(class, bytes[n]) {
        n += 1;
    }
    n
}

fn long_run(bytes: &[u8], from: usize, class: Class) -> usize
    requires { from ≤ length bytes.now }
    ensures value { result ≡ prefix_len (is_in class) (drop from bytes.now) }
    ensures within { from + result ≤ length bytes.now }
{
    let mut at = from;
    while at < bytes.len() {
        let n = block_run(&bytes[at..], class);
        at += n;
        if n < LANES {
            return at - from;
        }
    }
    at - from
}

fn front_run(bytes: &[u8], class: Class) -> usize
    ensures value { result ≡ prefix_len (is_in class) bytes.now }
    ensures within { result ≤ length bytes.now }
{
    let short = short_run(&bytes[..FIRST.min(bytes.len())], class);
    if short < FIRST {
        short
    } else {
        FIRST + long_run(bytes, FIRST, class)
    }
}

/// The greatest number of bytes at `from` that are all of the class.
pub fn run_len(bytes: &[u8], from: usize, class: Class) -> usize
    requires { from ≤ length bytes.now }
    ensures run { IsRun (is_in class) bytes.now from result }

    // The same, computed.
    ensures value { result ≡ prefix_len (is_in class) (drop from bytes.now) }
    ensures within { from + result ≤ length bytes.now }
{
    front_run(&bytes[from..], class)
}
