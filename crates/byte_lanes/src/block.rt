//! Blocks of 32 bytes. The last block of a text has zeros behind the text.

ghost use Rattle.std.specs.Prelude.{◌≡◌, ◌+◌, ◌-◌, ◌≤◌, ◌++◌, length, replicate, drop, take};
ghost use Rattle.std.specs.List.{prefix_len, count_by};
ghost use Rattle.byte_lanes.specs.Bytes.{is_in, is_line_feed};

use crate::class::{Class, lanes_outside};
use std::simd::prelude::*;

/// The number of bytes of a block.
pub const LANES: usize = 32;

/// How many lanes come before the first that is not of the class.
fn leading(v: u8x32, class: Class) -> usize
    requires { length v ≡ 32 }
    ensures { result ≡ prefix_len (is_in class) v }
{
    let outside = lanes_outside(class, v);
    if outside == 0 {
        LANES
    } else {
        outside.trailing_zeros() as usize
    }
}

/// How many lanes hold a line feed.
fn line_feeds(v: u8x32) -> usize
    requires { length v ≡ 32 }
    ensures { result ≡ count_by is_line_feed v }
{
    v.simd_eq(u8x32::splat(b'\n')).to_bitmask().count_ones() as usize
}

/// The block of these bytes, with zeros behind them.
fn padded(bytes: &[u8]) -> u8x32
    requires { length bytes.now ≤ 32 }
    ensures { result ≡ bytes.now ++ replicate (32 - length bytes.now) 0 }
{
    let mut block = [0u8; LANES];
    block[..bytes.len()].copy_from_slice(bytes);
    u8x32::from_array(block)
}

/// How many bytes at the front of the first block are of the class.
pub fn block_run(bytes: &[u8], class: Class) -> usize
    ensures value { result ≡ prefix_len (is_in class) (take 32 bytes.now) }
    ensures within { result ≤ length bytes.now }
    ensures few { result ≤ 32 }
{
    if bytes.len() >= LANES {
        leading(u8x32::from_slice(bytes), class)
    } else {
        leading(padded(bytes), class).min(bytes.len())
    }
}

/// The number of line feeds in the first block.
pub fn block_lines(bytes: &[u8]) -> usize
    ensures { result ≡ count_by is_line_feed (take 32 bytes.now) }
{
    if bytes.len() >= LANES {
        line_feeds(u8x32::from_slice(bytes))
    } else {
        line_feeds(padded(bytes))
    }
}
