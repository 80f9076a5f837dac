//! Classes of bytes: of one byte, and of each lane of a block.

ghost use Rattle.std.specs.Prelude.{◌≡◌, not, map};
ghost use Rattle.std.specs.Simd.Lanes.{mask_l};
ghost use Rattle.byte_lanes.specs.Bytes as spec;

use std::simd::prelude::*;

/// A class of bytes whose runs are looked for.
#[derive(Clone, Copy, Debug, PartialEq, Eq)]
pub enum Class {
    /// A letter, a digit, `_`, `$` or `.`.
    Word,
    /// A byte of a word, or `-`.
    Suffix,
    /// A letter, a digit or `_`.
    Name,
    /// A decimal digit.
    Digit,
    /// A space, a tab, a line feed or a carriage return.
    Space,
    /// Any byte but a line feed.
    Line,
}

fn is_name_byte(b: u8) -> bool
    ensures { result ≡ spec.is_name_byte b }
{
    b.is_ascii_lowercase() || b.is_ascii_uppercase() || b == b'_' || b.is_ascii_digit()
}

fn is_word_byte(b: u8) -> bool
    ensures { result ≡ spec.is_word_byte b }
{
    is_name_byte(b) || b == b'$' || b == b'.'
}

/// Whether the byte is of the class.
pub fn is_in(class: Class, b: u8) -> bool
    ensures { result ≡ spec.is_in class b }
{
    match class {
        Class::Word => is_word_byte(b),
        Class::Suffix => is_word_byte(b) || b == b'-',
        Class::Name => is_name_byte(b),
        Class::Digit => b.is_ascii_digit(),
        Class::Space => b == b' ' || b == b'\t' || b == b'\n' || b == b'\r',
        Class::Line => b != b'\n',
    }
}

fn not_name(v: u8x32) -> u64
    ensures { result ≡ mask_l (map (λ x. not (spec.is_name_byte x)) v) }
{
    let lower = v | u8x32::splat(0x20);
    let letters = lower.simd_lt(u8x32::splat(b'a')) | lower.simd_gt(u8x32::splat(b'z'));
    let digits = v.simd_lt(u8x32::splat(b'0')) | v.simd_gt(u8x32::splat(b'9'));
    (letters & digits & v.simd_ne(u8x32::splat(b'_'))).to_bitmask()
}

fn not_word(v: u8x32) -> u64
    ensures { result ≡ mask_l (map (λ x. not (spec.is_word_byte x)) v) }
{
    let lower = v | u8x32::splat(0x20);
    let letters = lower.simd_lt(u8x32::splat(b'a')) | lower.simd_gt(u8x32::splat(b'z'));
    let digits = v.simd_lt(u8x32::splat(b'0')) | v.simd_gt(u8x32::splat(b'9'));
    let marks = v.simd_ne(u8x32::splat(b'_'))
        & v.simd_ne(u8x32::splat(b'$'))
        & v.simd_ne(u8x32::splat(b'.'));
    (letters & digits & marks).to_bitmask()
}

fn not_suffix(v: u8x32) -> u64
    ensures { result ≡ mask_l (map (λ x. not (spec.is_suffix_byte x)) v) }
{
    let lower = v | u8x32::splat(0x20);
    let letters = lower.simd_lt(u8x32::splat(b'a')) | lower.simd_gt(u8x32::splat(b'z'));
    let digits = v.simd_lt(u8x32::splat(b'0')) | v.simd_gt(u8x32::splat(b'9'));
    let marks = v.simd_ne(u8x32::splat(b'_'))
        & v.simd_ne(u8x32::splat(b'$'))
        & v.simd_ne(u8x32::splat(b'.'))
        & v.simd_ne(u8x32::splat(b'-'));
    (letters & digits & marks).to_bitmask()
}

fn not_digit(v: u8x32) -> u64
    ensures { result ≡ mask_l (map (λ x. not (spec.is_digit x)) v) }
{
    (v.simd_lt(u8x32::splat(b'0')) | v.simd_gt(u8x32::splat(b'9'))).to_bitmask()
}

fn not_space(v: u8x32) -> u64
    ensures { result ≡ mask_l (map (λ x. not (spec.is_space x)) v) }
{
    (v.simd_ne(u8x32::splat(b' '))
        & v.simd_ne(u8x32::splat(b'\t'))
        & v.simd_ne(u8x32::splat(b'\n'))
        & v.simd_ne(u8x32::splat(b'\r'))).to_bitmask()
}

fn not_line(v: u8x32) -> u64
    ensures { result ≡ mask_l (map (λ x. not (not (spec.is_line_feed x))) v) }
{
    v.simd_eq(u8x32::splat(b'\n')).to_bitmask()
}

/// The lanes whose bytes are not of the class, the first as the lowest bit.
pub fn lanes_outside(class: Class, v: u8x32) -> u64
    ensures { result ≡ mask_l (map (λ x. not (spec.is_in class x)) v) }
{
    match class {
        Class::Word => not_word(v),
        Class::Suffix => not_suffix(v),
        Class::Name => not_name(v),
        Class::Digit => not_digit(v),
        Class::Space => not_space(v),
        Class::Line => not_line(v),
    }
}
