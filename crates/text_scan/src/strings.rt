//! Strings between quotes, and the bytes that they stand for.

ghost use Rattle.std.specs.Prelude.{◌≡◌, ℕ, List, ◌≤◌, ◌<◌, ◌+◌, length, drop, Some, IfSome, IfOk, IsTrue};
ghost use Rattle.text_scan.specs.Hexadecimal.{is_hex_digit};
ghost use Rattle.text_scan.specs.Strings as spec;

use crate::bytes::{byte_at, is_hex_digit};
use memchr::memchr3;
use std::alloc::{AllocError, Global};

/// What an escape stands for, and how many bytes it has behind its backslash.
#[derive(Clone, Copy, Debug, PartialEq, Eq)]
pub struct Escape {
    /// The byte that the escape stands for.
    pub byte: u8,
    /// The number of bytes behind the backslash.
    pub len: usize,
}

fn escaped_byte(c: u8) -> Option<u8>
    ensures { result ≡ spec.escaped_byte c }
{
    match c {
        b'"' => Some(b'"'),
        b'\\' => Some(b'\\'),
        b'n' => Some(b'\n'),
        b't' => Some(b'\t'),
        _ => None,
    }
}

fn digit_value(c: u8) -> u8
    requires { IsTrue (is_hex_digit c) }
    ensures value { result ≡ spec.digit_value c }
    ensures small { result < 16 }
{
    match c {
        b'0'..=b'9' => c - b'0',
        b'a'..=b'f' => c - b'a' + 10,
        _ => c - b'A' + 10,
    }
}

/// The byte that two hexadecimal digits name.
fn coded_byte(high: u8, low: u8) -> Option<u8>
    ensures { result ≡ spec.coded_byte high low }
{
    if is_hex_digit(high) && is_hex_digit(low) {
        Some(16 * digit_value(high) + digit_value(low))
    } else {
        None
    }
}

/// The escape at the front of what stands behind a backslash.
fn escape_at(text: &[u8]) -> Option<Escape>
    ensures value { result ≡ spec.escape_at text.now }
    ensures within { IfSome result (λ e. e.len ≤ length text.now) }
{
    let first = byte_at(text, 0);
    match escaped_byte(first) {
        Some(byte) => Some(Escape { byte, len: 1 }),
        None => {
            let byte = coded_byte(first, byte_at(text, 1))?;
            Some(Escape { byte, len: 2 })
        }
    }
}

/// The first byte from `from` on that is no plain byte of a string.
fn special_byte(bytes: &[u8], from: usize) -> Option<usize>
    requires { from ≤ length bytes.now }
    ensures { spec.IsNextSpecial bytes.now from result }
{
    match memchr3(b'"', b'\n', b'\\', &bytes[from..]) {
        Some(plain) => Some(from + plain),
        None => None,
    }
}

/// Where the string ends that has its inside at `from`.
fn inside_end(bytes: &[u8], from: usize) -> Option<usize>
    requires { from ≤ length bytes.now }
    ensures { result ≡ spec.inside_end 0 from (drop from bytes.now) }
{
    let mut i = from;
    while let Some(stop) = special_byte(bytes, i) {
        let b = bytes[stop];
        if b == b'"' {
            return Some(stop + 1);
        }
        if b == b'\n' {
            return None;
        }
        i = stop + 1 + escape_at(&bytes[stop + 1..])?.len;
    }
    None
}

/// Where the string ends whose opening quote is at `at`.
fn quoted_end(bytes: &[u8], at: usize) -> Option<usize>
    ensures { result ≡ spec.string_end at (drop at bytes.now) }
{
    if at < bytes.len() && bytes[at] == b'"' {
        inside_end(bytes, at + 1)
    } else {
        None
    }
}

/// Where the string ends that begins at `at`: behind its closing quote. None exactly where no string begins there,
/// that is where no `"` stands there, or a byte 0A, another escape or the end comes before the closing quote
/// (MLIR Language Reference, "Common syntax": `string-literal`).
pub fn string_end(bytes: &[u8], at: usize) -> Option<usize>
    requires { at ≤ length bytes.now }
    ensures found { IfSome result (λ end. spec.IsStringAt bytes.now at end) }
    ensures only { (end : ℕ) → spec.IsStringAt bytes.now at end → result ≡ Some end }
    ensures some { IfSome result (λ end. at < end) }
    ensures value { result ≡ spec.string_end at (drop at bytes.now) }
{
    quoted_end(bytes, at)
}

/// What one part of a string stands for, and its length.
fn part_at(text: &[u8], at: usize) -> Option<Escape>
    requires { at < length text.now }
    ensures value { result ≡ spec.part_at (drop at text.now) }
    ensures within { IfSome result (λ part. at + part.len ≤ length text.now) }
{
    if text[at] == b'"' {
        return None;
    }
    if text[at] == b'\\' {
        let escape = escape_at(&text[at + 1..])?;
        return Some(Escape {
            byte: escape.byte,
            len: escape.len + 1,
        });
    }
    Some(Escape {
        byte: text[at],
        len: 1,
    })
}

fn string_bytes(alloc: Global, text: &[u8]) -> Result<Vec<u8>, AllocError>
    ensures { IfOk result (λ v. v.items ≡ spec.string_value text.now) }
{
    let mut value = Vec::new(alloc);
    let mut i = 1;
    while i < text.len() {
        let Some(part) = part_at(text, i) else {
            return Ok(value);
        };
        value.push(part.byte)?;
        i += part.len;
    }
    Ok(value)
}

/// The bytes that a string stands for. The text is the string, with both quotes.
/// A text that is no string is read up to its first fault.
pub fn read_string(alloc: Global, text: &[u8]) -> Result<Vec<u8>, AllocError>
    ensures meant { (bytes : List ℕ) → spec.IsStringOf bytes text.now → IfOk result (λ v. v.items ≡ bytes) }
    ensures value { IfOk result (λ v. v.items ≡ spec.string_value text.now) }
{
    string_bytes(alloc, text)
}
