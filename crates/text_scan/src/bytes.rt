//! Tests on a byte, and runs of bytes that pass one.

ghost use Rattle.std.specs.Prelude.{◌≡◌, ◌+◌, ◌≤◌, length, drop, slice_index};
ghost use Rattle.std.specs.List.{prefix_len};
ghost use Rattle.byte_lanes.specs.Bytes as spec;
ghost use Rattle.text_scan.specs.Hexadecimal.{is_hex_digit};

pub use byte_lanes::{Class, run_len};

/// Whether the byte is an ASCII letter.
pub fn is_letter(b: u8) -> bool
    ensures { result ≡ spec.is_letter b }
{
    b.is_ascii_lowercase() || b.is_ascii_uppercase()
}

/// Whether the byte is a decimal digit.
pub fn is_digit(b: u8) -> bool
    ensures { result ≡ spec.is_digit b }
{
    b.is_ascii_digit()
}

/// Whether the byte is a hexadecimal digit, in either case.
pub fn is_hex_digit(b: u8) -> bool
    ensures { result ≡ is_hex_digit b }
{
    is_digit(b) || (b'a' <= b && b <= b'f') || (b'A' <= b && b <= b'F')
}

/// Whether a word may begin with the byte: a letter or `_`.
pub fn is_word_start(b: u8) -> bool
    ensures { result ≡ spec.is_word_start b }
{
    is_letter(b) || b == b'_'
}

/// Whether the byte is a letter, a digit or `_`.
pub fn is_name_byte(b: u8) -> bool
    ensures { result ≡ spec.is_name_byte b }
{
    is_word_start(b) || is_digit(b)
}

/// Whether the byte is a letter, a digit, `_`, `$` or `.`.
pub fn is_word_byte(b: u8) -> bool
    ensures { result ≡ spec.is_word_byte b }
{
    is_name_byte(b) || b == b'$' || b == b'.'
}

/// Whether the byte is a letter, a digit, `_`, `$`, `.` or `-`.
pub fn is_suffix_byte(b: u8) -> bool
    ensures { result ≡ spec.is_suffix_byte b }
{
    is_word_byte(b) || b == b'-'
}

/// Whether the byte is a space, a tab, a line feed or a carriage return.
pub fn is_space(b: u8) -> bool
    ensures { result ≡ spec.is_space b }
{
    b == b' ' || b == b'\t' || b == b'\n' || b == b'\r'
}

/// The byte at a place, and 0 where there is none.
pub fn byte_at(bytes: &[u8], at: usize) -> u8
    ensures { result ≡ slice_index bytes.now at }
{
    if at < bytes.len() { bytes[at] } else { 0 }
}

/// The greatest number of bytes at `from` that are all hexadecimal digits.
pub fn hex_digits(bytes: &[u8], from: usize) -> usize
    requires { from ≤ length bytes.now }
    ensures value { result ≡ prefix_len is_hex_digit (drop from bytes.now) }
    ensures within { from + result ≤ length bytes.now }
{
    let mut end = from;
    while end < bytes.len() && is_hex_digit(bytes[end]) {
        end += 1;
    }
    end - from
}
