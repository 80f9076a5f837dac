// Reading a text piece by piece.
ghost use Rattle.std.specs.Prelude.{◌≡◌, ◌<◌, ◌≤◌, ◌^◌, ◌%◌, ◌==◌, ◌++◌, ℕ, List, length, slice_index, decimal};
ghost use Rattle.std.specs.Str.Parse.{digits_value};
ghost use Rattle.std.specs.Char.{digit_value as digit_number};
ghost use Rattle.mlir_print.specs.Text.{byte_text, hex_digit};
ghost use Rattle.run_log.specs.Cursor as spec;
ghost use Rattle.run_log.specs.Cursor.{Takes, good, EndsNumber};

use itoa::Buffer;
use mlir_tree::text::equal_texts;
use std::marker::Model;
use text_scan::bytes::{Class, run_len};

/// What is left of a text, and whether all pieces so far stood there.
#[derive(Drop)]
pub struct Cursor<'a> {
    pub rest: &'a [u8],
    pub ok: bool,
}

impl<'a> Model for Cursor<'a> {
    ghost use Rattle.run_log.specs.Cursor.{At, at_rest};

    ghost Value = { At };

    ghost view = { λ c. at_rest c.rest.now c.ok };
}

/// The value of a digit, or more than 9.
fn digit_value(b: u8) -> u8
    ensures value { result ≡ digit_number b }
{
    match b {
        b'0'..=b'9' => b - b'0',
        b'A'..=b'Z' => b - b'A' + 10,
        b'a'..=b'z' => b - b'a' + 10,
        _ => 36,
    }
}

/// The number that the digits write, where it is below 2^32.
fn value_of(digits: &[u8]) -> u32
    ensures { digits_value 10 digits.now < 2 ^ 32 → result ≡ digits_value 10 digits.now }
{
    let mut value: u32 = 0;
    for b in digits {
        value = value
            .wrapping_mul(10)
            .wrapping_add(u32::from(digit_value(*b)));
    }
    value
}

/// The value of a digit at base 16.
fn hex_value(c: u8) -> u8
    ensures value { result ≡ spec.digit_value c }
    ensures small { result < 16 }
{
    if c < 65 {
        c.saturating_sub(48) % 16
    } else {
        (c - 55) % 16
    }
}

fn hex_digit(n: u8) -> u8
    requires { n < 16 }
    ensures { result ≡ hex_digit n }
{
    if n < 10 { 48 + n } else { 55 + n }
}

impl<'a> Cursor<'a> {
    /// A byte of what is left, or 0.
    pub fn byte_at(&self, at: usize) -> u8
        ensures { result ≡ slice_index self.now.rest at }
    {
        if at < self.rest.len() {
            self.rest[at]
        } else {
            0
        }
    }

    /// Takes this text.
    pub fn literal(&mut self, text: &[u8])
        ensures sound { Takes self.old self.new text.now }
        ensures complete { (r : List ℕ) → self.old ≡ good (text.now ++ r) → self.new ≡ good r }
    {
        let len = text.len();
        if len <= self.rest.len() && equal_texts(&self.rest[..len], text) {
            self.rest = &self.rest[len..];
        } else {
            self.ok = false;
        }
    }

    /// Takes this number.
    pub fn count(&mut self, number: usize)
        ensures sound { Takes self.old self.new (decimal number) }
        ensures complete { (r : List ℕ) → self.old ≡ good (decimal number ++ r) → self.new ≡ good r }
    {
        let mut buffer = Buffer::new();
        self.literal(buffer.format(number as u64).as_bytes());
    }

    /// Takes a number below 2^32.
    pub fn number(&mut self) -> u32
        ensures sound { Takes self.old self.new (decimal result) }
        ensures complete { (n : ℕ) (r : List ℕ) → n < 2 ^ 32 → EndsNumber r → self.old ≡ good (decimal n ++ r) → (result ≡ n) × (self.new ≡ good r) }
    {
        let len = run_len(self.rest, 0, Class::Digit);
        let number = value_of(&self.rest[..len]);
        self.count(number as usize);
        number
    }

    /// The byte of a string whose text may stand here.
    fn candidate(&self) -> u8
        ensures { result ≡ spec.byte_of self.now.rest }
    {
        if self.byte_at(0) != 92 {
            self.byte_at(0)
        } else if self.byte_at(1) == 92 {
            92
        } else {
            16 * hex_value(self.byte_at(1)) + hex_value(self.byte_at(2))
        }
    }

    /// Takes this byte of a string.
    fn spelled(&mut self, b: u8)
        ensures sound { Takes self.old self.new (byte_text b) }
        ensures complete { (r : List ℕ) → self.old ≡ good (byte_text b ++ r) → self.new ≡ good r }
    {
        if b == 92 {
            self.literal(b"\\\\");
        } else if 32 <= b && b <= 126 && b != 34 {
            self.literal(&[b]);
        } else {
            self.literal(&[92, hex_digit(b / 16), hex_digit(b % 16)]);
        }
    }

    /// Takes a byte of a string.
    pub fn byte(&mut self) -> u8
        ensures sound { Takes self.old self.new (byte_text result) }
        ensures complete { (b : ℕ) (r : List ℕ) → b < 256 → self.old ≡ good (byte_text b ++ r) → (result ≡ b) × (self.new ≡ good r) }
    {
        let b = self.candidate();
        self.spelled(b);
        b
    }
}
