//! Sizes in a text.

ghost use Rattle.std.specs.Prelude.{◌≡◌, ◌≤◌, ◌*◌, ◌+◌, ◌∷◌, drop, length, option_copied, option_and_then, not, ◌==◌, IsTrue};
ghost use Rattle.std.specs.List.{AllByRecursion, position_or_len};
ghost use Rattle.std.specs.Str.Parse.{digits_value};
ghost use Rattle.byte_lanes.specs.Bytes.{is_digit};
ghost use Rattle.segment_sizes.specs.Sizes as spec;
ghost use Rattle.segment_sizes.specs.Reading.{up_to, parts_left};

use byte_lanes::{Class, run_len};
use mlir_tree::attr::{Attr, AttrNode};

// ---- the text

/// What stands behind so many bytes.
fn after(text: &[u8], count: usize) -> &[u8]
    requires { count ≤ length text.now }
    ensures { result.now ≡ drop count text.now }
{
    let (_, rest) = text.split_at(count);
    rest
}

/// What stands behind the spaces at the front.
fn unspaced(text: &[u8]) -> &[u8]
    ensures { result.now ≡ spec.unspaced text.now }
{
    after(text, run_len(text, 0, Class::Space))
}

/// What stands behind this word and the spaces after it, where the text begins with it.
fn behind<'a>(word: &[u8], text: &'a [u8]) -> Option<&'a [u8]>
    ensures { option_copied result ≡ spec.behind word.now text.now }
{
    if !text.starts_with(word) {
        return None;
    }
    Some(unspaced(after(text, word.len())))
}

/// What stands before a `>` at the end.
fn closed(text: &[u8]) -> Option<&[u8]>
    ensures { option_copied result ≡ spec.closed text.now }
{
    let (front, last) = text.split_at(text.len().saturating_sub(1));
    if last == b">".as_slice() {
        return Some(front);
    }
    None
}

/// What stands between `array<i32:` and `>`.
fn inside(text: &[u8]) -> Option<&[u8]>
    ensures { option_copied result ≡ spec.inside text.now }
{
    let sizes = behind(b"i32", behind(b"<", behind(b"array", text)?)?)?;
    closed(behind(b":", sizes)?)
}

/// What stands between `array<i32:` and `>` in a kept text without a type.
pub fn spelling(a: &Attr) -> Option<&[u8]>
    ensures { option_copied result ≡ spec.spelling a.now }
{
    match &a.node {
        AttrNode::Kept(text, None) => inside(text.as_slice()),
        _ => None,
    }
}

// ---- the parts between commas

/// The number of bytes before the first comma, or of all.
fn part_len(text: &[u8]) -> usize
    ensures value { result ≡ position_or_len (λ b. b == 44) text.now }
    ensures within { result ≤ length text.now }
{
    let mut at = 0;
    while at < text.len() && text[at] != b',' {
        at += 1;
    }
    at
}

/// The first part, and what stands behind the comma after it.
pub fn first_part(text: &[u8]) -> (&[u8], Option<&[u8]>)
    ensures { spec.parts text.now ≡ result.0.now ∷ parts_left (option_copied result.1) }
{
    let (part, rest) = text.split_at(part_len(text));
    match rest.split_first() {
        Some((_, more)) => (part, Some(more)),
        None => (part, None),
    }
}

// ---- numbers

/// A number with one more digit, where it isn't above `most`.
fn with_digit(most: usize, value: usize, digit: usize) -> Option<usize>
    requires { value ≤ most }
    ensures { result ≡ up_to most (value * 10 + digit) }
{
    if value > most / 10 || digit > most - value * 10 {
        return None;
    }
    Some(value * 10 + digit)
}

/// The number that digits write, where it isn't above `most`.
fn value_up_to(most: usize, digits: &[u8]) -> Option<usize>
    requires { AllByRecursion (λ b. IsTrue (is_digit b)) digits.now }
    ensures { result ≡ up_to most (digits_value 10 digits.now) }
{
    let mut value = 0;
    for b in digits {
        value = with_digit(most, value, usize::from(*b - b'0'))?;
    }
    Some(value)
}

/// The number that a part is, where it isn't above `most`: digits with any spaces around them.
pub fn size_up_to(most: usize, part: &[u8]) -> Option<usize>
    ensures { result ≡ option_and_then (up_to most) (spec.size_of part.now) }
{
    let text = unspaced(part);
    let (digits, rest) = text.split_at(run_len(text, 0, Class::Digit));
    if digits.is_empty() || run_len(rest, 0, Class::Space) < rest.len() {
        return None;
    }
    value_up_to(most, digits)
}
