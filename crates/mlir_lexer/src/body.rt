//! Where a kept body ends.

ghost use Rattle.std.specs.Prelude.{◌≡◌, ◌<◌, ◌≤◌, ◌+◌, length, slice_index, IfOk};
ghost use Rattle.mlir_lexer.specs.Body.{end_of_body, opens, closer, must_close, effect_of};

use text_scan::bytes::byte_at;
use text_scan::strings::string_end;

/// Why a body does not end.
#[derive(Clone, Copy, Debug, PartialEq, Eq)]
pub enum BodyFault {
    /// The closing bracket at this place does not close the innermost open one, or the text ends at this place.
    Unclosed(usize),
    /// The bracket at this place makes more than 256 open at once.
    TooDeep(usize),
    /// The string whose opening quote is at this place breaks off.
    BadString(usize),
}

/// What a byte outside strings does to the open brackets.
#[derive(Clone, Copy, Debug, PartialEq, Eq)]
pub enum Effect {
    /// It opens a bracket.
    Opens,
    /// It closes the innermost bracket.
    Closes,
    /// It ought to close the innermost bracket, and does not.
    Fails,
    /// It is an ordinary byte.
    Passes,
}

fn is_open(b: u8, next: u8) -> bool
    ensures { result ≡ opens b next }
{
    (b == b'<' && !(next == b'=')) || (b == b'(' || (b == b'[' || b == b'{'))
}

fn is_close(b: u8) -> bool
    ensures { result ≡ must_close b }
{
    b == b')' || (b == b']' || b == b'}')
}

/// What closes the bracket that this byte opens.
pub fn closer_of(b: u8) -> u8
    requires { b ≤ 123 }
    ensures { result ≡ closer b }
{
    if b == b'(' { b')' } else { b + 2 }
}

/// What a byte outside strings does, before this next byte, where the byte before is `-` or not, and this closes the
/// innermost bracket.
pub fn effect_of(b: u8, next: u8, dash: bool, innermost: u8) -> Effect
    ensures { result ≡ effect_of b next dash innermost }
{
    if is_open(b, next) {
        Effect::Opens
    } else if (is_close(b) || (b == b'>' && !dash)) && innermost == b {
        Effect::Closes
    } else if is_close(b) {
        Effect::Fails
    } else {
        Effect::Passes
    }
}

/// The place behind the `>` that closes the `<` at `at`, where `depth` brackets are open around it.
///
/// Strings are skipped whole. The `>` of `->` is an ordinary byte, and so is a `<` directly before `=`, but for the
/// opening one. Each other `<`, `(`, `[` and `{` opens a bracket, and `)`, `]` and `}` must close the innermost one.
/// Another `>` closes it if it is `<`, and is an ordinary byte else (MLIR Language Reference, "Dialect Attribute Values"
/// and "Dialect Types").
pub fn body_end(bytes: &[u8], at: usize, depth: u32) -> Result<usize, BodyFault>
    requires opening { slice_index bytes.now at ≡ 60 }
    requires few { depth ≤ 255 }
    ensures end { result ≡ end_of_body bytes.now at depth }
    ensures within { IfOk result (λ end. (at < end) × (end ≤ length bytes.now)) }
{
    let room = 256 - depth as usize;
    let mut closers = [0u8; 256];
    closers[0] = b'>';
    let mut count = 1;
    let mut dash = false;
    let mut i = at + 1;
    while i < bytes.len() {
        let b = bytes[i];
        if b == b'"' {
            let Some(end) = string_end(bytes, i) else {
                return Err(BodyFault::BadString(i));
            };
            dash = false;
            i = end;
            continue;
        }
        match effect_of(b, byte_at(bytes, i + 1), dash, closers[count - 1]) {
            Effect::Opens if count >= room => return Err(BodyFault::TooDeep(i)),
            Effect::Opens => {
                closers[count] = closer_of(b);
                count += 1;
            }
            Effect::Closes if count == 1 => return Ok(i + 1),
            Effect::Closes => count -= 1,
            Effect::Fails => return Err(BodyFault::Unclosed(i)),
            Effect::Passes => {}
        }
        dash = b == b'-';
        i += 1;
    }
    Err(BodyFault::Unclosed(bytes.len()))
}
