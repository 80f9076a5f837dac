//! Cuts the tokens.

ghost use Rattle.std.specs.Prelude.{◌≡◌, ℕ, ◌+◌, ◌<◌, ◌≤◌, ◌^◌, ◌↔◌, length, drop, IfOk, Ok, Err, ◌⊎◌};
ghost use Rattle.mlir_lexer.specs.Tokens.{IsToken, IsOnlyToken, IsBadByte, IsBadString};
ghost use Rattle.mlir_lexer.specs.Scan as spec;
ghost use Rattle.mlir_lexer.specs.Forms as form;

use crate::token::{LexFault, Token, TokenKind};
use text_scan::bytes::{Class, byte_at, hex_digits, is_digit, is_word_start, run_len};
use text_scan::gaps::gap_end;
use text_scan::strings::string_end;

fn token(kind: TokenKind, at: usize, len: usize) -> Token
    requires { at + len < 2 ^ 64 }
    ensures kind { result.kind ≡ kind }
    ensures start { result.start ≡ at }
    ensures end { result.end ≡ at + len }
{
    Token {
        kind,
        start: at,
        end: at + len,
    }
}

fn is_suffix_start(b: u8) -> bool
    ensures { result ≡ form.is_suffix_start b }
{
    is_word_start(b) || b == b'$' || b == b'.' || b == b'-'
}

fn digits(text: &[u8], from: usize) -> usize
    requires { from ≤ length text.now }
    ensures value { result ≡ spec.digits (drop from text.now) }
    ensures within { from + result ≤ length text.now }
{
    run_len(text, from, Class::Digit)
}

/// The length of the longest suffix at the front, or 0.
pub fn suffix_len(text: &[u8]) -> usize
    ensures value { result ≡ spec.suffix_len text.now }
    ensures within { result ≤ length text.now }
{
    let [first, ..] = text else {
        return 0;
    };
    if is_digit(*first) {
        1 + digits(text, 1)
    } else if is_suffix_start(*first) {
        1 + run_len(text, 1, Class::Suffix)
    } else {
        0
    }
}

/// The length of a mark and of what stands behind it, or 0 where nothing does.
fn behind(mark: usize, len: usize) -> usize
    requires { mark + len < 2 ^ 64 }
    ensures { result ≡ spec.behind mark len }
{
    if len == 0 { 0 } else { mark + len }
}

/// The length of the exponent at `from`, or 0.
fn exponent_len(text: &[u8], from: usize) -> usize
    requires { from ≤ length text.now }
    ensures value { result ≡ spec.exponent_len (drop from text.now) }
    ensures within { from + result ≤ length text.now }
{
    exponent_of(&text[from..])
}

fn exponent_of(text: &[u8]) -> usize
    ensures value { result ≡ spec.exponent_len text.now }
    ensures within { result ≤ length text.now }
{
    let [mark, rest @ ..] = text else {
        return 0;
    };
    if *mark != b'e' && *mark != b'E' {
        return 0;
    }
    let sign = byte_at(rest, 0);
    if sign == b'+' || sign == b'-' {
        behind(2, digits(rest, 1))
    } else {
        behind(1, digits(rest, 0))
    }
}

/// The length of what a float has behind its point, which is at `from - 1`.
fn fraction_len(text: &[u8], from: usize) -> usize
    requires { from ≤ length text.now }
    ensures value { result ≡ spec.fraction_len (drop from text.now) }
    ensures within { from + result ≤ length text.now }
{
    let fraction = digits(text, from);
    fraction + exponent_len(text, from + fraction)
}

/// The length of the hexadecimal number at the front, or 0.
fn hex_len(text: &[u8]) -> usize
    ensures value { result ≡ spec.hex_len text.now }
    ensures within { result ≤ length text.now }
{
    if byte_at(text, 0) == b'0' && byte_at(text, 1) == b'x' {
        behind(2, hex_digits(text, 2))
    } else {
        0
    }
}

/// The number at the front, which begins with a digit.
fn number(text: &[u8], at: usize) -> Token
    requires { at + length text.now < 2 ^ 64 }
    ensures { spec.number at text.now ≡ Ok result }
{
    let whole = digits(text, 0);
    if byte_at(text, whole) == b'.' {
        return token(
            TokenKind::Float,
            at,
            whole + 1 + fraction_len(text, whole + 1),
        );
    }
    let hex = hex_len(text);
    token(TokenKind::Integer, at, if hex == 0 { whole } else { hex })
}

/// The string at the front.
fn string(text: &[u8], at: usize) -> Result<Token, LexFault>
    requires { at + length text.now < 2 ^ 64 }
    ensures { result ≡ spec.string at text.now }
{
    match string_end(text, 0) {
        Some(len) => Ok(token(TokenKind::String, at, len)),
        None => Err(LexFault::BadString(at)),
    }
}

/// The token at `at` that is one byte and the suffix at the front of the text.
fn suffixed(kind: TokenKind, text: &[u8], at: usize) -> Result<Token, LexFault>
    requires { at + length text.now + 1 < 2 ^ 64 }
    ensures { result ≡ spec.suffixed kind at text.now }
{
    match suffix_len(text) {
        0 => Err(LexFault::BadByte(at)),
        len => Ok(token(kind, at, 1 + len)),
    }
}

/// The symbol whose `@` is at `at`, before the front of the text.
fn symbol(text: &[u8], at: usize) -> Result<Token, LexFault>
    requires { at + length text.now + 1 < 2 ^ 64 }
    ensures { result ≡ spec.symbol at text.now }
{
    if byte_at(text, 0) != b'"' {
        return suffixed(TokenKind::Symbol, text, at);
    }
    match string_end(text, 0) {
        Some(len) => Ok(token(TokenKind::Symbol, at, 1 + len)),
        None => Err(LexFault::BadString(at + 1)),
    }
}

fn suffixed_kind(b: u8) -> Option<TokenKind>
    ensures { result ≡ spec.suffixed_kind b }
{
    match b {
        b'%' => Some(TokenKind::Value),
        b'^' => Some(TokenKind::Label),
        b'#' => Some(TokenKind::Hash),
        b'!' => Some(TokenKind::Bang),
        _ => None,
    }
}

fn mark_kind(b: u8) -> Option<TokenKind>
    ensures { result ≡ spec.mark_kind b }
{
    match b {
        b'(' => Some(TokenKind::LeftParen),
        b')' => Some(TokenKind::RightParen),
        b'{' => Some(TokenKind::LeftBrace),
        b'}' => Some(TokenKind::RightBrace),
        b'[' => Some(TokenKind::LeftBracket),
        b']' => Some(TokenKind::RightBracket),
        b'<' => Some(TokenKind::Less),
        b'>' => Some(TokenKind::Greater),
        b',' => Some(TokenKind::Comma),
        b':' => Some(TokenKind::Colon),
        b'=' => Some(TokenKind::Equal),
        b'-' => Some(TokenKind::Minus),
        _ => None,
    }
}

/// The mark at `at`: this byte and what follows it.
fn mark(b: u8, rest: &[u8], at: usize) -> Result<Token, LexFault>
    requires { at + length rest.now + 1 < 2 ^ 64 }
    ensures { result ≡ spec.mark at b rest.now }
{
    let next = byte_at(rest, 0);
    if b == b':' && next == b':' {
        return Ok(token(TokenKind::ColonColon, at, 2));
    }
    if b == b'-' && next == b'>' {
        return Ok(token(TokenKind::Arrow, at, 2));
    }
    match mark_kind(b) {
        Some(kind) => Ok(token(kind, at, 1)),
        None => Err(LexFault::BadByte(at)),
    }
}

/// The token at the front of a text that stands at `at`.
fn first_token(text: &[u8], at: usize) -> Result<Token, LexFault>
    requires { at + length text.now < 2 ^ 64 }
    ensures { result ≡ spec.first_token at text.now }
{
    let [first, rest @ ..] = text else {
        return Ok(token(TokenKind::End, at, 0));
    };
    let b = *first;
    if is_word_start(b) {
        return Ok(token(TokenKind::Word, at, 1 + run_len(rest, 0, Class::Word)));
    }
    if is_digit(b) {
        return Ok(number(text, at));
    }
    if b == b'"' {
        return string(text, at);
    }
    if b == b'@' {
        return symbol(rest, at);
    }
    match suffixed_kind(b) {
        Some(kind) => suffixed(kind, rest, at),
        None => mark(b, rest, at),
    }
}

/// The token at `at`, behind the longest gap there: the longest text of a form of `TokenKind`, or the end
/// (MLIR Language Reference, "Common syntax" and "Identifiers and keywords").
///
/// `BadString` has the place of a quote that stands there, or directly behind `@` there, and begins no string.
/// `BadByte` has the place of another byte at which no token begins.
pub fn next_token(bytes: &[u8], at: usize) -> Result<Token, LexFault>
    requires { at ≤ length bytes.now }
    ensures found { IfOk result (λ t. IsToken bytes.now at t) }
    ensures only { IsOnlyToken bytes.now at result }

    ensures bad_byte { (p : ℕ) → (result ≡ Err (LexFault.BadByte p)) ↔ IsBadByte bytes.now at p }
    ensures bad_string { (p : ℕ) → (result ≡ Err (LexFault.BadString p)) ↔ IsBadString bytes.now at p }

    // What follows from the clauses above, for callers that go on behind the token.
    ensures in_order { IfOk result (λ t. (at ≤ t.start) × (t.start ≤ t.end) × (t.end ≤ length bytes.now)) }
    ensures some { IfOk result (λ t. (t.kind ≡ TokenKind.End) ⊎ (t.start < t.end)) }

    // The same answer, computed.
    ensures value { result ≡ spec.token_at bytes.now at }
{
    let start = gap_end(bytes, at);
    first_token(&bytes[start..], start)
}
