//! Cuts the tokens.

ghost use Rattle.std.specs.Prelude.{◌≡◌, ℕ, ◌+◌, ◌<◌, ◌≤◌, ◌^◌, ◌↔◌, length, drop, IfOk, Ok, Err, ◌⊎◌};
ghost use Rattle.pdll_lexer.specs.Tokens.{IsToken, IsOnlyToken, IsBadByte, IsBadString};
ghost use Rattle.pdll_lexer.specs.Scan as spec;

use crate::token::{LexFault, Token, TokenKind};
use text_scan::bytes::{Class, byte_at, is_digit, is_word_start, run_len};
use text_scan::gaps::gap_end;
use text_scan::strings::string_end;

fn token(kind: TokenKind, at: usize, len: usize) -> Token
    requires { at + len < 2 ^ 64 }
    ensures kind { result.kind ≡ kind }
    ensures start { result.start ≡ at }
    ensures end { result.end ≡ at + len }
{
    Token {
        kind,
        start: at,
        end: at + len,
    }
}

/// The string at the front.
fn string(text: &[u8], at: usize) -> Result<Token, LexFault>
    requires { at + length text.now < 2 ^ 64 }
    ensures { result ≡ spec.string at text.now }
{
    match string_end(text, 0) {
        Some(len) => Ok(token(TokenKind::String, at, len)),
        None => Err(LexFault::BadString(at)),
    }
}

fn mark_kind(b: u8) -> Option<TokenKind>
    ensures { result ≡ spec.mark_kind b }
{
    match b {
        b'(' => Some(TokenKind::LeftParen),
        b')' => Some(TokenKind::RightParen),
        b'{' => Some(TokenKind::LeftBrace),
        b'}' => Some(TokenKind::RightBrace),
        b'[' => Some(TokenKind::LeftBracket),
        b']' => Some(TokenKind::RightBracket),
        b'<' => Some(TokenKind::Less),
        b'>' => Some(TokenKind::Greater),
        b',' => Some(TokenKind::Comma),
        b':' => Some(TokenKind::Colon),
        b';' => Some(TokenKind::Semicolon),
        b'=' => Some(TokenKind::Equal),
        b'.' => Some(TokenKind::Dot),
        _ => None,
    }
}

fn pair_kind(b: u8, next: u8) -> Option<TokenKind>
    ensures { result ≡ spec.pair_kind b next }
{
    match (b, next) {
        (b'[', b'{') => Some(TokenKind::CppBody),
        (b'-', b'>') => Some(TokenKind::Arrow),
        (b'=', b'>') => Some(TokenKind::FatArrow),
        _ => None,
    }
}

fn is_include(text: &[u8]) -> bool
    ensures { result ≡ spec.is_include text.now }
{
    text.starts_with(b"#include")
}

/// The mark at `at`, which is at the front of the text: the longest one there.
fn mark(text: &[u8], at: usize) -> Result<Token, LexFault>
    requires fits { at + length text.now < 2 ^ 64 }
    requires some { 0 < length text.now }
    ensures { result ≡ spec.mark at text.now }
{
    if is_include(text) {
        return Ok(token(TokenKind::Include, at, 8));
    }
    let b = byte_at(text, 0);
    if let Some(kind) = pair_kind(b, byte_at(text, 1)) {
        return Ok(token(kind, at, 2));
    }
    match mark_kind(b) {
        Some(kind) => Ok(token(kind, at, 1)),
        None => Err(LexFault::BadByte(at)),
    }
}

/// The token at the front of a text that stands at `at`.
fn first_token(text: &[u8], at: usize) -> Result<Token, LexFault>
    requires { at + length text.now < 2 ^ 64 }
    ensures { result ≡ spec.first_token at text.now }
{
    let [first, rest @ ..] = text else {
        return Ok(token(TokenKind::End, at, 0));
    };
    let b = *first;
    if is_word_start(b) {
        return Ok(token(TokenKind::Word, at, 1 + run_len(rest, 0, Class::Name)));
    }
    if is_digit(b) {
        return Ok(token(TokenKind::Integer, at, 1 + run_len(rest, 0, Class::Digit)));
    }
    if b == b'"' {
        return string(text, at);
    }
    mark(text, at)
}

/// The token at `at`, behind the longest gap there: the longest text of a form of `TokenKind`, or the end
/// (MLIR's document "PDLL - PDL Language").
///
/// `BadString` has the place of a quote that stands there and begins no string.
/// `BadByte` has the place of another byte at which no token begins.
pub fn next_token(bytes: &[u8], at: usize) -> Result<Token, LexFault>
    requires { at ≤ length bytes.now }
    ensures found { IfOk result (λ t. IsToken bytes.now at t) }
    ensures only { IsOnlyToken bytes.now at result }

    ensures bad_byte { (p : ℕ) → (result ≡ Err (LexFault.BadByte p)) ↔ IsBadByte bytes.now at p }
    ensures bad_string { (p : ℕ) → (result ≡ Err (LexFault.BadString p)) ↔ IsBadString bytes.now at p }

    // What follows from the clauses above, for callers that go on behind the token.
    ensures in_order { IfOk result (λ t. (at ≤ t.start) × (t.start ≤ t.end) × (t.end ≤ length bytes.now)) }
    ensures some { IfOk result (λ t. (t.kind ≡ TokenKind.End) ⊎ (t.start < t.end)) }

    // The same answer, computed.
    ensures value { result ≡ spec.token_at bytes.now at }
{
    let start = gap_end(bytes, at);
    first_token(&bytes[start..], start)
}
