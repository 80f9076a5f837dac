//! Tokens, and why there is none at a place.

/// A token: its kind, its first place, and the place behind it.
#[derive(Clone, Copy, Debug, PartialEq, Eq)]
pub struct Token {
    pub kind: TokenKind,
    pub start: usize,
    pub end: usize,
}

/// The kinds of tokens of pattern text.
#[derive(Clone, Copy, Debug, PartialEq, Eq)]
pub enum TokenKind {
    /// Nothing is left.
    End,
    /// A letter or `_`, then letters, digits and `_`.
    Word,
    /// Decimal digits.
    Integer,
    /// A string between quotes.
    String,
    /// `(`
    LeftParen,
    /// `)`
    RightParen,
    /// `{`
    LeftBrace,
    /// `}`
    RightBrace,
    /// `[`
    LeftBracket,
    /// `]`
    RightBracket,
    /// `<`
    Less,
    /// `>`
    Greater,
    /// `,`
    Comma,
    /// `:`
    Colon,
    /// `;`
    Semicolon,
    /// `=`
    Equal,
    /// `.`
    Dot,
    /// `->`
    Arrow,
    /// `=>`
    FatArrow,
    /// `[{`, which begins a body in C++.
    CppBody,
    /// `#include`
    Include,
}

/// Why no token stands at a place.
#[derive(Clone, Copy, Debug, PartialEq, Eq)]
pub enum LexFault {
    /// No token, space or comment begins at this place.
    BadByte(usize),
    /// The string whose opening quote is at this place breaks off.
    BadString(usize),
}
