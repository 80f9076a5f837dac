//! Tokens, and why there is none at a place.

/// A token: its kind, its first place, and the place behind it.
#[derive(Clone, Copy, Debug, PartialEq, Eq)]
pub struct Token {
    pub kind: TokenKind,
    pub start: usize,
    pub end: usize,
}

/// The kinds of tokens of module text.
#[derive(Clone, Copy, Debug, PartialEq, Eq)]
pub enum TokenKind {
    /// Nothing is left.
    End,
    /// A letter or `_`, then letters, digits, `_`, `$` and `.`.
    Word,
    /// `%` and a suffix.
    Value,
    /// `^` and a suffix.
    Label,
    /// `#` and a suffix.
    Hash,
    /// `!` and a suffix.
    Bang,
    /// `@` and a suffix or a string.
    Symbol,
    /// Digits, or `0x` and hexadecimal digits.
    Integer,
    /// Digits, `.`, any digits and perhaps an exponent.
    Float,
    /// A string between quotes.
    String,
    /// `(`
    LeftParen,
    /// `)`
    RightParen,
    /// `{`
    LeftBrace,
    /// `}`
    RightBrace,
    /// `[`
    LeftBracket,
    /// `]`
    RightBracket,
    /// `<`
    Less,
    /// `>`
    Greater,
    /// `,`
    Comma,
    /// `:`
    Colon,
    /// `::`
    ColonColon,
    /// `=`
    Equal,
    /// `-`
    Minus,
    /// `->`
    Arrow,
}

/// Why no token stands at a place.
#[derive(Clone, Copy, Debug, PartialEq, Eq)]
pub enum LexFault {
    /// No token, space or comment begins at this place.
    BadByte(usize),
    /// The string whose opening quote is at this place breaks off.
    BadString(usize),
}
