//! What a token is for the grammar.

ghost use Rattle.std.specs.Prelude.{◌≡◌};
ghost use Rattle.std.specs.Str.{bytes_eq};
ghost use Rattle.pdll_parser.specs.Terminals as spec;
ghost use Rattle.pdll_parser.specs.Terminals.{begins_literal};

use pdll_lexer::TokenKind;

/// A token as the grammar tells it from others: words that the grammar knows have a variant each.
#[derive(Clone, Copy, Debug, PartialEq, Eq)]
pub enum Terminal {
    /// No token stands there.
    Bad,
    /// The end of the file.
    End,
    /// A word that the grammar doesn't know.
    OtherName,
    /// `attr`, which is a name too.
    AttrName,
    /// `op`, which is a name too.
    OpName,
    /// `type`, which is a name too.
    TypeName,
    /// `benefit`, which is a name too.
    BenefitName,
    /// `recursion`, which is a name too.
    RecursionName,
    /// `erase`
    Erase,
    /// `let`
    Let,
    /// `not`
    Not,
    /// `replace`
    Replace,
    /// `return`
    Return,
    /// `rewrite`, the statement.
    RewriteWith,
    /// `with`
    With,
    /// `Attr`
    Attr,
    /// `Op`
    Op,
    /// `Type`
    Type,
    /// `TypeRange`
    TypeRange,
    /// `Value`
    Value,
    /// `ValueRange`
    ValueRange,
    /// `Constraint`
    Constraint,
    /// `Pattern`
    Pattern,
    /// `Rewrite`, the declaration.
    Rewrite,
    /// Decimal digits.
    Integer,
    /// A string between quotes.
    String,
    /// `(`
    LeftParen,
    /// `)`
    RightParen,
    /// `{`
    LeftBrace,
    /// `}`
    RightBrace,
    /// `[`
    LeftBracket,
    /// `]`
    RightBracket,
    /// `<`
    Less,
    /// `>`
    Greater,
    /// `,`
    Comma,
    /// `:`
    Colon,
    /// `;`
    Semicolon,
    /// `=`
    Equal,
    /// `.`
    Dot,
    /// `->`
    Arrow,
    /// `=>`
    FatArrow,
    /// `[{`
    CppBody,
    /// `#include`
    Include,
}

impl Terminal {
    /// Whether this is a word that may name a pattern, a variable, a constraint or a rewrite.
    pub fn is_name(self) -> bool
        ensures { result ≡ spec.is_name self }
    {
        matches!(
            self,
            Terminal::OtherName
                | Terminal::AttrName
                | Terminal::OpName
                | Terminal::TypeName
                | Terminal::BenefitName
                | Terminal::RecursionName
        )
    }

    /// Whether this is `attr`, `op` or `type`.
    pub fn begins_literal(self) -> bool
        ensures { result ≡ begins_literal self }
    {
        matches!(
            self,
            Terminal::AttrName | Terminal::OpName | Terminal::TypeName
        )
    }

    /// Whether this is a kind.
    pub fn is_kind(self) -> bool
        ensures { result ≡ spec.is_kind self }
    {
        matches!(
            self,
            Terminal::Attr
                | Terminal::Op
                | Terminal::Type
                | Terminal::TypeRange
                | Terminal::Value
                | Terminal::ValueRange
        )
    }

    /// Whether this is a word.
    pub fn is_word(self) -> bool
        ensures { result ≡ spec.is_word self }
    {
        matches!(
            self,
            Terminal::OtherName
                | Terminal::AttrName
                | Terminal::OpName
                | Terminal::TypeName
                | Terminal::BenefitName
                | Terminal::RecursionName
                | Terminal::Erase
                | Terminal::Let
                | Terminal::Not
                | Terminal::Replace
                | Terminal::Return
                | Terminal::RewriteWith
                | Terminal::With
                | Terminal::Attr
                | Terminal::Op
                | Terminal::Type
                | Terminal::TypeRange
                | Terminal::Value
                | Terminal::ValueRange
                | Terminal::Constraint
                | Terminal::Pattern
                | Terminal::Rewrite
        )
    }
}

fn is(word: &[u8], text: &[u8]) -> bool
    ensures { result ≡ bytes_eq word.now text.now }
{
    word == text
}

/// The keywords in lower case.
fn lower_keyword(word: &[u8]) -> Option<Terminal>
    ensures { result ≡ spec.lower_keyword word.now }
{
    if is(word, b"erase") {
        return Some(Terminal::Erase);
    }
    if is(word, b"let") {
        return Some(Terminal::Let);
    }
    if is(word, b"not") {
        return Some(Terminal::Not);
    }
    if is(word, b"replace") {
        return Some(Terminal::Replace);
    }
    if is(word, b"return") {
        return Some(Terminal::Return);
    }
    if is(word, b"rewrite") {
        return Some(Terminal::RewriteWith);
    }
    if is(word, b"with") {
        return Some(Terminal::With);
    }
    None
}

/// The kinds.
fn kind_keyword(word: &[u8]) -> Option<Terminal>
    ensures { result ≡ spec.kind_keyword word.now }
{
    if is(word, b"Attr") {
        return Some(Terminal::Attr);
    }
    if is(word, b"Op") {
        return Some(Terminal::Op);
    }
    if is(word, b"Type") {
        return Some(Terminal::Type);
    }
    if is(word, b"TypeRange") {
        return Some(Terminal::TypeRange);
    }
    if is(word, b"Value") {
        return Some(Terminal::Value);
    }
    if is(word, b"ValueRange") {
        return Some(Terminal::ValueRange);
    }
    None
}

/// The words that begin a declaration.
fn declaration_keyword(word: &[u8]) -> Option<Terminal>
    ensures { result ≡ spec.declaration_keyword word.now }
{
    if is(word, b"Constraint") {
        return Some(Terminal::Constraint);
    }
    if is(word, b"Pattern") {
        return Some(Terminal::Pattern);
    }
    if is(word, b"Rewrite") {
        return Some(Terminal::Rewrite);
    }
    None
}

/// A word that is no keyword.
fn name(word: &[u8]) -> Terminal
    ensures { result ≡ spec.name word.now }
{
    if is(word, b"attr") {
        return Terminal::AttrName;
    }
    if is(word, b"op") {
        return Terminal::OpName;
    }
    if is(word, b"type") {
        return Terminal::TypeName;
    }
    if is(word, b"benefit") {
        return Terminal::BenefitName;
    }
    if is(word, b"recursion") {
        return Terminal::RecursionName;
    }
    Terminal::OtherName
}

fn word(text: &[u8]) -> Terminal
    ensures { result ≡ spec.word text.now }
{
    if let Some(keyword) = lower_keyword(text) {
        return keyword;
    }
    if let Some(keyword) = kind_keyword(text) {
        return keyword;
    }
    if let Some(keyword) = declaration_keyword(text) {
        return keyword;
    }
    name(text)
}

/// What a token of this kind and text is for the grammar.
pub fn terminal_of(kind: TokenKind, text: &[u8]) -> Terminal
    ensures { result ≡ spec.terminal_of kind text.now }
{
    match kind {
        TokenKind::End => Terminal::End,
        TokenKind::Word => word(text),
        TokenKind::Integer => Terminal::Integer,
        TokenKind::String => Terminal::String,
        TokenKind::LeftParen => Terminal::LeftParen,
        TokenKind::RightParen => Terminal::RightParen,
        TokenKind::LeftBrace => Terminal::LeftBrace,
        TokenKind::RightBrace => Terminal::RightBrace,
        TokenKind::LeftBracket => Terminal::LeftBracket,
        TokenKind::RightBracket => Terminal::RightBracket,
        TokenKind::Less => Terminal::Less,
        TokenKind::Greater => Terminal::Greater,
        TokenKind::Comma => Terminal::Comma,
        TokenKind::Colon => Terminal::Colon,
        TokenKind::Semicolon => Terminal::Semicolon,
        TokenKind::Equal => Terminal::Equal,
        TokenKind::Dot => Terminal::Dot,
        TokenKind::Arrow => Terminal::Arrow,
        TokenKind::FatArrow => Terminal::FatArrow,
        TokenKind::CppBody => Terminal::CppBody,
        TokenKind::Include => Terminal::Include,
    }
}
