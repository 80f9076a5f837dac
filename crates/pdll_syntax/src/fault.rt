//! The faults of a pattern file.

ghost use Rattle.std.specs.Prelude.{◌≡◌};
ghost use Rattle.pdll_syntax.specs.Faults.{code_text};

/// What is wrong with a pattern file.
#[derive(Clone, Copy, Debug, PartialEq, Eq)]
pub enum PatKind {
    /// The file has more bytes than the limit.
    TooLong,
    /// The bytes aren't UTF-8.
    NotUtf8,
    /// A byte begins no token.
    BadByte,
    /// A string has no end, or an escape that isn't known.
    BadString,
    /// A token doesn't fit the grammar.
    Syntax,
    /// A body in C++, `[{ .. }]`.
    CppBody,
    /// An `#include`.
    Include,
    /// A limit on brackets, patterns, statements or expressions is passed.
    TooMany,
    /// A benefit above 65,534.
    BenefitRange,
    /// A name that isn't declared earlier.
    Undefined,
    /// A name that is declared already.
    Redefined,
    /// An expression of another kind than its place asks for.
    WrongKind,
    /// A call with another number of arguments than parameters.
    WrongArity,
    /// A declaration without a body that isn't a known native.
    UnknownNative,
    /// A literal that isn't one attribute or type.
    BadLiteral,
    /// A second range in a list of a match.
    TwoRanges,
    /// An operation of a match that the root doesn't determine.
    MultiRoot,
    /// A variable of a match that the root doesn't determine.
    Undetermined,
    /// A new operation whose result types aren't written.
    NoResultTypes,
    /// No last statement that names the root, or a root that isn't an operation.
    BadRoot,
    /// A statement behind the one that names the root.
    AfterRoot,
    /// A part that may not stand at its place.
    WrongPart,
}

/// A fault and its place.
#[derive(Clone, Copy, Debug, PartialEq, Eq)]
pub struct PatFault {
    pub kind: PatKind,
    /// The place in the file, in bytes.
    pub at: usize,
}

impl PatKind {
    /// The fault's code and name, as the program prints them.
    pub fn code_text(self) -> &'static [u8]
        ensures { result.now ≡ code_text self }
    {
        match self {
            PatKind::TooLong => b"P1 TooLong",
            PatKind::NotUtf8 => b"P2 NotUtf8",
            PatKind::BadByte => b"P3 BadByte",
            PatKind::BadString => b"P4 BadString",
            PatKind::Syntax => b"P5 Syntax",
            PatKind::CppBody => b"P6 CppBody",
            PatKind::Include => b"P7 Include",
            PatKind::TooMany => b"P8 TooMany",
            PatKind::BenefitRange => b"P9 BenefitRange",
            PatKind::Undefined => b"P10 Undefined",
            PatKind::Redefined => b"P11 Redefined",
            PatKind::WrongKind => b"P12 WrongKind",
            PatKind::WrongArity => b"P13 WrongArity",
            PatKind::UnknownNative => b"P14 UnknownNative",
            PatKind::BadLiteral => b"P15 BadLiteral",
            PatKind::TwoRanges => b"P16 TwoRanges",
            PatKind::MultiRoot => b"P17 MultiRoot",
            PatKind::Undetermined => b"P18 Undetermined",
            PatKind::NoResultTypes => b"P19 NoResultTypes",
            PatKind::BadRoot => b"P20 BadRoot",
            PatKind::AfterRoot => b"P21 AfterRoot",
            PatKind::WrongPart => b"P22 WrongPart",
        }
    }
}
