//! The faults of a module file.

ghost use Rattle.std.specs.Prelude.{◌≡◌};
ghost use Rattle.mlir_attributes.specs.Faults.{code_text};

/// What is wrong with a module file.
#[derive(Clone, Copy, Debug, PartialEq, Eq)]
pub enum ModKind {
    /// The file has more bytes than the limit.
    TooLong,
    /// The bytes aren't UTF-8.
    NotUtf8,
    /// A byte begins no token.
    BadByte,
    /// A string has no end, or an escape that isn't known.
    BadString,
    /// A token doesn't fit the grammar.
    Syntax,
    /// An operation in a custom form.
    CustomForm,
    /// An operation with successors.
    Successors,
    /// A region with more than one block.
    ManyBlocks,
    /// An integer type that is too wide.
    WideInt,
    /// A number that its type doesn't have.
    IntRange,
    /// An alias that isn't defined.
    AliasUnknown,
    /// An alias that is defined already.
    AliasTwice,
    /// A name that stands in the dictionary already.
    DictTwice,
    /// A limit is passed.
    TooMany,
    /// No value of the name is in the file.
    Undefined,
    /// A name that stands in the region already.
    Redefined,
    /// The name is in the file, and isn't in sight.
    NotVisible,
    /// A use of a value behind those of the name.
    ResultIndex,
    /// An operand whose type isn't that of the value.
    TypeDiffers,
    /// Another number of types than of operands, or of results that are named.
    CountDiffers,
    /// An attribute with the name of a property.
    PropAndAttr,
}

/// A fault and its place.
#[derive(Clone, Copy, Debug, PartialEq, Eq)]
pub struct ModFault {
    pub kind: ModKind,
    /// The place in the file, in bytes.
    pub at: usize,
}

impl ModKind {
    /// The fault's code and name, as the program prints them.
    pub fn code_text(self) -> &'static [u8]
        ensures { result.now ≡ code_text self }
    {
        match self {
            ModKind::TooLong => b"M1 TooLong",
            ModKind::NotUtf8 => b"M2 NotUtf8",
            ModKind::BadByte => b"M3 BadByte",
            ModKind::BadString => b"M4 BadString",
            ModKind::Syntax => b"M5 Syntax",
            ModKind::CustomForm => b"M6 CustomForm",
            ModKind::Successors => b"M7 Successors",
            ModKind::ManyBlocks => b"M8 ManyBlocks",
            ModKind::WideInt => b"M9 WideInt",
            ModKind::IntRange => b"M10 IntRange",
            ModKind::AliasUnknown => b"M11 AliasUnknown",
            ModKind::AliasTwice => b"M12 AliasTwice",
            ModKind::DictTwice => b"M13 DictTwice",
            ModKind::TooMany => b"M14 TooMany",
            ModKind::Undefined => b"M15 Undefined",
            ModKind::Redefined => b"M16 Redefined",
            ModKind::NotVisible => b"M17 NotVisible",
            ModKind::ResultIndex => b"M18 ResultIndex",
            ModKind::TypeDiffers => b"M19 TypeDiffers",
            ModKind::CountDiffers => b"M20 CountDiffers",
            ModKind::PropAndAttr => b"M21 PropAndAttr",
        }
    }
}
