//! The names of natives and the kinds of their parameters.

ghost use Rattle.std.specs.Prelude.{◌≡◌, Some};
ghost use Rattle.native_set.specs.Table.{constraint, rewrite, name_of, params_of, gives_of};

/// The kind of a parameter, as PDLL writes it: `Attr`, `Op`, `Type`, `TypeRange`, `Value` or `ValueRange`.
#[derive(Clone, Copy, Debug, PartialEq, Eq)]
pub enum Kind {
    Attr,
    Op,
    Ty,
    Tys,
    Value,
    Values,
}

/// A native constraint.
#[derive(Clone, Copy, Debug, PartialEq, Eq)]
pub enum Constraint {
    /// The value has exactly one use.
    HasOneUse,
    /// No result of the operation has a use.
    HasNoUse,
    /// The attribute is an integer.
    IsInt,
    /// The attribute is an integer with the value 0.
    IsZero,
    /// The operations are in one block.
    SameBlock,
    /// The operation has no regions.
    NoRegions,
}

/// A native rewrite.
#[derive(Clone, Copy, Debug, PartialEq, Eq)]
pub enum Rewrite {
    /// The sum of two integers.
    AddInt,
    /// The product of two integers.
    MulInt,
    /// Zero less the integer.
    NegInt,
}

impl Constraint {
    /// The name that patterns call it by.
    pub fn name(self) -> &'static [u8]
        ensures { result.now ≡ name_of (constraint self) }
    {
        match self {
            Constraint::HasOneUse => b"HasOneUse",
            Constraint::HasNoUse => b"HasNoUse",
            Constraint::IsInt => b"IsInt",
            Constraint::IsZero => b"IsZero",
            Constraint::SameBlock => b"SameBlock",
            Constraint::NoRegions => b"NoRegions",
        }
    }

    /// The kinds of its parameters.
    pub fn params(self) -> &'static [Kind]
        ensures { result.now ≡ params_of (constraint self) }
    {
        match self {
            Constraint::HasOneUse => &[Kind::Value],
            Constraint::HasNoUse => &[Kind::Op],
            Constraint::IsInt => &[Kind::Attr],
            Constraint::IsZero => &[Kind::Attr],
            Constraint::SameBlock => &[Kind::Op, Kind::Op],
            Constraint::NoRegions => &[Kind::Op],
        }
    }
}

impl Rewrite {
    /// The name that patterns call it by.
    pub fn name(self) -> &'static [u8]
        ensures { result.now ≡ name_of (rewrite self) }
    {
        match self {
            Rewrite::AddInt => b"AddInt",
            Rewrite::MulInt => b"MulInt",
            Rewrite::NegInt => b"NegInt",
        }
    }

    /// The kinds of its parameters.
    pub fn params(self) -> &'static [Kind]
        ensures { result.now ≡ params_of (rewrite self) }
    {
        match self {
            Rewrite::AddInt => &[Kind::Attr, Kind::Attr],
            Rewrite::MulInt => &[Kind::Attr, Kind::Attr],
            Rewrite::NegInt => &[Kind::Attr],
        }
    }

    /// The kind of what it gives.
    pub fn gives(self) -> Kind
        ensures { gives_of (rewrite self) ≡ Some result }
    {
        match self {
            Rewrite::AddInt => Kind::Attr,
            Rewrite::MulInt => Kind::Attr,
            Rewrite::NegInt => Kind::Attr,
        }
    }
}
