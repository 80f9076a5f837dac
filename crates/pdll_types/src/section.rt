//! Where parts of a declaration stand.

ghost use Rattle.std.specs.Prelude.{◌≡◌};
ghost use Rattle.pdll_types.specs.Mentions as spec;
ghost use Rattle.pdll_types.specs.Parts.{is_rewritten};

/// The part of a declaration in which an expression stands.
#[derive(Clone, Copy)]
pub enum Section {
    /// A match, or a constraint.
    Matched,
    /// A rewrite.
    Rewritten,
    /// A rewrite, directly behind `replace .. with`.
    Replacing,
}

/// What holds refs.
#[derive(Clone, Copy)]
pub enum Holder {
    /// A variable without a value.
    Variable,
    /// A variable with a value.
    Valued,
    Parameter,
    /// The result of a rewrite.
    Outcome,
}

/// How a statement stands.
#[derive(Clone, Copy)]
pub enum Standing {
    /// In a constraint or a match.
    Matching,
    /// In a match, as the first statement that names a root, which isn't the last one.
    Exempt,
    /// As the last statement of a pattern.
    Final,
    /// In a rewrite.
    Inside,
    /// As the last statement of a rewrite that has a result.
    Returning,
}

impl Section {
    /// The part in which the parts of an expression stand.
    pub fn within(self) -> Section
        ensures { result ≡ spec.within self }
    {
        match self {
            Section::Matched => Section::Matched,
            Section::Rewritten => Section::Rewritten,
            Section::Replacing => Section::Rewritten,
        }
    }

    pub fn is_rewritten(self) -> bool
        ensures { result ≡ is_rewritten self }
    {
        !matches!(self, Section::Matched)
    }
}

impl Standing {
    /// The part in which the statement stands.
    pub fn part(self) -> Section
        ensures { result ≡ spec.part_of self }
    {
        match self {
            Standing::Matching | Standing::Exempt | Standing::Final => Section::Matched,
            Standing::Inside | Standing::Returning => Section::Rewritten,
        }
    }

    /// The part in which what replaces an operation stands.
    pub fn part_behind_with(self) -> Section
        ensures { result ≡ spec.part_behind_with self }
    {
        match self {
            Standing::Matching | Standing::Exempt => Section::Matched,
            Standing::Final | Standing::Inside | Standing::Returning => Section::Replacing,
        }
    }

    /// How a statement of a rewrite stands.
    pub fn in_rewrite(gives: bool, last: bool) -> Standing
        ensures { result ≡ spec.standing_in_rewrite gives last }
    {
        if gives && last {
            Standing::Returning
        } else {
            Standing::Inside
        }
    }

    /// How a statement of a pattern stands, behind one that names a root or not.
    pub fn in_pattern(last: bool, late: bool, names_root: bool) -> Standing
        ensures { result ≡ spec.standing_in_pattern last late names_root }
    {
        if last {
            Standing::Final
        } else if !late && names_root {
            Standing::Exempt
        } else {
            Standing::Matching
        }
    }
}
