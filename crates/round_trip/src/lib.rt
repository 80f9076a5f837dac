//! Laws of printing and reading: what is printed reads back. Each is a call that does nothing and promises the law.
#![tactic(auto)]

ghost use Rattle.round_trip.specs.Laws.{TypesReadBack, SpelledTypesArePrintable, AttributesReadBack, SpelledAttributesArePrintable, ModulesAreSpelled, ReadsBack, SpelledRowsArePrintable, ReadsAgain, ReadRowsArePrintable, ReadRowsReadBack};

/// The text of a printable type spells this type.
#[tactic(auto, using(crate::proofs::Whole::types_read_back))]
pub fn types_read_back()
    ensures { TypesReadBack }
{}

/// A type that a text spells is printable.
pub fn spelled_types_are_printable()
    ensures { SpelledTypesArePrintable }
{}

/// The text of a printable attribute spells this attribute.
#[tactic(auto, using(crate::proofs::Whole::attributes_read_back))]
pub fn attributes_read_back()
    ensures { AttributesReadBack }
{}

/// An attribute that a text spells is printable.
pub fn spelled_attributes_are_printable()
    ensures { SpelledAttributesArePrintable }
{}

/// The text of a printable module spells a module file.
#[tactic(auto, using(crate::proofs::Whole::modules_are_spelled))]
pub fn modules_are_spelled()
    ensures { ModulesAreSpelled }
{}

/// A module that is printed reads back as the same rows, with the numbers of their places.
#[tactic(auto, using(crate::proofs::ReadsBack::reads_back))]
pub fn reads_back()
    ensures { ReadsBack }
{}

/// The rows of a file that is one module and defines no alias are printable.
pub fn spelled_rows_are_printable()
    ensures { SpelledRowsArePrintable }
{}

/// What is read from such a file is the same module after it is printed and read again.
pub fn reads_again()
    ensures { ReadsAgain }
{}

/// The rows that are read from a file are printable, where their text keeps the limits.
pub fn read_rows_are_printable()
    ensures { ReadRowsArePrintable }
{}

/// So they are the same rows after they are printed and read again.
pub fn read_rows_read_back()
    ensures { ReadRowsReadBack }
{}
