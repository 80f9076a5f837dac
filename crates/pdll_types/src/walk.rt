//! What is known on the way through a declaration.

ghost use Rattle.std.specs.Prelude.{◌≡◌, ◌∷◌, ◌++◌, [], length, OnOk};
ghost use Rattle.pdll_types.specs.Walk as spec;
ghost use Rattle.pdll_types.specs.Accepted.{code_number, is_before, faults};
ghost use Rattle.pdll_types.specs.Names.{where_so};

use crate::kind::KindList;
use crate::sight::{Sight, Words};
use pdll_syntax::fault::{PatFault, PatKind};
use sqlite_items::Items;
use std::alloc::Global;

/// What is known behind a part of a declaration.
#[derive(Drop)]
pub struct Walk<'t> {
    pub sight: Sight<'t>,
    /// The words that declare variables.
    pub words: Words<'t>,
    /// The kinds of the file's expressions so far.
    pub kinds: KindList,
    /// The numbers of the roots among them.
    pub roots: Items<usize>,
    /// The first fault of the declaration so far.
    pub least: Option<PatFault>,
}

impl<'t> Walk<'t> {
    /// Before the first declaration.
    pub fn new(alloc: Global) -> Walk<'t>
        ensures { result ≡ spec.start }
    {
        Walk {
            sight: Sight::new(alloc),
            words: Words::new(alloc),
            kinds: Items::new(alloc),
            roots: Items::new(alloc),
            least: None,
        }
    }
}

/// The number in a fault's code.
fn code_number(kind: PatKind) -> u8
    ensures { result ≡ code_number kind }
{
    match kind {
        PatKind::TooLong => 1,
        PatKind::NotUtf8 => 2,
        PatKind::BadByte => 3,
        PatKind::BadString => 4,
        PatKind::Syntax => 5,
        PatKind::CppBody => 6,
        PatKind::Include => 7,
        PatKind::TooMany => 8,
        PatKind::BenefitRange => 9,
        PatKind::Undefined => 10,
        PatKind::Redefined => 11,
        PatKind::WrongKind => 12,
        PatKind::WrongArity => 13,
        PatKind::UnknownNative => 14,
        PatKind::BadLiteral => 15,
        PatKind::TwoRanges => 16,
        PatKind::MultiRoot => 17,
        PatKind::Undetermined => 18,
        PatKind::NoResultTypes => 19,
        PatKind::BadRoot => 20,
        PatKind::AfterRoot => 21,
        PatKind::WrongPart => 22,
    }
}

/// Whether the first fault has a lesser place, or there a lower code.
fn is_before(fault: PatFault, other: PatFault) -> bool
    ensures { result ≡ is_before fault other }
{
    fault.at < other.at
        || (fault.at == other.at && code_number(fault.kind) < code_number(other.kind))
}

/// The first fault so far, with one more.
pub fn noted(least: Option<PatFault>, kind: PatKind, at: usize) -> Option<PatFault>
    ensures { result ≡ spec.noted (record { kind = kind; at = at }) least }
{
    let fault = PatFault { kind, at };
    match least {
        Some(other) if !is_before(fault, other) => Some(other),
        _ => Some(fault),
    }
}

/// The first fault so far, with one more where this is so.
pub fn noted_where(least: Option<PatFault>, so: bool, kind: PatKind, at: usize) -> Option<PatFault>
    ensures { result ≡ spec.all_noted (faults kind (where_so so at)) least }
{
    if so { noted(least, kind, at) } else { least }
}
