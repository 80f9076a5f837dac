//! What a declaration doesn't determine.

ghost use Rattle.std.specs.Prelude.{◌≡◌, length, List, IfOk};
ghost use Rattle.pdll_syntax.specs.declared.file.Decl.{Decl as Declaration};
ghost use Rattle.rewrite_model.specs.Own.{own};
ghost use Rattle.pdll_expand.specs.Table.{Knows};
ghost use Rattle.pdll_types.specs.Accepted.{open_kind};
ghost use Rattle.pdll_types.specs.Open as spec;
ghost use Rattle.pdll_types.specs.Judged.{Opened};

use crate::walk::noted;
use native_set::native::Kind;
use pdll_expand::constraints::Constraints;
use pdll_expand::marks::{Marks, determined};
use pdll_expand::scene::Own;
use pdll_syntax::fault::{PatFault, PatKind};
use pdll_syntax::file::Decl;
use rewrite_model::laws::numbers_have_places;
use std::alloc::{AllocError, Global};

/// The fault of a number of this kind that isn't determined.
fn open_kind(kind: Kind) -> PatKind
    ensures { result ≡ open_kind kind }
{
    match kind {
        Kind::Op => PatKind::MultiRoot,
        _ => PatKind::Undetermined,
    }
}

/// The first fault so far, with that of one more number where it isn't determined.
fn note_number(
    least: Option<PatFault>,
    own: &Own<'_>,
    marks: &Marks,
    number: usize,
) -> Option<PatFault>
    ensures { result ≡ spec.noted_number own.now.scene.kinds own.now.scene.places marks.now number least }
{
    if marks.has(number) {
        return least;
    }
    match (own.scene.kinds.get(number), own.scene.places.get(number)) {
        (Some(kind), Some(at)) => noted(least, open_kind(*kind), *at),
        _ => least,
    }
}

/// The first fault of the numbers that aren't determined.
fn least_open(own: &Own<'_>, marks: &Marks) -> Option<PatFault>
    ensures { result ≡ spec.least_open own.now.scene.kinds own.now.scene.places marks.now (length own.now.scene.kinds) }
{
    let mut least = None;
    for number in 0..own.scene.kinds.len() {
        least = note_number(least, own, marks, number);
    }
    least
}

/// The first fault of what a declaration numbers and doesn't determine.
pub fn first_open<'t>(
    alloc: Global,
    constraints: &Constraints<'t>,
    one: &'t Decl,
) -> Result<Option<PatFault>, AllocError>
    ensures { (earlier : List Declaration) → Knows constraints.now earlier → IfOk result (Opened (own earlier one.now)) }
{
    numbers_have_places();
    let own = pdll_expand::own::own(alloc, constraints, one)?;
    let marks = determined(alloc, &own)?;
    Ok(least_open(&own, &marks))
}
