//! The kinds that refs write.

ghost use Rattle.std.specs.Prelude.{◌≡◌, ◌||◌, IfOk, option_copied};
ghost use Rattle.std.specs.Option.{is_some};
ghost use Rattle.pdll_syntax.specs.ExprTree.{refs};
ghost use Rattle.pdll_syntax.specs.ExprView.{ref_form};
ghost use Rattle.pdll_types.specs.Signatures.{form_kind, form_name, first_kind, first_name, kind_of_refs};
ghost use Rattle.pdll_types.specs.Mentions.{is_kind};

use crate::kind::{Kind, copy_maybe_text};
use crate::table::Table;
use pdll_syntax::expr::{Ref, RefForm};
use std::alloc::{AllocError, Global};

/// The kind that a ref is.
fn form_kind(alloc: Global, form: &RefForm) -> Result<Option<Kind>, AllocError>
    ensures { IfOk result (λ k. k ≡ form_kind (ref_form form.now)) }
{
    match form {
        RefForm::Attr(_) => Ok(Some(Kind::Attr)),
        RefForm::Op(name) => Ok(Some(Kind::Row(copy_maybe_text(alloc, name)?))),
        RefForm::Ty => Ok(Some(Kind::Ty)),
        RefForm::Tys => Ok(Some(Kind::Tys)),
        RefForm::Value(_) => Ok(Some(Kind::Value)),
        RefForm::Values(_) => Ok(Some(Kind::Values)),
        RefForm::Named(_) => Ok(None),
    }
}

fn is_kind_form(form: &RefForm) -> bool
    ensures { result ≡ is_some (form_kind (ref_form form.now)) }
{
    !matches!(form, RefForm::Named(_))
}

/// Whether a ref is a kind.
pub fn is_kind(kind: &Ref) -> bool
    ensures { result ≡ is_kind kind.now }
{
    is_kind_form(&kind.form)
}

/// Whether a kind stands before or here.
pub fn is_later(later: bool, kind: &Ref) -> bool
    ensures { result ≡ (later || is_kind kind.now) }
{
    later || is_kind(kind)
}

/// The name that a ref is.
fn form_name(form: &RefForm) -> Option<&[u8]>
    ensures { option_copied result ≡ form_name (ref_form form.now) }
{
    match form {
        RefForm::Named(name) => Some(name.as_slice()),
        _ => None,
    }
}

fn first_kind(alloc: Global, all: &[Ref]) -> Result<Option<Kind>, AllocError>
    ensures { IfOk result (λ k. k ≡ first_kind (refs all.now)) }
{
    for kind in all {
        if is_kind(kind) {
            return form_kind(alloc, &kind.form);
        }
    }
    Ok(None)
}

fn first_name(all: &[Ref]) -> Option<&[u8]>
    ensures { option_copied result ≡ first_name (refs all.now) }
{
    for kind in all {
        if let Some(name) = form_name(&kind.form) {
            return Some(name);
        }
    }
    None
}

/// The kind that refs write: the first one, or else that of the parameter of their first constraint.
#[tactic(auto, unfolding(crate::specs::Signatures::kind_of_refs))]
pub fn kind_of_refs(
    alloc: Global,
    table: &Table<'_>,
    all: &[Ref],
) -> Result<Option<Kind>, AllocError>
    ensures { IfOk result (λ k. k ≡ kind_of_refs table.now (refs all.now)) }
{
    if let Some(kind) = first_kind(alloc, all)? {
        return Ok(Some(kind));
    }
    match first_name(all) {
        Some(name) => table.only_parameter(alloc, name),
        None => Ok(None),
    }
}
