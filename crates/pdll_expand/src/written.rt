//! The kinds that refs write.

ghost use Rattle.std.specs.Prelude.{◌≡◌, option_map, option_copied};
ghost use Rattle.std.specs.Option.{is_none};
ghost use Rattle.pdll_syntax.specs.ExprView.{ref_form};
ghost use Rattle.rewrite_model.specs.Names as spec;
ghost use Rattle.rewrite_model.specs.MatchPart.{kind_of_refs};
ghost use Rattle.pdll_expand.specs.View.{written_of};
ghost use Rattle.pdll_expand.specs.Table.{param_in, in_sight};

use crate::sight::Sight;
use native_set::native::Kind;
use pdll_syntax::expr::{Ref, RefForm};
use pdll_syntax::name::Text;

/// A kind, with the name of an `Op<name>`.
#[derive(Clone, Copy)]
pub struct Written<'t> {
    pub kind: Kind,
    pub name: Option<&'t [u8]>,
}

/// A kind without a name.
pub fn of_kind<'t>(kind: Kind) -> Written<'t>
    ensures { written_of result ≡ spec.of_kind kind }
{
    Written { kind, name: None }
}

/// The name in `Op<name>`.
fn op_name(name: &Option<Text>) -> Option<&[u8]>
    ensures { option_copied result ≡ name.now }
{
    match name {
        None => None,
        Some(name) => Some(name.as_slice()),
    }
}

/// The kind that a ref writes.
fn form_kind(form: &RefForm) -> Option<Written<'_>>
    ensures { option_map written_of result ≡ spec.form_kind (ref_form form.now) }
{
    match form {
        RefForm::Attr(_) => Some(of_kind(Kind::Attr)),
        RefForm::Op(name) => Some(Written {
            kind: Kind::Op,
            name: op_name(name),
        }),
        RefForm::Ty => Some(of_kind(Kind::Ty)),
        RefForm::Tys => Some(of_kind(Kind::Tys)),
        RefForm::Value(_) => Some(of_kind(Kind::Value)),
        RefForm::Values(_) => Some(of_kind(Kind::Values)),
        RefForm::Named(_) => None,
    }
}

fn ref_kind(one: &Ref) -> Option<Written<'_>>
    ensures { option_map written_of result ≡ spec.ref_kind one.now }
{
    form_kind(&one.form)
}

fn form_name(form: &RefForm) -> Option<&[u8]>
    ensures { option_copied result ≡ spec.form_name (ref_form form.now) }
{
    match form {
        RefForm::Named(name) => Some(name.as_slice()),
        _ => None,
    }
}

/// The constraint that a ref names.
pub(crate) fn ref_name(one: &Ref) -> Option<&[u8]>
    ensures { option_copied result ≡ spec.ref_name one.now }
{
    form_name(&one.form)
}

/// Whether a ref is a kind.
pub(crate) fn is_kind(one: &Ref) -> bool
    ensures { result ≡ is_none (spec.ref_name one.now) }
{
    match ref_name(one) {
        None => true,
        Some(_) => false,
    }
}

/// The first kind among refs.
fn first_kind(all: &[Ref]) -> Option<Written<'_>>
    ensures { option_map written_of result ≡ spec.first_kind all.now }
{
    for one in all {
        if let Some(kind) = ref_kind(one) {
            return Some(kind);
        }
    }
    None
}

/// The first constraint among refs.
fn named_kind<'t>(constraints: Sight<'_, 't>, all: &[Ref]) -> Option<Written<'t>>
    ensures { option_map written_of result ≡ spec.named_kind (param_in constraints.entry) all.now }
{
    for one in all {
        if let Some(name) = ref_name(one) {
            return Some(constraints.param(name));
        }
    }
    None
}

/// The kind that refs write: the first, else that of the first constraint's parameter.
pub(crate) fn kind_of_refs<'t>(constraints: Sight<'_, 't>, all: &'t [Ref]) -> Written<'t>
    ensures { written_of result ≡ kind_of_refs (in_sight constraints.entry) all.now }
{
    if let Some(kind) = first_kind(all) {
        return kind;
    }
    match named_kind(constraints, all) {
        Some(kind) => kind,
        None => of_kind(Kind::Value),
    }
}
