//! Declarations without a body.

ghost use Rattle.std.specs.Prelude.{◌≡◌, IfOk};
ghost use Rattle.std.specs.Option.{is_some};
ghost use Rattle.pdll_syntax.specs.ExprTree.{refs};
ghost use Rattle.pdll_syntax.specs.ExprView.{ref_form};
ghost use Rattle.pdll_types.specs.Names as spec;

use native_set::native::Kind;
use native_set::table::{constraint, rewrite};
use pdll_syntax::expr::{Ref, RefForm};
use pdll_syntax::file::CallDecl;
use pdll_syntax::stmt::Param;
use sqlite_items::Items;
use std::alloc::{AllocError, Global};

/// A kind that is written without `<`.
fn plain_form(form: &RefForm) -> Option<Kind>
    ensures { result ≡ spec.plain_form (ref_form form.now) }
{
    match form {
        RefForm::Attr(None) => Some(Kind::Attr),
        RefForm::Op(None) => Some(Kind::Op),
        RefForm::Ty => Some(Kind::Ty),
        RefForm::Tys => Some(Kind::Tys),
        RefForm::Value(None) => Some(Kind::Value),
        RefForm::Values(None) => Some(Kind::Values),
        _ => None,
    }
}

/// Refs that are one such kind.
fn plain_kind(all: &[Ref]) -> Option<Kind>
    ensures { result ≡ spec.plain_kind (refs all.now) }
{
    match all {
        [one] => plain_form(&one.form),
        _ => None,
    }
}

/// The kinds of parameters, each of which is one such kind.
fn plain_kinds(alloc: Global, params: &[Param]) -> Result<Option<Items<Kind>>, AllocError>
    ensures { IfOk result (λ ks. ks ≡ spec.plain_kinds params.now) }
{
    let mut kinds = Items::new(alloc);
    for param in params {
        match plain_kind(param.refs.as_slice()) {
            Some(kind) => kinds.push(kind)?,
            None => return Ok(None),
        }
    }
    Ok(Some(kinds))
}

/// Whether it is a native constraint.
pub fn is_native_constraint(alloc: Global, call: &CallDecl) -> Result<bool, AllocError>
    ensures { IfOk result (λ b. b ≡ spec.is_native_constraint call.now) }
{
    match plain_kinds(alloc, call.params.as_slice())? {
        Some(kinds) => Ok(constraint(call.name.text.as_slice(), kinds.as_slice()).is_some()),
        None => Ok(false),
    }
}

/// Whether there is a native rewrite of this name with these kinds, which gives what is written.
fn is_rewrite(name: &[u8], kinds: &[Kind], gives: &Option<Ref>) -> bool
    ensures { result ≡ is_some (spec.native_rewrite_of name.now gives.now kinds.now) }
{
    match gives {
        None => rewrite(name, kinds, None).is_some(),
        Some(one) => match plain_form(&one.form) {
            Some(kind) => rewrite(name, kinds, Some(kind)).is_some(),
            None => false,
        },
    }
}

/// Whether it is a native rewrite.
pub fn is_native_rewrite(alloc: Global, call: &CallDecl) -> Result<bool, AllocError>
    ensures { IfOk result (λ b. b ≡ spec.is_native_rewrite call.now) }
{
    match plain_kinds(alloc, call.params.as_slice())? {
        Some(kinds) => Ok(is_rewrite(call.name.text.as_slice(), kinds.as_slice(), &call.gives)),
        None => Ok(false),
    }
}
