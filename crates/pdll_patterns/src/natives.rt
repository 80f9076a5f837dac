//! Calls of native rewrites.

ghost use Rattle.std.specs.Prelude.{◌≡◌, map, option_map, IfOk};
ghost use Rattle.std.specs.Option.{option_map_or};
ghost use Rattle.pdll_syntax.specs.ExprView.{ref_form};
ghost use Rattle.native_set.specs.declared.native.Kind.TheVariants as kind;
ghost use Rattle.rewrite_model.specs.Names.{form_kind};
ghost use Rattle.rewrite_model.specs.Expanding.{given_kind};
ghost use Rattle.pdll_patterns.specs.declared.names.Names.{Names};
ghost use Rattle.pdll_patterns.specs.View.{meant_part_of};
ghost use Rattle.pdll_patterns.specs.Scripts.{Does};
ghost use Rattle.pdll_patterns.specs.Evaluating.{native_made};

use crate::action::{Making, Part};
use crate::names::MeantPart;
use crate::script::Script;
use native_set::native::Kind;
use native_set::table::rewrite;
use pdll_syntax::expr::RefForm;
use pdll_syntax::file::CallDecl;
use sqlite_items::Items;
use std::alloc::{AllocError, Global};

/// The kind that a ref writes. A constraint writes none.
fn form_kind(form: &RefForm) -> Option<Kind>
    ensures { result ≡ option_map (λ w. w.kind) (form_kind (ref_form form.now)) }
{
    match form {
        RefForm::Attr(_) => Some(Kind::Attr),
        RefForm::Op(_) => Some(Kind::Op),
        RefForm::Ty => Some(Kind::Ty),
        RefForm::Tys => Some(Kind::Tys),
        RefForm::Value(_) => Some(Kind::Value),
        RefForm::Values(_) => Some(Kind::Values),
        RefForm::Named(_) => None,
    }
}

/// The kind of what a rewrite gives.
fn given_kind(call: &CallDecl) -> Option<Kind>
    ensures { result ≡ given_kind call.now }
{
    match &call.gives {
        None => None,
        Some(gives) => form_kind(&gives.form),
    }
}

fn kind_or_attr(given: Option<Kind>) -> Kind
    ensures { result ≡ option_map_or (λ k. k) given kind.Attr }
{
    match given {
        None => Kind::Attr,
        Some(kind) => kind,
    }
}

fn kinds_of(alloc: Global, all: &[MeantPart]) -> Result<Items<Kind>, AllocError>
    ensures { IfOk result (λ ks. ks ≡ map (λ x. x.kind) all.now) }
{
    let mut kinds = Items::new(alloc);
    for x in all {
        kinds.push(x.kind)?;
    }
    Ok(kinds)
}

fn parts_of(alloc: Global, all: &[MeantPart]) -> Result<Items<Part>, AllocError>
    ensures { IfOk result (λ ps. ps ≡ map (λ x. x.is) all.now) }
{
    let mut parts = Items::new(alloc);
    for x in all {
        parts.push(x.is)?;
    }
    Ok(parts)
}

/// Makes what a native rewrite gives, by its name and the kinds of its arguments.
pub fn make_native<'t>(
    alloc: Global,
    script: &mut Script<'t>,
    call: &'t CallDecl,
    arguments: &[MeantPart],
) -> Result<MeantPart, AllocError>
    ensures { (names : Names) → Does meant_part_of (native_made call.now (map meant_part_of arguments.now)) (names, script.old) result (names, script.new) }
{
    let kinds = kinds_of(alloc, arguments)?;
    let given = given_kind(call);
    match rewrite(call.name.text.as_slice(), kinds.as_slice(), given) {
        None => Ok(MeantPart::none()),
        Some(native) => {
            let parts = parts_of(alloc, arguments)?;
            script.make(kind_or_attr(given), Making::Native(native, parts))
        }
    }
}
