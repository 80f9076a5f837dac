//! The texts of literals.

ghost use Rattle.std.specs.Prelude.{◌≡◌, IfOk, IsUtf8, is_ok};
ghost use Rattle.mlir_attributes.specs.Types.{type_of};
ghost use Rattle.mlir_attributes.specs.Attributes.{attr_of};
ghost use Rattle.pdll_syntax.specs.ExprView.{expr_form};
ghost use Rattle.pdll_types.specs.Accepted.{faults};
ghost use Rattle.pdll_types.specs.Literals.{is_attr_text, is_type_text, bad_literal};
ghost use Rattle.pdll_types.specs.Walk.{all_noted};
ghost use Rattle.pdll_syntax.specs.declared.fault.PatKind.TheVariants.{BadLiteral};

use crate::walk::noted_where;
use mlir_attributes::{parse_attr, parse_ty};
use mlir_tree::refusal::Refusal;
use pdll_syntax::expr::ExprForm;
use pdll_syntax::fault::{PatFault, PatKind};
use simdutf8::compat;
use std::alloc::{AllocError, Global};

fn reads_attr(alloc: Global, bytes: &[u8]) -> Result<bool, AllocError>
    requires { IsUtf8 bytes.now }
    ensures { IfOk result (λ b. b ≡ is_ok (attr_of bytes.now)) }
{
    match parse_attr(alloc, bytes) {
        Ok(_) => Ok(true),
        Err(Refusal::Fault(_)) => Ok(false),
        Err(Refusal::NoMemory) => Err(AllocError),
    }
}

fn reads_type(alloc: Global, bytes: &[u8]) -> Result<bool, AllocError>
    requires { IsUtf8 bytes.now }
    ensures { IfOk result (λ b. b ≡ is_ok (type_of bytes.now)) }
{
    match parse_ty(alloc, bytes) {
        Ok(_) => Ok(true),
        Err(Refusal::Fault(_)) => Ok(false),
        Err(Refusal::NoMemory) => Err(AllocError),
    }
}

/// Whether the bytes spell an attribute.
#[tactic(auto, unfolding(crate::specs::Literals::is_attr_text), using(crate::proofs::Utf8::all_utf8, crate::proofs::Utf8::not_utf8))]
fn is_attr_text(alloc: Global, bytes: &[u8]) -> Result<bool, AllocError>
    ensures { IfOk result (λ b. b ≡ is_attr_text bytes.now) }
{
    match compat::from_utf8(bytes) {
        Ok(_) => reads_attr(alloc, bytes),
        Err(_) => Ok(false),
    }
}

/// Whether the bytes spell a type.
#[tactic(auto, unfolding(crate::specs::Literals::is_type_text), using(crate::proofs::Utf8::all_utf8, crate::proofs::Utf8::not_utf8))]
fn is_type_text(alloc: Global, bytes: &[u8]) -> Result<bool, AllocError>
    ensures { IfOk result (λ b. b ≡ is_type_text bytes.now) }
{
    match compat::from_utf8(bytes) {
        Ok(_) => reads_type(alloc, bytes),
        Err(_) => Ok(false),
    }
}

/// The first fault so far, with that of a literal.
pub fn literal_noted(
    alloc: Global,
    least: Option<PatFault>,
    form: &ExprForm,
) -> Result<Option<PatFault>, AllocError>
    ensures { IfOk result (λ l. l ≡ all_noted (faults BadLiteral (bad_literal (expr_form form.now))) least) }
{
    match form {
        ExprForm::AttrLit(literal) => {
            let good = is_attr_text(alloc, literal.bytes.as_slice())?;
            Ok(noted_where(least, !good, PatKind::BadLiteral, literal.at))
        }
        ExprForm::TyLit(literal) => {
            let good = is_type_text(alloc, literal.bytes.as_slice())?;
            Ok(noted_where(least, !good, PatKind::BadLiteral, literal.at))
        }
        _ => Ok(least),
    }
}
