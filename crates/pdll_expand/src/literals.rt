//! The attributes and types that literals spell.

ghost use Rattle.std.specs.Prelude.{◌≡◌, IfOk, IsUtf8};
ghost use Rattle.mlir_attributes.specs.Types.{type_of};
ghost use Rattle.mlir_attributes.specs.Attributes.{attr_of};
ghost use Rattle.rewrite_model.specs.MatchPart.{literal_attr, literal_type, attr_spelled, type_spelled};

use mlir_attributes::{parse_attr, parse_ty};
use mlir_tree::attr::Attr;
use mlir_tree::refusal::Refusal;
use mlir_tree::ty::Ty;
use simdutf8::compat;
use std::alloc::{AllocError, Global};

fn attr_in_text(alloc: Global, bytes: &[u8]) -> Result<Attr, AllocError>
    requires { IsUtf8 bytes.now }
    ensures { IfOk result (λ a. a ≡ literal_attr (attr_of bytes.now)) }
{
    match parse_attr(alloc, bytes) {
        Ok(value) => Ok(value),
        Err(Refusal::Fault(_)) => Ok(Attr::unit()),
        Err(Refusal::NoMemory) => Err(AllocError),
    }
}

fn type_in_text(alloc: Global, bytes: &[u8]) -> Result<Ty, AllocError>
    requires { IsUtf8 bytes.now }
    ensures { IfOk result (λ t. t ≡ literal_type (type_of bytes.now)) }
{
    match parse_ty(alloc, bytes) {
        Ok(ty) => Ok(ty),
        Err(Refusal::Fault(_)) => Ok(Ty::index()),
        Err(Refusal::NoMemory) => Err(AllocError),
    }
}

/// The attribute that the bytes spell. Bytes that spell none count as the unit attribute.
#[tactic(auto, using(crate::proofs::Utf8::all_utf8, crate::proofs::Utf8::not_utf8))]
pub fn literal_attr(alloc: Global, bytes: &[u8]) -> Result<Attr, AllocError>
    ensures { IfOk result (λ a. a ≡ attr_spelled bytes.now) }
{
    match compat::from_utf8(bytes) {
        Ok(_) => attr_in_text(alloc, bytes),
        Err(_) => Ok(Attr::unit()),
    }
}

/// The type that the bytes spell. Bytes that spell none count as `index`.
#[tactic(auto, using(crate::proofs::Utf8::all_utf8, crate::proofs::Utf8::not_utf8))]
pub fn literal_type(alloc: Global, bytes: &[u8]) -> Result<Ty, AllocError>
    ensures { IfOk result (λ t. t ≡ type_spelled bytes.now) }
{
    match compat::from_utf8(bytes) {
        Ok(_) => type_in_text(alloc, bytes),
        Err(_) => Ok(Ty::index()),
    }
}
