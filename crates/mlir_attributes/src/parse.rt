//! Types and attributes that are the whole of a text.

ghost use Rattle.std.specs.Prelude.{◌≡◌, ◌≤◌, length, IfOk, IsUtf8, Ok, Err, true};
ghost use Rattle.std.specs.Str.Lossy.{utf8_valid_len};
ghost use Rattle.mlir_attributes.specs.Faults.{is_type_fault, is_attr_fault};
ghost use Rattle.mlir_attributes.specs.Place.{fault};
ghost use Rattle.mlir_attributes.specs.Input.{Gives};
ghost use Rattle.mlir_attributes.specs.Types.{type_of};
ghost use Rattle.mlir_attributes.specs.Attributes.{attr_of};
ghost use Rattle.mlir_attributes.specs.TypeGrammar.{IsTypeText};
ghost use Rattle.mlir_attributes.specs.AttributeGrammar.{IsAttrText};
ghost use Rattle.mlir_attributes.specs.declared.fault.ModKind.TheVariants.{NotUtf8};

use crate::attributes::whole_attr;
use crate::fault::{ModFault, ModKind};
use crate::reader::fail_at;
use crate::types::whole_ty;
use mlir_tree::attr::Attr;
use mlir_tree::refusal::Refusal;
use mlir_tree::ty::Ty;
use simdutf8::compat::from_utf8;
use std::alloc::Global;

/// The type that the whole text is. No alias is defined.
pub fn parse_ty(alloc: Global, bytes: &[u8]) -> Result<Ty, Refusal<ModFault>>
    // What is read is spelled so.
    ensures found { IfOk result (λ t. IsTypeText bytes.now t) }
    // What is spelled so is read, unless memory fails.
    ensures only { (t : _) → IsTypeText bytes.now t → Gives result (Ok t) }

    // What the text is read as, or its first fault, unless memory fails.
    ensures value { IsUtf8 bytes.now → Gives result (type_of bytes.now) }
    // The place of `NotUtf8` is the first byte that breaks UTF-8.
    ensures not_utf8 { ¬ IsUtf8 bytes.now → result ≡ Err (Refusal.Fault (fault NotUtf8 (utf8_valid_len bytes.now))) }
    ensures text { IfOk result (λ _. IsUtf8 bytes.now) }
    // Which faults may come, and where.
    ensures kinds { (f : _) → result ≡ Err (Refusal.Fault f) → is_type_fault f.kind ≡ true }
    ensures within { (f : _) → result ≡ Err (Refusal.Fault f) → f.at ≤ length bytes.now }
{
    match from_utf8(bytes) {
        Ok(_) => whole_ty(alloc, bytes),
        Err(error) => Err(fail_at(ModKind::NotUtf8, error.valid_up_to())),
    }
}

/// The attribute that the whole text is. No alias is defined.
pub fn parse_attr(alloc: Global, bytes: &[u8]) -> Result<Attr, Refusal<ModFault>>
    // What is read is spelled so.
    ensures found { IfOk result (λ x. IsAttrText bytes.now x) }
    // What is spelled so is read, unless memory fails.
    ensures only { (x : _) → IsAttrText bytes.now x → Gives result (Ok x) }

    // What the text is read as, or its first fault, unless memory fails.
    ensures value { IsUtf8 bytes.now → Gives result (attr_of bytes.now) }
    // The place of `NotUtf8` is the first byte that breaks UTF-8.
    ensures not_utf8 { ¬ IsUtf8 bytes.now → result ≡ Err (Refusal.Fault (fault NotUtf8 (utf8_valid_len bytes.now))) }
    ensures text { IfOk result (λ _. IsUtf8 bytes.now) }
    // Which faults may come, and where.
    ensures kinds { (f : _) → result ≡ Err (Refusal.Fault f) → is_attr_fault f.kind ≡ true }
    ensures within { (f : _) → result ≡ Err (Refusal.Fault f) → f.at ≤ length bytes.now }
{
    match from_utf8(bytes) {
        Ok(_) => whole_attr(alloc, bytes),
        Err(error) => Err(fail_at(ModKind::NotUtf8, error.valid_up_to())),
    }
}
