//! Numbers and the attributes that they are.

ghost use Rattle.std.specs.Prelude.{◌≡◌, ◌≤◌, ◌<◌, ◌+◌, ◌*◌, true, false, IfOk, IfSome};
ghost use Rattle.std.specs.Str.Parse.{digits_value};
ghost use Rattle.std.specs.Char.{digit_value};
ghost use Rattle.mlir_tree.specs.Range.{IsInRange};
ghost use Rattle.mlir_tree.specs.Tree.{int};
ghost use Rattle.mlir_tree.specs.declared.sign.Sign.TheVariants.{Signless};
ghost use Rattle.mlir_attributes.specs.Input.{Gives};
ghost use Rattle.mlir_attributes.specs.Numbers as spec;
ghost use Rattle.mlir_attributes.specs.Attributes as reading;

use crate::fault::ModKind;
use crate::reader::{Refused, fail_at, joined};
use mlir_tree::attr::Attr;
use mlir_tree::number::Number;
use mlir_tree::sign::Sign;
use mlir_tree::text::Text;
use mlir_tree::ty::{Ty, TyNode};
use shared_text::SharedText;
use std::alloc::{AllocError, Global};

/// The value of a digit, or 36.
fn digit_value(b: u8) -> u8
    ensures value { result ≡ digit_value b }
    ensures small { result ≤ 36 }
{
    match b {
        b'0'..=b'9' => b - b'0',
        b'A'..=b'Z' => b - b'A' + 10,
        b'a'..=b'z' => b - b'a' + 10,
        _ => 36,
    }
}

/// The number with one more digit, if it is below 2^128.
fn with_digit(value: u128, radix: u8, b: u8) -> Option<u128>
    ensures { result ≡ spec.if_short (value * radix + digit_value b) }
{
    value
        .checked_mul(u128::from(radix))?
        .checked_add(u128::from(digit_value(b)))
}

/// The number that the digits write, if it is below 2^128.
pub fn magnitude(radix: u8, digits: &[u8]) -> Option<u128>
    requires { 1 ≤ radix }
    ensures { result ≡ spec.if_short (digits_value radix digits.now) }
{
    let mut value = 0;
    for b in digits {
        match with_digit(value, radix, *b) {
            Some(more) => value = more,
            None => return None,
        }
    }
    Some(value)
}

/// The number that an integer token writes, if it is below 2^128.
pub fn token_value(text: &[u8]) -> Option<u128>
    ensures { result ≡ spec.if_short (spec.token_value text.now) }
{
    match text {
        [_, b'x', digits @ ..] => magnitude(16, digits),
        _ => magnitude(10, text),
    }
}

/// Whether the token of a number is hexadecimal.
pub fn is_hex(text: &[u8]) -> bool
    ensures { result ≡ spec.is_hex text.now }
{
    text.len() > 1 && text[1] == b'x'
}

/// A number by its sign and magnitude. Zero isn't negative.
fn signed(neg: bool, mag: u128) -> Number
    ensures { result ≡ spec.signed neg mag }
{
    Number {
        neg: neg && !(mag == 0),
        mag,
    }
}

/// Whether the number is a value of the type.
#[tactic(auto, using(crate::proofs::Values::same_test))]
fn is_value(ty: &Ty, number: Number) -> bool
    ensures value { result ≡ spec.is_value ty.now number }
    ensures in_range { result ≡ true → IsInRange ty.now number }
{
    ty.holds(number)
}

/// The value of a signless type with the same bits as a number that is too large for a signed one.
fn same_bits(width: u32, number: Number) -> Number
    requires width { width ≤ 128 }
    requires some { 0 < number.mag }
    ensures { result ≡ spec.same_bits width number }
{
    let mag = if width == 128 {
        u128::MAX - number.mag + 1
    } else {
        (1u128 << width).saturating_sub(number.mag)
    };
    Number { neg: true, mag }
}

fn by_bits(ty: &Ty, number: Number) -> Option<Number>
    ensures value { result ≡ spec.by_bits ty.now number }
    ensures in_range { IfSome result (λ n. IsInRange ty.now n) }
{
    if is_value(ty, number) {
        Some(number)
    } else {
        None
    }
}

/// The value that a literal number has at a signless type of this width.
fn signless_value(ty: &Ty, width: u32, number: Number) -> Option<Number>
    requires signless { ty.now ≡ int Signless width }
    requires width { width ≤ 128 }
    ensures value { result ≡ spec.value_at ty.now number }
    ensures in_range { IfSome result (λ n. IsInRange ty.now n) }
{
    if is_value(ty, number) {
        return Some(number);
    }
    if !number.neg && number.mag > 0 {
        return by_bits(ty, same_bits(width, number));
    }
    None
}

/// The value that a literal number has at an integer type: itself, or for a signless type the value of the same bits.
fn value_at(ty: &Ty, number: Number) -> Option<Number>
    requires { spec.is_wide ty.now ≡ false }
    ensures value { result ≡ spec.value_at ty.now number }
    ensures in_range { IfSome result (λ n. IsInRange ty.now n) }
{
    match &ty.node {
        TyNode::Int(Sign::Signless, width) => signless_value(ty, *width, number),
        TyNode::Int(_, _) => by_bits(ty, number),
        TyNode::Index => by_bits(ty, number),
        TyNode::Func(_, _) => None,
        TyNode::Word(_) => None,
    }
}

/// Whether the type is an integer type that is too wide to carry a value.
fn is_wide(ty: &Ty) -> bool
    ensures { result ≡ spec.is_wide ty.now }
{
    match &ty.node {
        TyNode::Int(_, width) => *width > 128,
        _ => false,
    }
}

/// Whether the type is an integer type or `index`.
fn is_integral(ty: &Ty) -> bool
    ensures { result ≡ spec.is_integral ty.now }
{
    matches!(&ty.node, TyNode::Int(_, _) | TyNode::Index)
}

/// The integer that a token writes at a type.
fn value_of(ty: &Ty, neg: bool, text: &[u8]) -> Option<Number>
    requires { spec.is_wide ty.now ≡ false }
    ensures value { result ≡ reading.value_of ty.now neg (spec.if_short (spec.token_value text.now)) }
    ensures in_range { IfSome result (λ n. IsInRange ty.now n) }
{
    value_at(ty, signed(neg, token_value(text)?))
}

/// The bytes of a number with its sign.
fn signed_text(alloc: Global, neg: bool, text: &[u8]) -> Result<Text, AllocError>
    ensures { IfOk result (λ t. t ≡ reading.signed_text neg text.now) }
{
    if neg {
        joined(alloc, b"-", text)
    } else {
        SharedText::from_slice(alloc, text)
    }
}

/// The attribute of a number that begins at `at` and whose type begins at `ty_at`.
#[tactic(auto, unfolding(crate::specs::Attributes::number_of))]
pub fn number_of(
    alloc: Global,
    at: usize,
    ty_at: usize,
    neg: bool,
    float: bool,
    text: &[u8],
    ty: Ty,
) -> Result<Attr, Refused>
    ensures { Gives result (reading.number_of at ty_at neg float text.now ty) }
{
    if is_wide(&ty) {
        return Err(fail_at(ModKind::WideInt, ty_at));
    }
    if !is_integral(&ty) {
        if float || is_hex(text) {
            return Ok(Attr::num(signed_text(alloc, neg, text)?, ty));
        }
        return Err(fail_at(ModKind::IntRange, at));
    }
    if float {
        return Err(fail_at(ModKind::IntRange, at));
    }
    match value_of(&ty, neg, text) {
        Some(number) => Ok(Attr::int(number, ty)),
        None => Err(fail_at(ModKind::IntRange, at)),
    }
}
