//! What natives make of attributes.

ghost use Rattle.std.specs.Prelude.{◌≡◌, ◌≤◌, ◌+◌, ◌*◌, ◌%◌, ◌^◌, ◌<◌, IfOk};
ghost use Rattle.mlir_tree.specs.Tree.{int_attr};
ghost use Rattle.mlir_tree.specs.Range.{IsInRange};
ghost use Rattle.native_set.specs.Arithmetic as spec;
ghost use Rattle.native_set.specs.Answers.{Gives};
ghost use Rattle.native_set.specs.Laws.{HasNumbers};

use mlir_tree::attr::{Attr, AttrNode};
use mlir_tree::number::Number;
use mlir_tree::refusal::Refusal;
use mlir_tree::sign::Sign;
use mlir_tree::ty::{Ty, TyNode};
use std::alloc::{AllocError, Global};

/// The attributes aren't integers of one type.
#[derive(Clone, Copy, Debug, PartialEq, Eq)]
pub struct Refused;

/// Whether the attribute is an integer.
pub fn is_int(a: &Attr) -> bool
    ensures { result ≡ spec.is_int a.now }
{
    matches!(&a.node, AttrNode::Int(_, _))
}

/// Whether the attribute is an integer with the value 0.
pub fn is_zero(a: &Attr) -> bool
    ensures { result ≡ spec.is_zero a.now }
{
    match &a.node {
        AttrNode::Int(number, _) => number.mag == 0,
        _ => false,
    }
}

/// The bits of a number in two's complement at 128 bits.
fn bits(number: Number) -> u128
    ensures { result ≡ spec.residue 128 (spec.value number) }
{
    if number.neg {
        0u128.wrapping_sub(number.mag)
    } else {
        number.mag
    }
}

/// The lowest bits, as many as the width says.
fn low(width: u32, bits: u128) -> u128
    requires { width ≤ 128 }
    ensures { result ≡ bits % 2 ^ width }
{
    if width == 0 {
        return 0;
    }
    bits & (u128::MAX >> (128 - width))
}

/// The number of two's complement at this width with these bits.
fn complement(width: u32, bits: u128) -> Number
    requires width { width ≤ 128 }
    requires small { bits < 2 ^ width }
    ensures { result ≡ spec.complement width bits }
{
    if width == 0 || bits < 1u128 << (width - 1) {
        return Number {
            neg: false,
            mag: bits,
        };
    }
    Number {
        neg: true,
        mag: (u128::MAX >> (128 - width)) - bits + 1,
    }
}

/// The number of the type with these lowest bits.
fn number_of(ty: &Ty, bits: u128) -> Number
    requires { HasNumbers ty.now }
    ensures { result ≡ spec.number_of ty.now (bits % 2 ^ spec.width ty.now) }
{
    match &ty.node {
        TyNode::Int(Sign::Unsigned, width) => Number {
            neg: false,
            mag: low(*width, bits),
        },
        TyNode::Int(_, width) => complement(*width, low(*width, bits)),
        TyNode::Index => complement(64, low(64, bits)),
        _ => Number { neg: false, mag: 0 },
    }
}

/// The integer of the type with these lowest bits.
fn integer(alloc: Global, ty: &Ty, bits: u128) -> Result<Attr, AllocError>
    requires { HasNumbers ty.now }
    ensures { IfOk result (λ a. a ≡ int_attr (spec.number_of ty.now (bits % 2 ^ spec.width ty.now)) ty.now) }
{
    Ok(Attr::int(number_of(ty, bits), ty.copy(alloc)?))
}

/// The sum modulo two to the width, in the range of the type.
pub fn add_int(alloc: Global, a: &Attr, b: &Attr) -> Result<Attr, Refusal<Refused>>
    ensures { Gives result (spec.sum a.now b.now) }
{
    match (&a.node, &b.node) {
        (AttrNode::Int(m, t), AttrNode::Int(n, u)) => {
            if !t.equal(u) {
                return Err(Refusal::Fault(Refused));
            }
            Ok(integer(alloc, t, bits(*m).wrapping_add(bits(*n)))?)
        }
        _ => Err(Refusal::Fault(Refused)),
    }
}

/// The product modulo two to the width, in the range of the type.
pub fn mul_int(alloc: Global, a: &Attr, b: &Attr) -> Result<Attr, Refusal<Refused>>
    ensures { Gives result (spec.product a.now b.now) }
{
    match (&a.node, &b.node) {
        (AttrNode::Int(m, ty), AttrNode::Int(n, other)) => {
            if !ty.equal(other) {
                return Err(Refusal::Fault(Refused));
            }
            Ok(integer(alloc, ty, bits(*m).wrapping_mul(bits(*n)))?)
        }
        _ => Err(Refusal::Fault(Refused)),
    }
}

/// Zero less the value modulo two to the width, in the range of the type.
pub fn neg_int(alloc: Global, a: &Attr) -> Result<Attr, Refusal<Refused>>
    ensures { Gives result (spec.negative a.now) }
{
    match &a.node {
        AttrNode::Int(number, ty) => Ok(integer(alloc, ty, 0u128.wrapping_sub(bits(*number)))?),
        _ => Err(Refusal::Fault(Refused)),
    }
}
