//! The native of a name and kinds.

ghost use Rattle.std.specs.Prelude.{◌≡◌, Some, None, bytes_eq};
ghost use Rattle.native_set.specs.Table as spec;
ghost use Rattle.native_set.specs.declared.native.Kind.TheVariants as kind;

use crate::native::{Constraint, Kind, Rewrite};

fn is_name(name: &[u8], other: &[u8]) -> bool
    ensures { result ≡ bytes_eq name.now other.now }
{
    name == other
}

fn are_kinds(kinds: &[Kind], others: &[Kind]) -> bool
    ensures { result ≡ spec.are_kinds kinds.now others.now }
{
    kinds == others
}

/// Whether the constraint has this name and these kinds.
fn is_constraint(name: &[u8], params: &[Kind], candidate: Constraint) -> bool
    ensures { result ≡ spec.is_called (spec.constraint candidate) name.now params.now }
{
    is_name(name, candidate.name()) && are_kinds(params, candidate.params())
}

/// Whether the rewrite has this name and these kinds.
fn is_rewrite(name: &[u8], params: &[Kind], candidate: Rewrite) -> bool
    ensures { result ≡ spec.is_called (spec.rewrite candidate) name.now params.now }
{
    is_name(name, candidate.name()) && are_kinds(params, candidate.params())
}

/// The constraint of this name with exactly these kinds.
pub fn constraint(name: &[u8], params: &[Kind]) -> Option<Constraint>
    ensures { result ≡ spec.constraint_of name.now params.now }
{
    if is_constraint(name, params, Constraint::HasOneUse) {
        return Some(Constraint::HasOneUse);
    }
    if is_constraint(name, params, Constraint::HasNoUse) {
        return Some(Constraint::HasNoUse);
    }
    if is_constraint(name, params, Constraint::IsInt) {
        return Some(Constraint::IsInt);
    }
    if is_constraint(name, params, Constraint::IsZero) {
        return Some(Constraint::IsZero);
    }
    if is_constraint(name, params, Constraint::SameBlock) {
        return Some(Constraint::SameBlock);
    }
    if is_constraint(name, params, Constraint::NoRegions) {
        return Some(Constraint::NoRegions);
    }
    None
}

/// The rewrite of this name with exactly these kinds.
pub fn rewrite(name: &[u8], params: &[Kind], gives: Option<Kind>) -> Option<Rewrite>
    ensures { result ≡ spec.rewrite_of name.now params.now gives }
{
    match gives {
        Some(Kind::Attr) => attribute_rewrite(name, params),
        _ => None,
    }
}

/// The rewrite of this name with exactly these kinds that gives an attribute.
fn attribute_rewrite(name: &[u8], params: &[Kind]) -> Option<Rewrite>
    ensures { result ≡ spec.rewrite_of name.now params.now (Some kind.Attr) }
{
    if is_rewrite(name, params, Rewrite::AddInt) {
        return Some(Rewrite::AddInt);
    }
    if is_rewrite(name, params, Rewrite::MulInt) {
        return Some(Rewrite::MulInt);
    }
    if is_rewrite(name, params, Rewrite::NegInt) {
        return Some(Rewrite::NegInt);
    }
    None
}
