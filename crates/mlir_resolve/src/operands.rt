//! The operands of an operation.

ghost use Rattle.std.specs.Prelude.{◌≡◌, ◌<◌, length};
ghost use Rattle.std.specs.Option.{option_copied};
ghost use Rattle.mlir_resolve.specs.Resolving.{or_then};
ghost use Rattle.mlir_resolve.specs.Walk.{names_in};
ghost use Rattle.mlir_resolve.specs.Heads.{Means, Takes, type_step};

use crate::named::Named;
use crate::scope::{Refused, Scope};
use crate::sight::{defines, find_meaning};
use mlir_attributes::fault::{ModFault, ModKind};
use mlir_parse::syn::{SynOp, SynUse};
use mlir_tree::refusal::Refusal;
use mlir_tree::ty::Ty;
use mlir_tree::value::ValList;
use sqlite_items::{Items, at};
use std::alloc::Global;

/// The operands of an operation, and the fault of the first whose type isn't the one that is written.
#[derive(Drop)]
pub struct Taken {
    pub values: ValList,
    pub differs: Option<ModFault>,
}

/// What a use means.
#[tactic(auto, unfolding(crate::specs::Resolving::use_fault))]
fn meaning<'t>(
    file: &[SynOp],
    outer: &[Scope<'t>],
    scope: &Scope<'t>,
    used: &SynUse,
) -> Result<Named<'t>, Refused>
    ensures { Means (names_in file.now outer.now scope.now) used.now result }
{
    let (name, at) = (used.name.as_slice(), used.at);
    let kind = match find_meaning(outer, scope, name) {
        Some(named) if (used.index as usize) < named.types.len() => return Ok(named),
        Some(_) => ModKind::ResultIndex,
        None if defines(file, name) => ModKind::NotVisible,
        None => ModKind::Undefined,
    };
    Err(Refusal::Fault(ModFault { kind, at }))
}

/// The fault of a use whose value has another type than is written for it.
#[tactic(auto, unfolding(crate::specs::Resolving::use_type))]
fn type_fault<'t>(named: Named<'t>, used: &SynUse, written: Option<&Ty>) -> Option<ModFault>
    requires { used.now.index < length named.types.now }
    ensures { result ≡ type_step named.entry.types.now used.now (option_copied written.entry) }
{
    match written {
        Some(ty) if !named.types[used.index as usize].cmp(ty).is_eq() => Some(ModFault {
            kind: ModKind::TypeDiffers,
            at: used.at,
        }),
        _ => None,
    }
}

/// The first of the fault that is known and that of a use.
fn first_fault<'t>(
    known: Option<ModFault>,
    named: Named<'t>,
    used: &SynUse,
    written: Option<&Ty>,
) -> Option<ModFault>
    requires { used.now.index < length named.types.now }
    ensures { result ≡ or_then known (type_step named.entry.types.now used.now (option_copied written.entry)) }
{
    match known {
        Some(fault) => Some(fault),
        None => type_fault(named, used, written),
    }
}

/// The operands that are used so, for which these types are written.
pub fn operands<'t>(
    alloc: Global,
    file: &[SynOp],
    outer: &[Scope<'t>],
    scope: &Scope<'t>,
    uses: &[SynUse],
    written: &[Ty],
) -> Result<Taken, Refused>
    ensures { Takes (names_in file.now outer.now scope.now) uses.now written.now result }
{
    let mut values = Items::new(alloc);
    let mut differs = None;
    for i in 0..uses.len() {
        let used = &uses[i];
        let named = meaning(file, outer, scope, used)?;
        values.push(named.value_at(used.index))?;
        differs = first_fault(differs, named, used, at(written, i));
    }
    Ok(Taken {
        values: ValList::new(alloc, values)?,
        differs,
    })
}
