//! An operation but for what is inside it.

ghost use Rattle.std.specs.Prelude.{◌≡◌, ◌≤◌, map, filter_map, IfOk, Ok};
ghost use Rattle.mlir_tree.specs.declared.refusal.Refusal.TheVariants.{Fault};
ghost use Rattle.mlir_attributes.specs.Input.{Gives};
ghost use Rattle.mlir_parse.specs.SynView.{region_tree};
ghost use Rattle.mlir_parse.specs.Limits.{IsOperationKept};
ghost use Rattle.mlir_resolve.specs.Laid.{argument_types, arguments_of};
ghost use Rattle.mlir_resolve.specs.Resolving.{used_value, head_fault};
ghost use Rattle.mlir_resolve.specs.Walk.{names_in, head_of, head_row, unless};

use crate::entries::{dict, least_shared_place};
use crate::operands::operands;
use crate::scope::{Refused, Scope};
use mlir_attributes::fault::{ModFault, ModKind};
use mlir_parse::syn::{SynArg, SynOp, SynRegion};
use mlir_tree::refusal::Refusal;
use mlir_tree::row::{Home, RegionList, Row};
use mlir_tree::text::copy_text;
use mlir_tree::ty::TyList;
use mlir_tree::value::ValList;
use shared_list::Shared;
use sqlite_items::Items;
use std::alloc::{AllocError, Global};

/// The types of the arguments.
fn arg_types(alloc: Global, args: &[SynArg]) -> Result<TyList, AllocError>
    ensures { IfOk result (λ ts. ts ≡ argument_types args.now) }
{
    let mut types = Items::new(alloc);
    for arg in args {
        types.push(arg.ty.copy(alloc)?)?;
    }
    Shared::new(alloc, types)
}

/// The types of the arguments of each region.
fn region_types(alloc: Global, regions: &[SynRegion]) -> Result<RegionList, AllocError>
    ensures { IfOk result (λ ts. ts ≡ map argument_types (arguments_of (region_tree regions.now))) }
{
    let mut types = Items::new(alloc);
    for region in regions {
        types.push(arg_types(alloc, region.args.as_slice())?)?;
    }
    Shared::new(alloc, types)
}

pub fn refused(kind: ModKind, at: usize) -> Refused
    ensures { result ≡ Fault (record { kind = kind; at = at }) }
{
    Refusal::Fault(ModFault { kind, at })
}

/// The operands of an operation whose head has no fault.
#[tactic(auto, unfolding(crate::specs::Resolving::head_fault))]
fn sound_operands<'t>(
    alloc: Global,
    file: &[SynOp],
    outer: &[Scope<'t>],
    scope: &Scope<'t>,
    op: &SynOp,
) -> Result<ValList, Refused>
    requires kept { IsOperationKept op.now }
    ensures { Gives result (unless (head_fault (names_in file.now outer.now scope.now) (head_of op.now)) (Ok (filter_map (used_value (names_in file.now outer.now scope.now)) (head_of op.now).operands))) }
{
    let (uses, types) = (op.operands.as_slice(), op.operand_types.as_slice());
    let taken = operands(alloc, file, outer, scope, uses, types)?;
    if uses.len() != types.len() {
        return Err(refused(ModKind::CountDiffers, op.types_at));
    }
    if let Some(fault) = taken.differs {
        return Err(Refusal::Fault(fault));
    }
    match least_shared_place(op.props.as_slice(), op.attrs.as_slice()) {
        Some(at) => Err(refused(ModKind::PropAndAttr, at)),
        None => Ok(taken.values),
    }
}

/// The row of an operation, where what comes before its regions has no fault.
#[tactic(auto, unfolding(crate::specs::Walk::head_row))]
pub fn checked_row<'t>(
    alloc: Global,
    file: &[SynOp],
    outer: &[Scope<'t>],
    scope: &Scope<'t>,
    id: u32,
    home: Option<Home>,
    op: &SynOp,
) -> Result<Row, Refused>
    requires kept { IsOperationKept op.now }
    ensures { Gives result (head_row (names_in file.now outer.now scope.now) id home op.now) }
{
    let operands = sound_operands(alloc, file, outer, scope, op)?;
    Ok(Row {
        id,
        home,
        name: copy_text(alloc, &op.name)?,
        operands,
        results: op.result_types.copy()?,
        props: dict(alloc, op.props.as_slice())?,
        attrs: dict(alloc, op.attrs.as_slice())?,
        regions: region_types(alloc, op.regions.as_slice())?,
    })
}
