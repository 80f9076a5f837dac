//! The way through a tree.

ghost use Rattle.std.specs.Prelude.{◌≡◌, ◌+◌, ◌∷◌, ◌++◌, [], ◌≤◌, length, OnOk};
ghost use Rattle.mlir_parse.specs.SynTree.{operations};
ghost use Rattle.mlir_parse.specs.SynView.{region_tree};
ghost use Rattle.mlir_parse.specs.Limits.{operation_count, operations_count, region_operation_count, IsOperationKept, AreOperationsKept, AreRegionsKept};
ghost use Rattle.mlir_resolve.specs.Scopes.{Leaves};
ghost use Rattle.mlir_resolve.specs.Walk.{operation_walk, operations_walk, regions_walk, region_walk};

use crate::head::checked_row;
use crate::puts::{put_args, put_results_of};
use crate::scope::{Refused, Scope};
use mlir_parse::syn::{SynOp, SynRegion};
use mlir_tree::row::Home;
use mlir_tree::rows::RowList;
use sqlite_items::Items;
use std::alloc::Global;
use std::mem::replace;

/// Goes through an operation, whose names come into the scope of its region behind it. The scopes of the regions around
/// are in `outer`, the innermost last.
#[cycle(walk)]
pub fn walk_op<'t>(
    alloc: Global,
    file: &[SynOp],
    outer: &mut Items<Scope<'t>>,
    scope: &mut Scope<'t>,
    rows: &mut RowList,
    home: Option<Home>,
    op: &'t SynOp,
) -> Result<(), Refused>
    requires few { length rows.old + operation_count op.now ≤ 1000001 }
    requires kept { IsOperationKept op.now }
    ensures walked { Leaves (operation_walk file.now outer.old home op.now (scope.old, rows.old)) result (scope.new, rows.new) }
    ensures around { OnOk result (outer.new ≡ outer.old) }
    ensures counted { OnOk result (length rows.new ≡ length rows.old + operation_count op.now) }
{
    let id = rows.len() as u32;
    let row = checked_row(alloc, file, outer.as_slice(), scope, id, home, op)?;
    rows.push(row)?;
    walk_inner(alloc, file, outer, scope, rows, id, op.regions.as_slice())?;
    put_results_of(scope, id, op)
}

/// Goes through the regions of row `d`, which stands in the region of the scope.
#[cycle(walk)]
fn walk_inner<'t>(
    alloc: Global,
    file: &[SynOp],
    outer: &mut Items<Scope<'t>>,
    scope: &mut Scope<'t>,
    rows: &mut RowList,
    d: u32,
    regions: &'t [SynRegion],
) -> Result<(), Refused>
    requires few { length rows.old + region_operation_count (region_tree regions.now) ≤ 1000001 }
    requires short { length regions.now ≤ 65535 }
    requires kept { AreRegionsKept (region_tree regions.now) }
    ensures walked { Leaves (regions_walk file.now (outer.old ++ scope.old ∷ []) d 0 (region_tree regions.now) rows.old) result rows.new }
    ensures scope { OnOk result (scope.new ≡ scope.old) }
    ensures around { OnOk result (outer.new ≡ outer.old) }
    ensures counted { OnOk result (length rows.new ≡ length rows.old + region_operation_count (region_tree regions.now)) }
{
    outer.push(replace(scope, Scope::new(alloc)))?;
    walk_regions(alloc, file, outer, rows, d, regions)?;
    if let Some(own) = outer.pop() {
        let _ = replace(scope, own);
    }
    Ok(())
}

#[cycle(walk)]
fn walk_regions<'t>(
    alloc: Global,
    file: &[SynOp],
    outer: &mut Items<Scope<'t>>,
    rows: &mut RowList,
    d: u32,
    regions: &'t [SynRegion],
) -> Result<(), Refused>
    requires few { length rows.old + region_operation_count (region_tree regions.now) ≤ 1000001 }
    requires short { length regions.now ≤ 65535 }
    requires kept { AreRegionsKept (region_tree regions.now) }
    ensures walked { Leaves (regions_walk file.now outer.old d 0 (region_tree regions.now) rows.old) result rows.new }
    ensures around { OnOk result (outer.new ≡ outer.old) }
    ensures counted { OnOk result (length rows.new ≡ length rows.old + region_operation_count (region_tree regions.now)) }
{
    for g in 0..regions.len() {
        walk_region(alloc, file, outer, rows, d, g as u16, &regions[g])?;
    }
    Ok(())
}

#[cycle(walk)]
fn walk_region<'t>(
    alloc: Global,
    file: &[SynOp],
    outer: &mut Items<Scope<'t>>,
    rows: &mut RowList,
    d: u32,
    g: u16,
    region: &'t SynRegion,
) -> Result<(), Refused>
    requires few { length rows.old + operations_count (operations region.now.ops) ≤ 1000001 }
    requires short { length region.now.args ≤ 65535 }
    requires kept { AreOperationsKept (operations region.now.ops) }
    ensures walked { Leaves (region_walk file.now outer.old d g region.now.args (operations region.now.ops) rows.old) result rows.new }
    ensures around { OnOk result (outer.new ≡ outer.old) }
    ensures counted { OnOk result (length rows.new ≡ length rows.old + operations_count (operations region.now.ops)) }
{
    let mut scope = Scope::new(alloc);
    put_args(&mut scope, d, g, region.args.as_slice())?;
    let home = Home { row: d, region: g };
    let ops = region.ops.as_slice();
    walk_ops(alloc, file, outer, &mut scope, rows, home, ops)
}

/// Goes through the operations of a region.
#[cycle(walk)]
pub fn walk_ops<'t>(
    alloc: Global,
    file: &[SynOp],
    outer: &mut Items<Scope<'t>>,
    scope: &mut Scope<'t>,
    rows: &mut RowList,
    home: Home,
    ops: &'t [SynOp],
) -> Result<(), Refused>
    requires few { length rows.old + operations_count (operations ops.now) ≤ 1000001 }
    requires kept { AreOperationsKept (operations ops.now) }
    ensures walked { Leaves (operations_walk file.now outer.old home (operations ops.now) (scope.old, rows.old)) result (scope.new, rows.new) }
    ensures around { OnOk result (outer.new ≡ outer.old) }
    ensures counted { OnOk result (length rows.new ≡ length rows.old + operations_count (operations ops.now)) }
{
    for op in ops {
        walk_op(alloc, file, outer, scope, rows, Some(home), op)?;
    }
    Ok(())
}
