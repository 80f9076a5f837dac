//! From the tree of a file to its rows.

ghost use Rattle.std.specs.Prelude.{◌≡◌, ◌≤◌, [], ◌∷◌, length, Ok, IfOk, OnOk, None};
ghost use Rattle.mlir_tree.specs.WellFormed.{HomesAreLower, IsWellFormed};
ghost use Rattle.mlir_attributes.specs.Input.{Gives};
ghost use Rattle.mlir_parse.specs.Limits.{KeepsLimits};
ghost use Rattle.mlir_parse.specs.SynTree.{operations};
ghost use Rattle.mlir_parse.specs.Limits.{operations_count, AreOperationsKept, IsOperationKept};
ghost use Rattle.mlir_resolve.specs.Laid.{has_no_values, is_module, region, implied_module, implied_row};
ghost use Rattle.mlir_resolve.specs.Resolving.{resolved, slots_of};
ghost use Rattle.mlir_resolve.specs.Walk.{after, head_of, operation_walk, walked};

use crate::scope::{Refused, Scope};
use crate::walk::{walk_op, walk_ops};
use mlir_attributes::fault::ModFault;
use mlir_parse::syn::{Syn, SynOp};
use mlir_tree::refusal::Refusal;
use mlir_tree::row::{Home, Row};
use mlir_tree::rows::{RowList, Rows};
use mlir_tree::value::ValList;
use shared_list::Shared;
use shared_text::SharedText;
use sqlite_items::Items;
use std::alloc::{AllocError, Global};

/// Whether the operation has neither operands nor results.
fn has_no_values(op: &SynOp) -> bool
    ensures { result ≡ has_no_values (head_of op.now) }
{
    op.operands.len() == 0 && op.result_types.len() == 0
}

/// Whether the operation is a module.
fn is_module(op: &SynOp) -> bool
    ensures { result ≡ is_module op.now }
{
    if op.regions.len() != 1 {
        return false;
    }
    if op.name.as_slice() != b"builtin.module".as_slice() {
        return false;
    }
    has_no_values(op)
}

/// The row of a module that isn't written, which has one region.
fn module_row(alloc: Global) -> Result<Row, AllocError>
    ensures { IfOk result (λ row. row ≡ implied_row) }
{
    let mut regions = Items::new(alloc);
    regions.push(Shared::empty())?;
    Ok(Row {
        id: 0,
        home: None,
        name: SharedText::from_slice(alloc, b"builtin.module")?,
        operands: ValList::empty(),
        results: Shared::empty(),
        props: Shared::empty(),
        attrs: Shared::empty(),
        regions: Shared::new(alloc, regions)?,
    })
}

/// The rows of the module that is written.
fn written_rows(alloc: Global, file: &[SynOp], op: &SynOp) -> Result<RowList, Refused>
    requires few { operations_count (operations (op.now ∷ [])) ≤ 1000001 }
    requires kept { IsOperationKept op.now }
    ensures exact { Gives result (after (operation_walk file.now [] None op.now ([], [])) (λ s. Ok s.1)) }
    ensures few { IfOk result (λ rows. length rows ≤ 1000001) }
{
    let mut outer = Items::new(alloc);
    let mut scope = Scope::new(alloc);
    let mut rows = Items::new(alloc);
    walk_op(alloc, file, &mut outer, &mut scope, &mut rows, None, op)?;
    Ok(rows)
}

/// The rows of a module that isn't written, and of the operations in it.
fn implied_rows(alloc: Global, file: &[SynOp]) -> Result<RowList, Refused>
    requires few { operations_count (operations file.now) ≤ 1000000 }
    requires kept { AreOperationsKept (operations file.now) }
    ensures exact { Gives result (after (operation_walk file.now [] None (implied_module file.now) ([], [])) (λ s. Ok s.1)) }
    ensures few { IfOk result (λ rows. length rows ≤ 1000001) }
{
    let mut outer = Items::new(alloc);
    outer.push(Scope::new(alloc))?;
    let mut scope = Scope::new(alloc);
    let mut rows = Items::new(alloc);
    rows.push(module_row(alloc)?)?;
    let home = Home { row: 0, region: 0 };
    walk_ops(alloc, file, &mut outer, &mut scope, &mut rows, home, file)?;
    Ok(rows)
}

/// The rows of the module that the file is or stands in.
#[tactic(auto, unfolding(crate::specs::Walk::walked))]
fn module_rows(alloc: Global, file: &Syn) -> Result<Rows, Refused>
    requires kept { KeepsLimits file.now }
    ensures exact { Gives result (walked file.now) }
    ensures few { IfOk result (λ m. m.next ≤ 1000001) }
{
    let rows = match file.ops.as_slice() {
        [op] if is_module(op) => written_rows(alloc, file.ops.as_slice(), op)?,
        ops => implied_rows(alloc, ops)?,
    };
    let next = rows.len() as u32;
    Ok(Rows { rows, next })
}

/// The rows of a tree, or its first fault: in text order, in each operation first what comes before its regions, then its
/// regions, then the names of its results.
pub fn resolve(alloc: Global, file: &Syn) -> Result<Rows, Refusal<ModFault>>
    requires kept { KeepsLimits file.now }
    // The rows or the first fault, unless memory fails.
    ensures exact { Gives result (resolved file.now) }
    // The rows are a module.
    ensures well_formed { IfOk result (λ m. IsWellFormed m) }
    // Each row's number is above that of the row in which it stands.
    ensures homes { IfOk result (λ m. HomesAreLower m.rows) }
    // A module has at most 1,000,001 rows, and at most 16,000,000 operands and results.
    ensures few { IfOk result (λ m. m.next ≤ 1000001) }
    ensures slots { IfOk result (λ m. slots_of m.rows ≤ 16000000) }
{
    module_rows(alloc, file)
}
