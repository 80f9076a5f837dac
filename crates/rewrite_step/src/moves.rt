//! Rows that are moved from one list to another.

ghost use Rattle.std.specs.Prelude.{◌≡◌, ◌≤◌, ◌++◌, length, take, drop, reverse, OnOk, IfOk};

use mlir_tree::rows::{RowList, Rows};
use sqlite_items::Items;
use std::alloc::{AllocError, Global};

// Moves the rows from a place on behind others, the last first.
fn move_from(rows: &mut RowList, at: usize, moved: &mut RowList) -> Result<(), AllocError>
    requires { at ≤ length rows.old }
    ensures front { OnOk result (rows.new ≡ take at rows.old) }
    ensures moved { OnOk result (moved.new ≡ moved.old ++ reverse (drop at rows.old)) }
{
    while rows.len() > at {
        match rows.pop() {
            Some(row) => moved.push(row)?,
            None => unreachable!(),
        }
    }
    Ok(())
}

// The rows from a place on, which are taken off.
fn split_off(alloc: Global, rows: &mut RowList, at: usize) -> Result<RowList, AllocError>
    requires { at ≤ length rows.old }
    ensures front { OnOk result (rows.new ≡ take at rows.old) }
    ensures back { IfOk result (λ back. back ≡ drop at rows.old) }
{
    let mut turned = Items::new(alloc);
    move_from(rows, at, &mut turned)?;
    let mut back = Items::new(alloc);
    move_from(&mut turned, 0, &mut back)?;
    Ok(back)
}

/// Puts rows in at a place. Where memory is out, nothing is said of the rows.
pub fn put_back(alloc: Global, rows: &mut Rows, at: usize, gone: RowList) -> Result<(), AllocError>
    requires { at ≤ length rows.old.rows }
    ensures rows { OnOk result (rows.new.rows ≡ take at rows.old.rows ++ (gone ++ drop at rows.old.rows)) }
    ensures next { OnOk result (rows.new.next ≡ rows.old.next) }
{
    let tail = split_off(alloc, &mut rows.rows, at)?;
    rows.rows.append(gone)?;
    rows.rows.append(tail)
}
