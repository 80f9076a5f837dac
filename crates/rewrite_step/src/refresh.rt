//! A copy of a module that is brought up to date.

ghost use Rattle.std.specs.Prelude.{◌≡◌, ◌≤◌, ◌+◌, ◌∷◌, ◌++◌, [], length, take, IsTrue, OnOk};

use crate::edits::one_row;
use crate::moves::put_back;
use mlir_tree::row::Row;
use mlir_tree::rows::{RowList, Rows, copy_rows};
use std::alloc::{AllocError, Global};

/// By how many rows the copy may be longer or shorter, so that its rows are looked at one by one.
const FEW: usize = 8;

// Removes rows at a place while there are more than so many and the row there has another number.
fn remove_others(copy: &mut RowList, at: usize, count: usize, id: u32)
    requires { at ≤ length copy.old }
    ensures front { take at copy.new ≡ take at copy.old }
    ensures long { at ≤ length copy.new }
{
    while copy.len() > count && at < copy.len() && copy.as_slice()[at].id != id {
        drop(copy.remove(at));
    }
}

// Puts a row at a place, before the rows from there on.
fn insert_at(alloc: Global, copy: &mut Rows, at: usize, row: Row) -> Result<(), AllocError>
    requires { at ≤ length copy.old.rows }
    ensures { OnOk result (take (at + 1) copy.new.rows ≡ take at copy.old.rows ++ row ∷ []) }
{
    let one = one_row(alloc, row)?;
    put_back(alloc, copy, at, one)
}

// Whether the row at a place is this one.
fn is_at(copy: &[Row], at: usize, row: &Row) -> bool
    ensures { IsTrue result → take (at + 1) copy.now ≡ take at copy.now ++ row.now ∷ [] }
{
    at < copy.len() && copy[at].equal(row)
}

// Has an equal row stand at a place, where a copy has fewer rows than it needs by putting it before the others.
fn put_at(
    alloc: Global,
    copy: &mut Rows,
    at: usize,
    count: usize,
    row: &Row,
) -> Result<(), AllocError>
    requires { at ≤ length copy.old.rows }
    ensures { OnOk result (take (at + 1) copy.new.rows ≡ take at copy.old.rows ++ row.now ∷ []) }
{
    if is_at(copy.rows.as_slice(), at, row) {
        return Ok(());
    }
    let row = row.copy(alloc)?;
    if at < copy.rows.len() && count <= copy.rows.len() {
        copy.rows.set(at, row);
        return Ok(());
    }
    insert_at(alloc, copy, at, row)
}

// Has equal rows stand at the front.
fn put_all(alloc: Global, copy: &mut Rows, rows: &[Row]) -> Result<(), AllocError>
    ensures { OnOk result (take (length rows.now) copy.new.rows ≡ rows.now) }
{
    for at in 0..rows.len() {
        remove_others(&mut copy.rows, at, rows.len(), rows[at].id);
        put_at(alloc, copy, at, rows.len(), &rows[at])?;
    }
    Ok(())
}

// Keeps so many rows.
fn keep_front(copy: &mut RowList, count: usize)
    ensures { copy.new ≡ take count copy.old }
{
    while copy.len() > count {
        drop(copy.pop());
    }
}

/// Makes a module equal to another. Rows that are equal at their places stay, so that it takes little where the modules
/// differ by few rows. Where memory is out, nothing is said of the module.
pub fn refresh(alloc: Global, copy: &mut Rows, rows: &Rows) -> Result<(), AllocError>
    ensures { OnOk result (copy.new ≡ rows.now) }
{
    let all = rows.rows.as_slice();
    if copy.rows.len().abs_diff(all.len()) > FEW {
        copy.rows = copy_rows(alloc, all)?;
    } else {
        put_all(alloc, copy, all)?;
        keep_front(&mut copy.rows, all.len());
    }
    copy.next = rows.next;
    Ok(())
}
