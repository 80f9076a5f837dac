//! The edits of the rows of a module.

ghost use Rattle.std.specs.Prelude.{◌≡◌, ◌==◌, ◌<◌, ◌≤◌, ◌+◌, ◌∷◌, ◌++◌, [], ℕ, not, max, map, filter, position, reverse, length, take, drop, slice_get, slice_set, slice_index_or, Some, IfOk, OnOk};
ghost use Rattle.mlir_tree.specs.declared.row.Row.{Row as RowOf};
ghost use Rattle.mlir_tree.specs.Module as rows_of;
ghost use Rattle.mlir_tree.specs.Edits.{removed};
ghost use Rattle.mlir_tree.specs.Edits as spec;
ghost use Rattle.rewrite_step.specs.Removing.{is_inner, has_inner_home, stays, stands_in, has_inner};
ghost use Rattle.rewrite_step.specs.Substituting.{is_replaced, uses_any};

use crate::moves::put_back;
use crate::places::place_of;
use indexmap::IndexMap;
use mlir_tree::row::{Home, Row};
use mlir_tree::rows::{RowList, Rows};
use mlir_tree::value::{Val, ValList};
use sqlite_items::Items;
use std::alloc::{AllocError, Global};

// Whether the last row of this number, among those seen, stands inside the row that goes.
fn is_inner(inner: &IndexMap<u32, bool>, id: u32) -> bool
    ensures { result ≡ is_inner inner.now id }
{
    match inner.get(&id) {
        None => false,
        Some(is) => *is,
    }
}

// Whether a row with this home stands inside the row that goes.
fn has_inner_home(inner: &IndexMap<u32, bool>, home: Option<Home>, owner: u32) -> bool
    ensures { result ≡ has_inner_home inner.now home owner }
{
    match home {
        None => false,
        Some(home) => home.row == owner || is_inner(inner, home.row),
    }
}

// For each number, whether the last row of it stands inside the row that goes.
fn inner_rows(alloc: Global, rows: &[Row], owner: u32) -> Result<IndexMap<u32, bool>, AllocError>
    ensures { IfOk result (λ inner. (u : ℕ) → is_inner inner u ≡ rows_of.is_contained rows.now u owner) }
{
    let mut inner = IndexMap::new(alloc);
    for row in rows {
        let goes = has_inner_home(&inner, row.home, owner);
        inner.insert(row.id, goes)?;
    }
    Ok(inner)
}

// Whether a row stays.
fn stays(inner: &IndexMap<u32, bool>, owner: u32, id: u32) -> bool
    ensures { result ≡ stays inner.now owner id }
{
    !(id == owner || is_inner(inner, id))
}

// Moves the rows that stay to another list, the last first. The others go.
fn move_kept(
    rows: &mut RowList,
    inner: &IndexMap<u32, bool>,
    owner: u32,
    kept: &mut RowList,
) -> Result<(), AllocError>
    ensures none { OnOk result (rows.new ≡ []) }
    ensures kept { OnOk result (kept.new ≡ kept.old ++ reverse (filter (λ r. stays inner.now owner r.id) rows.old)) }
{
    while let Some(row) = rows.pop() {
        if stays(inner, owner, row.id) {
            kept.push(row)?;
        }
    }
    Ok(())
}

// Moves rows behind others, the last first.
fn move_back(turned: &mut RowList, rows: &mut RowList) -> Result<(), AllocError>
    ensures { OnOk result (rows.new ≡ rows.old ++ reverse turned.old) }
{
    while let Some(row) = turned.pop() {
        rows.push(row)?;
    }
    Ok(())
}

// Removes a row with all rows inside it. Where memory is out, nothing is said of the rows.
fn remove_with_inner(alloc: Global, rows: &mut Rows, owner: u32) -> Result<(), AllocError>
    ensures { OnOk result (rows.new ≡ removed owner rows.old) }
{
    let inner = inner_rows(alloc, rows.rows.as_slice(), owner)?;
    let mut kept = Items::new(alloc);
    move_kept(&mut rows.rows, &inner, owner, &mut kept)?;
    move_back(&mut kept, &mut rows.rows)?;
    Ok(())
}

// Whether this home is a region of the row.
fn stands_in(home: Option<Home>, owner: u32) -> bool
    ensures { result ≡ stands_in owner home }
{
    match home {
        None => false,
        Some(home) => home.row == owner,
    }
}

// Whether some row stands in a region of the row.
fn has_inner(rows: &[Row], owner: u32) -> bool
    ensures { result ≡ has_inner owner rows.now }
{
    rows.iter().any(|row| stands_in(row.home, owner))
}

// Removes the row at a place, where it has this number.
fn remove_at(rows: &mut RowList, at: usize, owner: u32)
    requires { at < length rows.old }
    ensures { rows.new ≡ take at rows.old ++ (filter (λ r. not (r.id == owner)) (take 1 (drop at rows.old)) ++ drop (at + 1) rows.old) }
{
    if rows.as_slice()[at].id == owner {
        drop(rows.remove(at));
    }
}

// Removes the rows of this number, the last first.
fn remove_rows(rows: &mut RowList, owner: u32)
    ensures { rows.new ≡ filter (λ r. not (r.id == owner)) rows.old }
{
    let mut at = rows.len();
    while at > 0 {
        at -= 1;
        remove_at(rows, at, owner);
    }
}

/// Removes a row with all rows inside it (Pattern Rewriting guide, "eraseOp"). Where memory is out, nothing is said of the rows.
pub fn remove(alloc: Global, rows: &mut Rows, owner: u32) -> Result<(), AllocError>
    ensures { OnOk result (rows.new ≡ removed owner rows.old) }
{
    if has_inner(rows.rows.as_slice(), owner) {
        return remove_with_inner(alloc, rows, owner);
    }
    remove_rows(&mut rows.rows, owner);
    Ok(())
}

// Whether the values are the same.
fn same(v: Val, w: Val) -> bool
    ensures { result ≡ spec.val_eq v w }
{
    match (v, w) {
        (Val::Res(d, k), Val::Res(e, j)) => d == e && k == j,
        (Val::Arg(d, g, k), Val::Arg(e, h, j)) => d == e && g == h && k == j,
        _ => false,
    }
}

// The place of a value in a list.
fn place_in(values: &[Val], value: Val) -> Option<usize>
    ensures { result ≡ position (spec.val_eq value) values.now }
{
    values.iter().position(|other| same(value, *other))
}

// The value at a place, or another where there is none.
fn value_or(values: &[Val], at: usize, other: Val) -> Val
    ensures { result ≡ slice_index_or values.now at other }
{
    if at < values.len() { values[at] } else { other }
}

// What stands for a value.
fn substitute_of(from: &[Val], to: &[Val], value: Val) -> Val
    ensures { result ≡ spec.substitute from.now to.now value }
{
    match place_in(from, value) {
        None => value,
        Some(at) => value_or(to, at, value),
    }
}

// Puts in the place of each value what stands for it.
fn substitute_values(values: &mut Items<Val>, from: &[Val], to: &[Val])
    ensures { values.new ≡ map (spec.substitute from.now to.now) values.old }
{
    for at in 0..values.len() {
        let all = values.as_slice();
        let value = substitute_of(from, to, all[at]);
        values.set(at, value);
    }
}

// Whether something stands for the value.
fn is_replaced(from: &[Val], value: Val) -> bool
    ensures { result ≡ is_replaced from.now value }
{
    place_in(from, value).is_some()
}

// Whether something stands for one of the operands.
fn uses_any(operands: &[Val], from: &[Val]) -> bool
    ensures { result ≡ uses_any from.now operands.now }
{
    operands.iter().any(|value| is_replaced(from, *value))
}

// An equal row, but with the values put into its operands.
fn substituted_row(alloc: Global, row: &Row, from: &[Val], to: &[Val]) -> Result<Row, AllocError>
    ensures { IfOk result (λ r. r ≡ spec.substituted_row from.now to.now row.now) }
{
    let mut operands = Items::from_slice(alloc, row.operands.as_slice())?;
    substitute_values(&mut operands, from, to);
    let mut substituted = row.copy(alloc)?;
    substituted.operands = ValList::new(alloc, operands)?;
    Ok(substituted)
}

// Puts the values into the operands of the row at a place.
fn substitute_at(
    alloc: Global,
    rows: &mut RowList,
    at: usize,
    from: &[Val],
    to: &[Val],
) -> Result<(), AllocError>
    requires { at < length rows.old }
    ensures { OnOk result ((r : RowOf) → slice_get rows.old at ≡ Some r → rows.new ≡ slice_set rows.old at (spec.substituted_row from.now to.now r)) }
{
    let row = &rows.as_slice()[at];
    if !uses_any(row.operands.as_slice(), from) {
        return Ok(());
    }
    let substituted = substituted_row(alloc, row, from, to)?;
    rows.set(at, substituted);
    Ok(())
}

// Puts the values into the operands of all rows.
fn substitute_rows(
    alloc: Global,
    rows: &mut RowList,
    from: &[Val],
    to: &[Val],
) -> Result<(), AllocError>
    ensures { OnOk result (rows.new ≡ map (spec.substituted_row from.now to.now) rows.old) }
{
    for at in 0..rows.len() {
        substitute_at(alloc, rows, at, from, to)?;
    }
    Ok(())
}

/// Puts in the place of each member of `from` the member of `to` at its place, in the operands of all rows at once
/// (Pattern Rewriting guide, "replaceAllUsesWith"). Where memory is out, nothing is said of the rows.
pub fn substitute(
    alloc: Global,
    rows: &mut Rows,
    from: &[Val],
    to: &[Val],
) -> Result<(), AllocError>
    ensures { OnOk result (rows.new ≡ spec.substituted from.now to.now rows.old) }
{
    substitute_rows(alloc, &mut rows.rows, from, to)
}

// Where a row goes that is put before another.
fn place_before(rows: &[Row], other: u32) -> usize
    ensures place { result ≡ spec.place_before (Some other) rows.now }
    ensures within { result ≤ length rows.now }
{
    match place_of(rows, other) {
        Some(at) => at,
        None => rows.len(),
    }
}

/// A list of one row.
pub fn one_row(alloc: Global, row: Row) -> Result<RowList, AllocError>
    ensures { IfOk result (λ rows. rows ≡ row ∷ []) }
{
    let mut rows = Items::new(alloc);
    rows.push(row)?;
    Ok(rows)
}

// The next free number behind a number.
fn number_behind(next: u32, id: u32) -> Result<u32, AllocError>
    ensures { IfOk result (λ n. n ≡ max next (id + 1)) }
{
    if id == u32::MAX {
        return Err(AllocError);
    }
    Ok(next.max(id + 1))
}

/// Puts a row just before another, or last where that isn't there. Where memory or numbers are out, nothing is said of the rows.
pub fn insert(alloc: Global, rows: &mut Rows, other: u32, row: Row) -> Result<(), AllocError>
    ensures { OnOk result (rows.new ≡ spec.inserted row (Some other) rows.old) }
{
    let next = number_behind(rows.next, row.id);
    let one = one_row(alloc, row)?;
    let next = next?;
    let at = place_before(rows.rows.as_slice(), other);
    put_back(alloc, rows, at, one)?;
    rows.next = next;
    Ok(())
}
