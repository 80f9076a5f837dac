// Numbering.
ghost use Rattle.std.specs.Prelude.{◌≡◌, ◌+◌, ◌<◌, ◌≤◌, ◌*◌, ◌^◌, length, IfOk, IfSome, All};
ghost use Rattle.mlir_tree.specs.WellFormed.{IsWellFormed, AreDistinct, HasSizes};
ghost use Rattle.mlir_print.specs.Numbering.{arguments_of};
ghost use Rattle.mlir_print.specs.Starts as spec;
ghost use Rattle.mlir_print.specs.NumberMaps.{AreNumbersOf};

use crate::numbers::{Numbers, RowNumbers};
use mlir_tree::row::Row;
use mlir_tree::rows::Rows;
use mlir_tree::ty::TyList;
use row_index::index::RowIndex;
use std::alloc::{AllocError, Global};
use std::vec::Vec;

// How many arguments the regions have.
fn argument_count(regions: &[TyList]) -> u128
    requires { All (λ arguments. length arguments < 2 ^ 16) regions.now }
    ensures count { result ≡ arguments_of regions.now }
    ensures few { result ≤ length regions.now * 2 ^ 16 }
{
    let mut count = 0;
    for arguments in regions {
        count += arguments.len() as u128;
    }
    count
}

// The number of the first argument of each region, where the first of all is this one.
fn starts(alloc: Global, first: u128, regions: &[TyList]) -> Result<Vec<u128>, AllocError>
    requires { first + arguments_of regions.now < 2 ^ 128 }
    ensures { IfOk result (λ found. found.items ≡ spec.starts first regions.now) }
{
    let mut found = Vec::new(alloc);
    let mut next = first;
    for arguments in regions {
        found.push(next)?;
        next += arguments.len() as u128;
    }
    Ok(found)
}

/// The numbers by which the values of a module are printed: rows with results are counted in text order, and so are the
/// block arguments, region by region, those of a row before the rows inside it.
pub fn number(alloc: Global, rows: &Rows) -> Result<Numbers, AllocError>
    requires { IsWellFormed rows.now }
    ensures { IfOk result (λ numbers. AreNumbersOf rows.now.rows numbers) }
{
    let index = RowIndex::new(alloc, rows)?;
    let rows = rows.rows.as_slice();
    let mut found = Vec::with_capacity(alloc, rows.len())?;
    let mut result = 0;
    let mut argument = 0;
    for place in 0..rows.len() {
        let row = &rows[place];
        let arguments = starts(alloc, argument, row.regions.as_slice())?;
        found.push(RowNumbers { result, arguments })?;
        if !row.results.is_empty() {
            result += 1;
        }
        argument += argument_count(row.regions.as_slice());
    }
    Ok(Numbers { index, rows: found })
}
