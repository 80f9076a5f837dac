//! Rows by their numbers.

ghost use Rattle.std.specs.Prelude.{◌≡◌, ◌<◌, ℕ, nat_eq, slice_get, All, IfOk, IfSome, option_copied, option_and_then};
ghost use Rattle.indexmap.specs.IndexMap.{get};
ghost use Rattle.mlir_tree.specs.Module.{row_of};
ghost use Rattle.row_index.specs.Indexing.{place_of, place_from, slot_of, Indexes};

use indexmap::IndexMap;
use mlir_tree::row::Row;
use mlir_tree::rows::Rows;
use std::alloc::{AllocError, Global};

// The places by their numbers: where numbers are dense a list with an entry for each number, which is one more than the
// place, or 0 where no row has the number; else a table.
#[derive(Drop)]
pub enum Places {
    Dense(Vec<usize>),
    Sparse(IndexMap<u32, usize>),
}

/// The places of rows, by their numbers.
#[derive(Drop)]
pub struct RowIndex {
    places: Places,
}

// The length of a list with a place for each number, where that isn't much longer than the rows are many.
fn dense_len(rows: &[Row]) -> Option<usize>
    ensures { IfSome result (λ len. All (λ r. r.id < len) rows.now) }
{
    let mut len = 0;
    for i in 0..rows.len() {
        let id = rows[i].id as usize;
        if id >= len {
            len = id + 1;
        }
    }
    if len / 4 <= rows.len() {
        Some(len)
    } else {
        None
    }
}

// The places of rows whose numbers are below the length.
fn dense_places(alloc: Global, rows: &[Row], len: usize) -> Result<Vec<usize>, AllocError>
    requires { All (λ r. r.id < len) rows.now }
    ensures { IfOk result (λ slots. (id : ℕ) → slot_of slots.items id ≡ place_from 0 rows.now id) }
{
    let mut slots = vec![in alloc; 0; len]?;
    let mut at = rows.len();
    while at > 0 {
        slots[rows[at - 1].id as usize] = at;
        at -= 1;
    }
    Ok(slots)
}

// What a list of places has for a number.
fn place_in_slots(slots: &[usize], id: u32) -> Option<usize>
    ensures { result ≡ slot_of slots.now id }
{
    match slots.get(id as usize) {
        None => None,
        Some(above) => above.checked_sub(1),
    }
}

// The places of rows, by hashing.
fn sparse_places(alloc: Global, rows: &[Row]) -> Result<IndexMap<u32, usize>, AllocError>
    ensures { IfOk result (λ table. (id : ℕ) → get nat_eq table id ≡ place_from 0 rows.now id) }
{
    let mut table = IndexMap::new(alloc);
    let mut at = rows.len();
    while at > 0 {
        at -= 1;
        table.insert(rows[at].id, at)?;
    }
    Ok(table)
}

impl RowIndex {
    /// The places of these rows. Where a number stands twice, its first place counts. Numbers of which at least a fourth
    /// is used are found without hashing.
    pub fn new(alloc: Global, rows: &Rows) -> Result<RowIndex, AllocError>
        ensures { IfOk result (λ index. Indexes index rows.now.rows) }
    {
        let rows = rows.rows.as_slice();
        let places = match dense_len(rows) {
            Some(len) => Places::Dense(dense_places(alloc, rows, len)?),
            None => Places::Sparse(sparse_places(alloc, rows)?),
        };
        Ok(RowIndex { places })
    }

    /// The place of the row of this number.
    pub fn find(&self, id: u32) -> Option<usize>
        ensures { result ≡ place_of self.now id }
    {
        match &self.places {
            Places::Dense(slots) => place_in_slots(slots, id),
            Places::Sparse(table) => table.get(&id).copied(),
        }
    }
}

/// The row at a place, where there is one.
fn row_at(rows: &[Row], at: Option<usize>) -> Option<&Row>
    ensures { option_copied result ≡ option_and_then (slice_get rows.now) at }
{
    match at {
        Some(at) => rows.get(at),
        None => None,
    }
}

/// The row of this number.
#[tactic(auto, using(crate::proofs::Indexing::row_by_place))]
pub fn row_of<'r>(rows: &'r [Row], index: &RowIndex, id: u32) -> Option<&'r Row>
    requires { Indexes index.now rows.now }
    ensures { option_copied result ≡ row_of rows.now id }
{
    row_at(rows, index.find(id))
}
