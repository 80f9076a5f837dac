//! Modules as rows in text order.

ghost use Rattle.std.specs.Prelude.{◌≡◌, ◌↔◌, IfOk, IsTrue};

use crate::row::Row;
use sqlite_items::Items;
use std::alloc::{AllocError, Global};

/// A list of rows.
pub type RowList = Items<Row>;

/// A module: its rows in text order, each before the rows that it contains, and the next free number.
#[derive(Drop)]
pub struct Rows {
    pub rows: RowList,
    pub next: u32,
}

impl Rows {
    /// Equal rows.
    pub fn copy(&self, alloc: Global) -> Result<Rows, AllocError>
        ensures { IfOk result (λ copy. copy ≡ self.now) }
    {
        Ok(Rows {
            rows: copy_rows(alloc, self.rows.as_slice())?,
            next: self.next,
        })
    }

    /// Whether the modules are equal, numbers included.
    pub fn equal(&self, other: &Rows) -> bool
        ensures { IsTrue result ↔ (self.now ≡ other.now) }
    {
        self.next == other.next && equal_rows(self.rows.as_slice(), other.rows.as_slice())
    }
}

/// Equal rows.
pub fn copy_rows(alloc: Global, rows: &[Row]) -> Result<RowList, AllocError>
    ensures { IfOk result (λ copy. copy ≡ rows.now) }
{
    let mut copied = Items::from_vec(Vec::with_capacity(alloc, rows.len())?);
    for row in rows {
        copied.push(row.copy(alloc)?)?;
    }
    Ok(copied)
}

/// Whether the rows are equal one by one.
pub fn equal_rows(a: &[Row], b: &[Row]) -> bool
    ensures { IsTrue result ↔ (a.now ≡ b.now) }
{
    if a.len() != b.len() {
        return false;
    }
    for i in 0..a.len() {
        if !a[i].equal(&b[i]) {
            return false;
        }
    }
    true
}
