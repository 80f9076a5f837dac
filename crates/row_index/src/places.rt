// Finds rows by their numbers.
ghost use Rattle.std.specs.Prelude.{◌≡◌, ◌<◌, ℕ, length, Some, None, IfSome, IsTrue, false};
ghost use Rattle.mlir_tree.specs.Module.{has_row};
ghost use Rattle.row_index.specs.Indexing.{Indexes};
ghost use Rattle.row_index.specs.Walking.{number_at, AreRisingNumbers};

use crate::index::RowIndex;
use mlir_tree::row::Row;

/// Whether the numbers of the rows rise.
#[tactic(auto, using(crate::proofs::Searching::rise_on, crate::proofs::Searching::rise_all))]
pub fn rise(rows: &[Row]) -> bool
    ensures { IsTrue result → AreRisingNumbers rows.now }
{
    for i in 1..rows.len() {
        if rows[i].id <= rows[i - 1].id {
            return false;
        }
    }
    true
}

fn halve(rows: &[Row], id: u32) -> Option<usize>
    requires { AreRisingNumbers rows.now }
    ensures found { IfSome result (λ p. number_at rows.now p ≡ Some id) }
    ensures within { IfSome result (λ p. p < length rows.now) }
    ensures none { result ≡ None → has_row rows.now id ≡ false }
{
    rows.binary_search_by_key(&id, |row| row.id).ok()
}

fn scan(rows: &[Row], id: u32) -> Option<usize>
    ensures found { IfSome result (λ p. number_at rows.now p ≡ Some id) }
    ensures within { IfSome result (λ p. p < length rows.now) }
    ensures none { result ≡ None → has_row rows.now id ≡ false }
{
    for i in 0..rows.len() {
        if rows[i].id == id {
            return Some(i);
        }
    }
    None
}

/// The place of the row of this number: that of the number itself, where the row stands there, else by halving where
/// numbers rise, else by a scan.
pub fn place_of(rows: &[Row], rising: bool, id: u32) -> Option<usize>
    requires { IsTrue rising → AreRisingNumbers rows.now }
    ensures found { IfSome result (λ p. number_at rows.now p ≡ Some id) }
    ensures within { IfSome result (λ p. p < length rows.now) }
    ensures none { result ≡ None → has_row rows.now id ≡ false }
{
    let guess = id as usize;
    if guess < rows.len() && rows[guess].id == id {
        return Some(guess);
    }
    if rising {
        halve(rows, id)
    } else {
        scan(rows, id)
    }
}

/// The same by an index of the rows.
#[tactic(auto, using(crate::proofs::Indexing::place_has, crate::proofs::Indexing::place_within, crate::proofs::Indexing::no_place))]
pub fn indexed_place(rows: &[Row], index: &RowIndex, id: u32) -> Option<usize>
    requires { Indexes index.now rows.now }
    ensures found { IfSome result (λ p. number_at rows.now p ≡ Some id) }
    ensures within { IfSome result (λ p. p < length rows.now) }
    ensures none { result ≡ None → has_row rows.now id ≡ false }
{
    index.find(id)
}
