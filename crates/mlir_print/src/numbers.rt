// The numbers of results and block arguments.
ghost use Rattle.std.specs.Prelude.{◌≡◌, ◌+◌, ◌<◌, ◌≤◌, ◌*◌, ◌^◌, length, IfOk};
ghost use Rattle.std.specs.Option.{option_copied};
ghost use Rattle.mlir_tree.specs.WellFormed.{IsWellFormed};
ghost use Rattle.mlir_print.specs.NumberMaps.{entry_in};

use row_index::index::RowIndex;
use std::vec::Vec;

/// What is kept of a row: the number of its results, and for each of its regions the number of the first argument.
#[derive(Drop)]
pub struct RowNumbers {
    pub result: usize,
    pub arguments: Vec<u128>,
}

/// The numbers of the values of a module, row by row, and the places of rows by their numbers.
#[derive(Drop)]
pub struct Numbers {
    pub index: RowIndex,
    pub rows: Vec<RowNumbers>,
}

impl Numbers {
    // What is kept of the row of this number.
    pub fn entry(&self, id: u32) -> Option<&RowNumbers>
        ensures { option_copied result ≡ entry_in self.now id }
    {
        match self.index.find(id) {
            None => None,
            Some(place) => self.rows.get(place),
        }
    }
}
