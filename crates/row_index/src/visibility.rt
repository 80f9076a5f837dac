// Whether each operand of a module exists and is visible.
ghost use Rattle.std.specs.Prelude.{◌≡◌, ◌<◌, ◌≤◌, ◌^◌, ◌↔◌, ℕ, List, ◌∷◌, [], length, All, Some, None, IfSome, IsTrue, Option, Bool, false, ◌&&◌, ◌==◌, not, slice_get};
ghost use Rattle.std.specs.Option.{option_copied, option_map, option_map_or};
ghost use Rattle.std.specs.List.{list_any};
ghost use Rattle.mlir_tree.specs.declared.row.Home.{Home as HomeOf};
ghost use Rattle.mlir_tree.specs.declared.row.Row.{Row as RowOf};
ghost use Rattle.mlir_tree.specs.declared.value.Val.TheVariants as vals;
ghost use Rattle.mlir_tree.specs.Module.{home_eq, has_argument, has_row};
ghost use Rattle.mlir_tree.specs.WellFormed.{AreNumbered, AreNested, AreDistinct, HasSizes, HasVisibleOperands};
ghost use Rattle.row_index.specs.BadUses.{bad_use};
ghost use Rattle.row_index.specs.Indexing.{Indexes};
ghost use Rattle.row_index.specs.Walking.{around_place, number_at, sees_at, operands_at, bad_place_at, IsWalk};

use crate::index::RowIndex;
use crate::places::{indexed_place, place_of, rise};
use mlir_tree::bad_use::BadUse;
use mlir_tree::row::{Home, Row};
use mlir_tree::rows::Rows;
use mlir_tree::value::Val;

// Nested rows with different numbers, whether the numbers rise, and where the rows stand, if that is known.
#[derive(Clone, Copy)]
struct Walk<'a> {
    rows: &'a [Row],
    rising: bool,
    index: Option<&'a RowIndex>,
}

fn has_argument(row: &Row, region: u16, index: u16) -> bool
    ensures { result ≡ has_argument region index row.now }
{
    match row.regions.get(region as usize) {
        None => false,
        Some(arguments) => (index as usize) < arguments.len(),
    }
}

impl Walk<'_> {
    // The place of the row of this number.
    fn place_of(&self, id: u32) -> Option<usize>
        requires walk { IsWalk self.now.rows.now self.now.rising (option_copied self.now.index) }
        ensures found { IfSome result (λ p. number_at self.now.rows.now p ≡ Some id) }
        ensures within { IfSome result (λ p. p < length self.now.rows.now) }
        ensures none { result ≡ None → has_row self.now.rows.now id ≡ false }
    {
        match self.index {
            Some(index) => indexed_place(self.rows, index, id),
            None => place_of(self.rows, self.rising, id),
        }
    }

    // The home of the row at a place, and the place of the row that has it.
    fn outer(&self, at: usize) -> Option<(Home, usize)>
        requires walk { IsWalk self.now.rows.now self.now.rising (option_copied self.now.index) }
        requires within { at < length self.now.rows.now }
        ensures some { IfSome result (λ x. (x.1 < at) × (around_place self.now.rows.now at ≡ x.0 ∷ around_place self.now.rows.now x.1)) }
        ensures none { result ≡ None → around_place self.now.rows.now at ≡ [] }
    {
        let Some(home) = self.rows[at].home else {
            return None;
        };
        let Some(place) = self.place_of(home.row) else {
            return None;
        };
        Some((home, place))
    }

    // Whether the row at a place stands inside this region.
    fn is_inside(&self, at: usize, home: Home) -> bool
        requires walk { IsWalk self.now.rows.now self.now.rising (option_copied self.now.index) }
        requires within { at < length self.now.rows.now }
        ensures { result ≡ list_any (home_eq home) (around_place self.now.rows.now at) }
    {
        let mut from = at;
        while let Some((outer, place)) = self.outer(from) {
            if home == outer {
                return true;
            }
            from = place;
        }
        false
    }

    // Whether the row at a place stands inside the row of this number.
    fn is_contained(&self, at: usize, owner: u32) -> bool
        requires walk { IsWalk self.now.rows.now self.now.rising (option_copied self.now.index) }
        requires within { at < length self.now.rows.now }
        ensures { result ≡ list_any (λ h. h.row == owner) (around_place self.now.rows.now at) }
    {
        let mut from = at;
        while let Some((outer, place)) = self.outer(from) {
            if outer.row == owner {
                return true;
            }
            from = place;
        }
        false
    }

    // Whether the row at a place stands inside this region, if there is one.
    fn is_enclosed(&self, at: usize, home: Option<Home>) -> bool
        requires walk { IsWalk self.now.rows.now self.now.rising (option_copied self.now.index) }
        requires within { at < length self.now.rows.now }
        ensures { result ≡ option_map_or (λ h. list_any (home_eq h) (around_place self.now.rows.now at)) home false }
    {
        match home {
            None => false,
            Some(home) => self.is_inside(at, home),
        }
    }

    // Whether a result of the row at this place is visible.
    #[tactic(auto, using(crate::proofs::Walks::sees_result))]
    fn sees_result_of(&self, at: usize, place: usize, owner: u32, index: u16) -> bool
        requires walk { IsWalk self.now.rows.now self.now.rising (option_copied self.now.index) }
        requires within { at < length self.now.rows.now }
        requires place { place < length self.now.rows.now }
        requires owner { number_at self.now.rows.now place ≡ Some owner }
        ensures { result ≡ sees_at self.now.rows.now at (vals.Res owner index) }
    {
        let row = &self.rows[place];
        if index as usize >= row.results.len() {
            return false;
        }
        if place >= at {
            return false;
        }
        if !self.is_enclosed(at, row.home) {
            return false;
        }
        !self.is_contained(at, owner)
    }

    #[tactic(auto, using(crate::proofs::Walks::sees_no_result))]
    fn sees_result(&self, at: usize, owner: u32, index: u16) -> bool
        requires walk { IsWalk self.now.rows.now self.now.rising (option_copied self.now.index) }
        requires within { at < length self.now.rows.now }
        ensures { result ≡ sees_at self.now.rows.now at (vals.Res owner index) }
    {
        match self.place_of(owner) {
            None => false,
            Some(place) => self.sees_result_of(at, place, owner, index),
        }
    }

    // Whether an argument of the row at this place is visible.
    #[tactic(auto, using(crate::proofs::Walks::sees_argument))]
    fn sees_argument_of(&self, at: usize, place: usize, home: Home, index: u16) -> bool
        requires walk { IsWalk self.now.rows.now self.now.rising (option_copied self.now.index) }
        requires within { at < length self.now.rows.now }
        requires place { place < length self.now.rows.now }
        requires owner { number_at self.now.rows.now place ≡ Some home.row }
        ensures { result ≡ sees_at self.now.rows.now at (vals.Arg home.row home.region index) }
    {
        has_argument(&self.rows[place], home.region, index) && self.is_inside(at, home)
    }

    #[tactic(auto, using(crate::proofs::Walks::sees_no_argument))]
    fn sees_argument(&self, at: usize, home: Home, index: u16) -> bool
        requires walk { IsWalk self.now.rows.now self.now.rising (option_copied self.now.index) }
        requires within { at < length self.now.rows.now }
        ensures { result ≡ sees_at self.now.rows.now at (vals.Arg home.row home.region index) }
    {
        match self.place_of(home.row) {
            None => false,
            Some(place) => self.sees_argument_of(at, place, home, index),
        }
    }

    // Whether the value exists and is visible at the row at a place.
    fn sees(&self, at: usize, value: Val) -> bool
        requires walk { IsWalk self.now.rows.now self.now.rising (option_copied self.now.index) }
        requires within { at < length self.now.rows.now }
        ensures { result ≡ sees_at self.now.rows.now at value }
    {
        match value {
            Val::Res(owner, index) => self.sees_result(at, owner, index),
            Val::Arg(row, region, index) => self.sees_argument(at, Home { row, region }, index),
        }
    }

    // The first place of the row at a place whose operand isn't visible there.
    fn bad_place(&self, at: usize) -> Option<usize>
        requires walk { IsWalk self.now.rows.now self.now.rising (option_copied self.now.index) }
        requires within { at < length self.now.rows.now }
        ensures place { result ≡ bad_place_at self.now.rows.now at }
        ensures within { IfSome result (λ k. k < length (operands_at self.now.rows.now at)) }
    {
        let operands = self.rows[at].operands.as_slice();
        for (k, value) in operands.iter().enumerate() {
            if !self.sees(at, *value) {
                return Some(k);
            }
        }
        None
    }
}

fn first_bad_use(walk: &Walk<'_>) -> Option<BadUse>
    requires walk { IsWalk walk.now.rows.now walk.now.rising (option_copied walk.now.index) }
    requires sizes { All HasSizes walk.now.rows.now }
    ensures { result ≡ bad_use walk.now.rows.now }
{
    for at in 0..walk.rows.len() {
        if let Some(place) = walk.bad_place(at) {
            return Some(BadUse {
                row: walk.rows[at].id,
                place: place as u16,
            });
        }
    }
    None
}

/// The first row in text order with an operand that doesn't exist or isn't visible there, and its first such place
/// (MLIR Language Reference, "Value Scoping"). None where each operand exists and is visible.
#[tactic(auto, using(crate::proofs::BadUses::none_exactly))]
pub fn well_formed(rows: &Rows) -> Option<BadUse>
    requires numbers { AreNumbered rows.now }
    requires nesting { AreNested rows.now.rows }
    requires sizes { All HasSizes rows.now.rows }
    // Which use it is.
    ensures first { result ≡ bad_use rows.now.rows }
    // None exactly where all operands are visible.
    ensures none { (result ≡ None) ↔ All (HasVisibleOperands rows.now.rows) rows.now.rows }
{
    let rows = rows.rows.as_slice();
    first_bad_use(&Walk {
        rows,
        rising: rise(rows),
        index: None,
    })
}

/// The same, where an index has the places of the rows.
#[tactic(auto, using(crate::proofs::BadUses::none_exactly))]
pub fn well_formed_by(rows: &Rows, index: &RowIndex) -> Option<BadUse>
    requires index { Indexes index.now rows.now.rows }
    requires numbers { AreNumbered rows.now }
    requires nesting { AreNested rows.now.rows }
    requires sizes { All HasSizes rows.now.rows }
    // Which use it is.
    ensures first { result ≡ bad_use rows.now.rows }
    // None exactly where all operands are visible.
    ensures none { (result ≡ None) ↔ All (HasVisibleOperands rows.now.rows) rows.now.rows }
{
    first_bad_use(&Walk {
        rows: rows.rows.as_slice(),
        rising: false,
        index: Some(index),
    })
}
