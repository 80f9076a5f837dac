//! Laws: the orders of types and attributes, and what the three edits of a module do to visibility. Each is a call that
//! does nothing and promises the law.

ghost use Rattle.mlir_tree.specs.Laws.{TysAreOrdered, TiedTysAreEqual, AttrsAreOrdered, TiedAttrsAreEqual, HomesAreRows, InsertionKeepsVisible, InsertionShowsNothing, RemovalKeepsVisibility, SubstitutionKeepsVisibility};

/// The order of types is total.
#[tactic(auto, using(crate::specs::Codes::ty_total))]
pub fn tys_are_ordered()
    ensures { TysAreOrdered }
{}

/// It ties types exactly where they are equal.
#[tactic(auto, using(crate::proofs::OrderLaws::tied_tys_are_equal))]
pub fn tied_tys_are_equal()
    ensures { TiedTysAreEqual }
{}

/// The order of attributes is total.
#[tactic(auto, using(crate::specs::Codes::attr_total))]
pub fn attrs_are_ordered()
    ensures { AttrsAreOrdered }
{}

/// It ties attributes exactly where they are equal.
#[tactic(auto, using(crate::proofs::OrderLaws::tied_attrs_are_equal))]
pub fn tied_attrs_are_equal()
    ensures { TiedAttrsAreEqual }
{}

/// In nested rows each home is that of a row, so a number that no row has is new.
#[tactic(auto, using(crate::proofs::Nesting::homes_are_rows))]
pub fn homes_are_rows()
    ensures { HomesAreRows }
{}

/// What is visible at a row stays visible there when a new row is put in.
#[tactic(auto, using(crate::proofs::Insertion::insertion_keeps_visible))]
pub fn insertion_keeps_visible()
    ensures { InsertionKeepsVisible }
{}

/// A new row makes no value but its own visible at another row.
#[tactic(auto, using(crate::proofs::Insertion::insertion_shows_nothing))]
pub fn insertion_shows_nothing()
    ensures { InsertionShowsNothing }
{}

/// The values of rows that stay are visible at those rows as before, when a row is removed with the rows inside it.
#[tactic(auto, using(crate::proofs::Removal::removal_keeps_visibility))]
pub fn removal_keeps_visibility()
    ensures { RemovalKeepsVisibility }
{}

/// Other operands leave visibility as it is.
#[tactic(auto, using(crate::proofs::Substitution::substitution_keeps_visibility))]
pub fn substitution_keeps_visibility()
    ensures { SubstitutionKeepsVisibility }
{}
