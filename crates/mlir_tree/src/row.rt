//! Operations as rows.

ghost use Rattle.std.specs.Prelude.{◌≡◌, ◌↔◌, IfOk, IsTrue};
ghost use Rattle.mlir_tree.specs.Fields.{HasSignatureOf};

use crate::attr::{Dict, equal_dicts};
use crate::text::{Text, equal_texts};
use crate::ty::{TyList, equal_tys};
use crate::value::{ValList, equal_vals};
use shared_list::Shared;
use sqlite_items::Items;
use std::alloc::{AllocError, Global};

/// The region in which a row stands: the row that has it, and the region's place there.
#[derive(Clone, Copy, Debug, PartialEq, Eq)]
pub struct Home {
    pub row: u32,
    pub region: u16,
}

/// For each region the types of its arguments.
pub type RegionList = Shared<TyList>;

/// A list of the numbers of rows.
pub type IdList = Items<u32>;

/// An operation (MLIR Language Reference, "Operations"): its number, the region in which it stands (none for the module),
/// its name, operands, types of results, properties, other attributes, and regions.
#[derive(Drop)]
pub struct Row {
    pub id: u32,
    pub home: Option<Home>,
    pub name: Text,
    pub operands: ValList,
    pub results: TyList,
    pub props: Dict,
    pub attrs: Dict,
    pub regions: RegionList,
}

impl Row {
    /// An equal row.
    pub fn copy(&self, _alloc: Global) -> Result<Row, AllocError>
        ensures { IfOk result (λ copy. copy ≡ self.now) }
    {
        Ok(Row {
            id: self.id,
            home: self.home,
            name: self.name.copy()?,
            operands: self.operands.copy()?,
            results: self.results.copy()?,
            props: self.props.copy()?,
            attrs: self.attrs.copy()?,
            regions: self.regions.copy()?,
        })
    }

    /// Whether the rows are equal, their numbers included.
    pub fn equal(&self, other: &Row) -> bool
        ensures { IsTrue result ↔ (self.now ≡ other.now) }
    {
        self.has_place_of(other) && self.has_signature_of(other) && self.has_dictionaries_of(other)
    }

    fn has_place_of(&self, other: &Row) -> bool
        ensures { IsTrue result ↔ ((self.now.id ≡ other.now.id) × (self.now.home ≡ other.now.home)) }
    {
        self.id == other.id && self.home == other.home
    }

    fn has_signature_of(&self, other: &Row) -> bool
        ensures { IsTrue result ↔ HasSignatureOf self.now other.now }
    {
        self.has_name_and_operands_of(other) && self.has_types_of(other)
    }

    fn has_name_and_operands_of(&self, other: &Row) -> bool
        ensures { IsTrue result ↔ ((self.now.name ≡ other.now.name) × (self.now.operands ≡ other.now.operands)) }
    {
        equal_texts(self.name.as_slice(), other.name.as_slice())
            && equal_vals(self.operands.as_slice(), other.operands.as_slice())
    }

    fn has_types_of(&self, other: &Row) -> bool
        ensures { IsTrue result ↔ ((self.now.results ≡ other.now.results) × (self.now.regions ≡ other.now.regions)) }
    {
        equal_tys(self.results.as_slice(), other.results.as_slice())
            && equal_regions(self.regions.as_slice(), other.regions.as_slice())
    }

    fn has_dictionaries_of(&self, other: &Row) -> bool
        ensures { IsTrue result ↔ ((self.now.props ≡ other.now.props) × (self.now.attrs ≡ other.now.attrs)) }
    {
        equal_dicts(self.props.as_slice(), other.props.as_slice())
            && equal_dicts(self.attrs.as_slice(), other.attrs.as_slice())
    }
}

/// Whether the regions have equal arguments.
pub fn equal_regions(a: &[TyList], b: &[TyList]) -> bool
    ensures { IsTrue result ↔ (a.now ≡ b.now) }
{
    if a.len() != b.len() {
        return false;
    }
    for i in 0..a.len() {
        if !equal_tys(a[i].as_slice(), b[i].as_slice()) {
            return false;
        }
    }
    true
}
