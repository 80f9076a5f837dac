//! Operations as they are written.

use mlir_tree::attr::Attr;
use mlir_tree::text::Text;
use mlir_tree::ty::{Ty, TyList};
use sqlite_items::Items;
use std::marker::Model;

/// A module file. Its aliases are replaced, and its locations are left out.
#[derive(Drop)]
pub struct Syn {
    /// The operations that stand in no region, in the order of the text.
    pub ops: Items<SynOp>,
}

/// Values that an operation gives under one name.
#[derive(Drop)]
pub struct SynResult {
    /// The place of the name.
    pub at: usize,
    /// The name without its `%`.
    pub name: Text,
    /// How many values it names.
    pub count: u16,
}

/// The use of a value.
#[derive(Drop)]
pub struct SynUse {
    /// The place of the name.
    pub at: usize,
    /// The name without its `%`.
    pub name: Text,
    /// Which of the values of this name. An index above 65,534 is kept as 65,535.
    pub index: u16,
}

/// An entry of a dictionary.
#[derive(Drop)]
pub struct SynEntry {
    /// The place of the name.
    pub at: usize,
    pub name: Text,
    pub value: Attr,
}

/// An argument of a region.
#[derive(Drop)]
pub struct SynArg {
    /// The place of the name.
    pub at: usize,
    /// The name without its `%`.
    pub name: Text,
    pub ty: Ty,
}

/// A region, which has one block.
#[cycle(syn)]
#[derive(Drop)]
pub struct SynRegion {
    pub args: Items<SynArg>,
    pub ops: Items<SynOp>,
}

/// An operation (MLIR Language Reference, "Operations").
#[cycle(syn)]
#[derive(Drop)]
pub struct SynOp {
    /// The place of the string of its name.
    pub at: usize,
    pub name: Text,
    /// The names of its results, which may be left out.
    pub results: Items<SynResult>,
    pub operands: Items<SynUse>,
    /// Its properties in the order of their names.
    pub props: Items<SynEntry>,
    pub regions: Items<SynRegion>,
    /// Its attributes in the order of their names.
    pub attrs: Items<SynEntry>,
    /// The place of the first bracket of its function type.
    pub types_at: usize,
    pub operand_types: TyList,
    pub result_types: TyList,
}

impl Model for SynOp {
    ghost use Rattle.mlir_parse.specs.SynTree.{Operation as Meaning, operation};
    ghost use Rattle.mlir_parse.specs.SynCode.{coded_operation};

    ghost Value = { Meaning };

    ghost coded = { coded_operation };

    ghost use Rattle.mlir_parse.specs.SynSize.{operation_size};
    ghost use Rattle.mlir_parse.specs.SynView.{region_tree};

    ghost view = { λ o. operation (record {
      at = o.at;
      name = o.name;
      results = o.results;
      operands = o.operands;
      props = o.props;
      attrs = o.attrs;
      types_at = o.types_at;
      operand_types = o.operand_types;
      result_types = o.result_types;
    }) (region_tree o.regions) };

    ghost size = { operation_size };

    ghost use Rattle.mlir_parse.specs.SynFalls.{operation_falls};

    ghost size_decreases = { λ o h. operation_falls o.regions };
}
