//! Whether an operation has the names that are asked of the root.

ghost use Rattle.std.specs.Prelude.{◌≡◌, ◌↔◌, List, Some, map, option_copied, option_map, IsTrue};
ghost use Rattle.std.specs.List.{AllByRecursion};
ghost use Rattle.mlir_tree.specs.declared.row.Row.{Row as RowOf};
ghost use Rattle.rewrite_model.specs.Things as things;
ghost use Rattle.rewrite_model.specs.Holding.{row_given, Holds};
ghost use Rattle.pdll_expand.specs.View.{demand_of};

use mlir_tree::row::Row;
use mlir_tree::text::equal_texts;
use pdll_expand::demand::Demand;

/// Whether a row is there and has this name.
pub fn is_named(row: Option<&Row>, name: &[u8]) -> bool
    ensures { IsTrue result ↔ (option_map (λ r. r.name) (option_copied row.entry) ≡ Some name.now) }
{
    match row {
        Some(r) => equal_texts(r.name.as_slice(), name),
        None => false,
    }
}

/// Whether the row may be the root, by what this demand asks of the root's name.
fn allows(row: Option<&Row>, demand: &Demand<'_>, root: usize) -> bool
    ensures { (rows : List RowOf) (a : List things.Thing) → option_copied row.entry ≡ row_given rows a root → Holds rows a (demand_of demand.now) → IsTrue result }
{
    match demand {
        Demand::HasName(x, name) => *x != root || is_named(row, *name),
        _ => true,
    }
}

/// Whether the row may be the root, by what is asked of the root's name. Where it may not, the demands don't hold.
pub fn may_be_root(row: Option<&Row>, demands: &[Demand<'_>], root: usize) -> bool
    ensures { (rows : List RowOf) (a : List things.Thing) → option_copied row.entry ≡ row_given rows a root → AllByRecursion (Holds rows a) (map demand_of demands.now) → IsTrue result }
{
    for demand in demands {
        if !allows(row, demand, root) {
            return false;
        }
    }
    true
}
