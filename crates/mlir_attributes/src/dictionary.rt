//! The entries of a dictionary, while they are read.

ghost use Rattle.std.specs.Prelude.{◌≡◌, [], IfOk, OnOk};
ghost use Rattle.mlir_tree.specs.Tree.{entries};
ghost use Rattle.mlir_tree.specs.Range.{AreRising, entry_names};
ghost use Rattle.mlir_attributes.specs.AttributeGrammar.{KeepsEntries};
ghost use Rattle.mlir_attributes.specs.Dictionary as spec;

use mlir_tree::attr::{Attr, Dict};
use shared_list::Shared;
use shared_text::SharedText;
use sqlite_items::Items;
use std::alloc::{AllocError, Global};
use std::collections::BTreeMap;

/// Entries by their names.
pub type Named = BTreeMap<Vec<u8>, Attr>;

/// No entries.
pub fn no_entries(alloc: Global) -> Named
    ensures { spec.named result ≡ [] }
{
    BTreeMap::new(alloc)
}

/// Whether the name stands there.
pub fn has_name(found: &Named, name: &[u8]) -> bool
    ensures { result ≡ spec.has_name name.now (spec.named found.now) }
{
    found.contains_key(name)
}

/// Puts one more entry in its place.
pub fn put_entry(
    alloc: Global,
    found: &mut Named,
    name: &[u8],
    value: Attr,
) -> Result<(), AllocError>
    ensures { OnOk result (spec.named found.new ≡ spec.put_entry name.now value (spec.named found.old)) }
{
    let key = Vec::from_slice(alloc, name)?;
    found.insert(key, value)?;
    Ok(())
}

/// The entries in the order of their names.
pub fn in_order(alloc: Global, found: Named) -> Result<Dict, AllocError>
    ensures value { IfOk result (λ d. d ≡ spec.named found) }
    ensures rising { IfOk result (λ d. AreRising (entry_names (entries d))) }
{
    let mut all = Items::new(alloc);
    for (name, value) in found {
        all.push((SharedText::new(alloc, Items::from_vec(name))?, value))?;
    }
    let all = Shared::new(alloc, all)?;
    Ok(all)
}

/// A law: a dictionary has the entries that are written, and no others, and their names rise.
#[tactic(auto, using(crate::proofs::Keeps::keeps_entries))]
pub fn entries_are_kept()
    ensures { KeepsEntries }
{}
