//! The properties and attributes of an operation.

ghost use Rattle.std.specs.Prelude.{◌≡◌, map, IfOk};
ghost use Rattle.mlir_tree.specs.Range.{AreRising};
ghost use Rattle.mlir_parse.specs.Limits.{syn_names};
ghost use Rattle.mlir_resolve.specs.Laid.{entry_pair};
ghost use Rattle.mlir_resolve.specs.Resolving.{lesser, least_shared};

use mlir_parse::syn::SynEntry;
use mlir_tree::attr::Dict;
use mlir_tree::text::copy_text;
use shared_list::Shared;
use sqlite_items::Items;
use std::alloc::{AllocError, Global};
use std::cmp::Ordering;

/// Copies of the entries, without their places.
pub fn dict(alloc: Global, entries: &[SynEntry]) -> Result<Dict, AllocError>
    ensures { IfOk result (λ d. d ≡ map entry_pair entries.now) }
{
    let mut copied = Items::from_vec(Vec::with_capacity(alloc, entries.len())?);
    for entry in entries {
        let name = copy_text(alloc, &entry.name)?;
        let value = entry.value.copy(alloc)?;
        copied.push((name, value))?;
    }
    Shared::new(alloc, copied)
}

/// The lesser of a place and another, where there is one.
fn lesser_place(at: usize, other: Option<usize>) -> Option<usize>
    ensures { result ≡ lesser at other }
{
    match other {
        Some(place) if place < at => Some(place),
        _ => Some(at),
    }
}

/// The least place of an attribute that has the name of a property.
pub fn least_shared_place(props: &[SynEntry], attrs: &[SynEntry]) -> Option<usize>
    requires props { AreRising (syn_names props.now) }
    requires attrs { AreRising (syn_names attrs.now) }
    ensures { result ≡ least_shared props.now attrs.now }
{
    let (mut i, mut j) = (0, 0);
    let mut least = None;
    while i < props.len() && j < attrs.len() {
        let (prop, attr) = (&props[i], &attrs[j]);
        match prop.name.as_slice().cmp(attr.name.as_slice()) {
            Ordering::Less => i += 1,
            Ordering::Greater => j += 1,
            Ordering::Equal => {
                least = lesser_place(attr.at, least);
                i += 1;
                j += 1;
            }
        }
    }
    least
}
