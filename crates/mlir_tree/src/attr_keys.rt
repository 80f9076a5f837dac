//! Attributes as keys of a map.

ghost use Rattle.std.specs.Prelude.{◌≡◌, fold};
ghost use Rattle.std.specs.Ordering.{eq_by_cmp};
ghost use Rattle.mlir_tree.specs.Order.{attr_cmp};
ghost use Rattle.mlir_tree.specs.AttrKeys.{attr_input, last_input, attr_equivalence, attr_partial, attr_alike};

use crate::attr::{Attr, AttrNode};
use crate::text::Text;
use std::hash::{Hash, Hasher};

impl PartialEq for Attr {
    ghost eq = { eq_by_cmp attr_cmp };

    ghost laws = { attr_partial };

    fn eq(&self, other: &Attr) -> bool {
        self.cmp(other).is_eq()
    }
}

impl Eq for Attr {
    ghost laws = { attr_equivalence };
}

impl Hash for Attr {
    ghost hash_input = { attr_input };

    ghost respects_eq = { attr_alike };

    #[tactic(auto, using(crate::specs::AttrKeys::attrs_counted, crate::specs::AttrKeys::entries_counted))]
    fn hash<H: Hasher>(&self, state: &mut H) {
        match &self.node {
            AttrNode::Unit => state.write_u8(0),
            AttrNode::Int(number, _) => state.write_u128(number.mag),
            AttrNode::Num(text, _) | AttrNode::Str(text, _) | AttrNode::Kept(text, _) =>
                state.write(text.as_slice()),
            AttrNode::Sym(names) => hash_last(names.as_slice(), state),
            AttrNode::OfTy(ty) => ty.hash(state),
            AttrNode::Array(items) => state.write_usize(items.len()),
            AttrNode::Dict(entries) => state.write_usize(entries.len()),
        }
    }
}

fn hash_last<H: Hasher>(names: &[Text], state: &mut H)
    ensures { state.new ≡ fold H.write state.old (last_input names.now) }
{
    match names.last() {
        Some(name) => state.write(name.as_slice()),
        None => state.write_u8(4),
    }
}
