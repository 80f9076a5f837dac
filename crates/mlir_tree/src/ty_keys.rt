//! Types as keys of a map.

ghost use Rattle.std.specs.Ordering.{eq_by_cmp};
ghost use Rattle.mlir_tree.specs.Order.{ty_cmp};
ghost use Rattle.mlir_tree.specs.TyKeys.{ty_input, ty_equivalence, ty_partial, ty_alike};

use crate::ty::{Ty, TyNode};
use std::hash::{Hash, Hasher};

impl PartialEq for Ty {
    ghost eq = { eq_by_cmp ty_cmp };

    ghost laws = { ty_partial };

    fn eq(&self, other: &Ty) -> bool {
        self.cmp(other).is_eq()
    }
}

impl Eq for Ty {
    ghost laws = { ty_equivalence };
}

impl Hash for Ty {
    ghost hash_input = { ty_input };

    ghost respects_eq = { ty_alike };

    fn hash<H: Hasher>(&self, state: &mut H) {
        match &self.node {
            TyNode::Int(_, width) => state.write_u32(*width),
            TyNode::Index => state.write_u8(1),
            TyNode::Func(_, _) => state.write_u8(2),
            TyNode::Word(text) => state.write(text.as_slice()),
        }
    }
}
