//! What a name means.

ghost use Rattle.std.specs.Prelude.{◌≡◌, ◌+◌, ◌<◌, ◌≤◌, length};
ghost use Rattle.mlir_resolve.specs.Sight.{place_of, value_at};

use mlir_tree::ty::Ty;
use mlir_tree::value::Val;

/// What a name means: the first of its values, and the types of them all.
#[derive(Clone, Copy)]
pub struct Named<'t> {
    pub first: Val,
    pub types: &'t [Ty],
    ghost in_range: { place_of first + length types.now ≤ 65535 },
}

impl<'t> Named<'t> {
    /// The value at this place of the name.
    pub fn value_at(self, index: u16) -> Val
        requires { index < length self.types.now }
        ensures { result ≡ value_at self.entry.first index }
    {
        match self.first {
            Val::Res(d, k) => Val::Res(d, k + index),
            Val::Arg(d, g, k) => Val::Arg(d, g, k + index),
        }
    }
}
