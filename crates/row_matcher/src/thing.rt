//! Things of a module.

ghost use Rattle.std.specs.Prelude.{◌≡◌, ◌↔◌, IfOk, IsTrue};
ghost use Rattle.rewrite_model.specs.Things.{kind_of};
ghost use Rattle.row_matcher.specs.View.{thing_of, seen_of};

use mlir_tree::attr::Attr;
use mlir_tree::ty::{Ty, TyList, copy_tys, equal_tys};
use mlir_tree::value::{Val, ValList, equal_vals};
use native_set::native::Kind;
use std::alloc::{AllocError, Global};

/// A thing is an operation, a value, a list of values, an attribute, a type or a list of types.
#[derive(Drop)]
pub enum Thing {
    Op(u32),
    Value(Val),
    Values(ValList),
    Attr(Attr),
    Ty(Ty),
    Tys(TyList),
}

/// A thing that stands elsewhere.
#[derive(Clone, Copy)]
pub enum Seen<'a> {
    Op(u32),
    Value(Val),
    Values(&'a [Val]),
    Attr(&'a Attr),
    Ty(&'a Ty),
    Tys(&'a [Ty]),
}

impl Thing {
    /// The thing, where it stands.
    pub fn seen(&self) -> Seen<'_>
        ensures { seen_of result ≡ thing_of self.now }
    {
        match self {
            Thing::Op(id) => Seen::Op(*id),
            Thing::Value(v) => Seen::Value(*v),
            Thing::Values(vs) => Seen::Values(vs.as_slice()),
            Thing::Attr(a) => Seen::Attr(a),
            Thing::Ty(t) => Seen::Ty(t),
            Thing::Tys(ts) => Seen::Tys(ts.as_slice()),
        }
    }

    /// An equal thing.
    pub fn copy(&self, alloc: Global) -> Result<Thing, AllocError>
        ensures { IfOk result (λ t. thing_of t ≡ thing_of self.now) }
    {
        self.seen().copied(alloc)
    }

    /// Whether the things are equal.
    pub fn equal(&self, other: &Thing) -> bool
        ensures { IsTrue result ↔ (thing_of self.now ≡ thing_of other.now) }
    {
        self.seen().equal(other.seen())
    }
}

impl<'a> Seen<'a> {
    /// An equal thing of its own.
    pub fn copied(self, alloc: Global) -> Result<Thing, AllocError>
        ensures { IfOk result (λ t. thing_of t ≡ seen_of self.entry) }
    {
        match self {
            Seen::Op(id) => Ok(Thing::Op(id)),
            Seen::Value(v) => Ok(Thing::Value(v)),
            Seen::Values(vs) => Ok(Thing::Values(ValList::from_slice(alloc, vs)?)),
            Seen::Attr(a) => Ok(Thing::Attr(a.copy(alloc)?)),
            Seen::Ty(t) => Ok(Thing::Ty(t.copy(alloc)?)),
            Seen::Tys(ts) => Ok(Thing::Tys(copy_tys(alloc, ts)?)),
        }
    }

    /// Whether the things are equal.
    pub fn equal(self, other: Seen<'_>) -> bool
        ensures { IsTrue result ↔ (seen_of self.entry ≡ seen_of other.entry) }
    {
        match (self, other) {
            (Seen::Op(x), Seen::Op(y)) => x == y,
            (Seen::Value(x), Seen::Value(y)) => x == y,
            (Seen::Values(x), Seen::Values(y)) => equal_vals(x, y),
            (Seen::Attr(x), Seen::Attr(y)) => x.equal(y),
            (Seen::Ty(x), Seen::Ty(y)) => x.equal(y),
            (Seen::Tys(x), Seen::Tys(y)) => equal_tys(x, y),
            _ => false,
        }
    }

    /// Its kind.
    pub fn kind(self) -> Kind
        ensures { result ≡ kind_of (seen_of self.entry) }
    {
        match self {
            Seen::Op(_) => Kind::Op,
            Seen::Value(_) => Kind::Value,
            Seen::Values(_) => Kind::Values,
            Seen::Attr(_) => Kind::Attr,
            Seen::Ty(_) => Kind::Ty,
            Seen::Tys(_) => Kind::Tys,
        }
    }
}
