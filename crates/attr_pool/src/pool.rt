//! The pool of a module's types, attributes and names.

ghost use Rattle.std.specs.Prelude.{◌≡◌, ◌↔◌, ◌<◌, [], length, slice_get, None, Some, IfOk, IfSome, OnErr};
ghost use Rattle.attr_pool.specs.Lists.{AreApart, IsAbsent, Interns};

use indexmap::{IndexMap, IndexSet};
use mlir_tree::attr::Attr;
use mlir_tree::text::Text;
use mlir_tree::ty::Ty;
use shared_text::SharedText;
use std::alloc::{AllocError, Global};
use std::marker::Model;

/// The place of a value in a pool's list of its sort.
#[derive(Clone, Copy, Debug, PartialEq, Eq, Hash)]
pub struct Key(pub u64);

/// The types, attributes and names of a module, each once (MLIR Language Reference, "Type System" and "Attributes":
/// equal types and equal attributes are one). Contracts see three lists without repeats.
#[derive(Drop)]
pub struct Pool {
    types: IndexSet<Ty>,
    attributes: IndexSet<Attr>,
    names: IndexMap<Vec<u8>, Text>,
}

impl Model for Pool {
    ghost use Rattle.attr_pool.specs.Lists.{Lists, coded_lists};
    ghost use Rattle.attr_pool.specs.Names.{names_of, AreNamed};

    ghost Value = { Lists };

    ghost coded = { coded_lists };

    ghost view = { λ p. record { types = p.types.keys; attributes = p.attributes.keys; names = names_of p.names.entries } };

    ghost invariant = { λ p. AreNamed p.names.entries };
}

impl Pool {
    /// The pool of no value. It takes no memory.
    pub fn new(alloc: Global) -> Pool
        ensures types { result.types ≡ [] }
        ensures attributes { result.attributes ≡ [] }
        ensures names { result.names ≡ [] }
    {
        Pool {
            types: IndexSet::new(alloc),
            attributes: IndexSet::new(alloc),
            names: IndexMap::new(alloc),
        }
    }

    /// Two keys of one sort are equal exactly where their values are.
    pub fn apart(&self)
        ensures types { AreApart self.now.types }
        ensures attributes { AreApart self.now.attributes }
        ensures names { AreApart self.now.names }
    {
        let _ = self.types.len();
        let _ = self.attributes.len();
        let _ = self.names.len();
    }

    /// The key of a type, which is added last where it isn't there. For want of memory nothing changes.
    pub fn intern_ty(&mut self, alloc: Global, ty: &Ty) -> Result<Key, AllocError>
        ensures interned { IfOk result (λ key. Interns self.old.types self.new.types ty.now key.0) }
        ensures attributes { self.new.attributes ≡ self.old.attributes }
        ensures names { self.new.names ≡ self.old.names }
        ensures refused { OnErr result (self.new ≡ self.old) }
    {
        if let Some(place) = self.types.get_index_of(ty) {
            return Ok(Key(place as u64));
        }
        let (place, _) = self.types.insert_full(ty.copy(alloc)?)?;
        Ok(Key(place as u64))
    }

    /// The key of an attribute, which is added last where it isn't there. For want of memory nothing changes.
    pub fn intern_attr(&mut self, alloc: Global, attr: &Attr) -> Result<Key, AllocError>
        ensures interned { IfOk result (λ key. Interns self.old.attributes self.new.attributes attr.now key.0) }
        ensures types { self.new.types ≡ self.old.types }
        ensures names { self.new.names ≡ self.old.names }
        ensures refused { OnErr result (self.new ≡ self.old) }
    {
        if let Some(place) = self.attributes.get_index_of(attr) {
            return Ok(Key(place as u64));
        }
        let (place, _) = self.attributes.insert_full(attr.copy(alloc)?)?;
        Ok(Key(place as u64))
    }

    /// The key of a name, which is added last where it isn't there. For want of memory nothing changes.
    pub fn intern_name(&mut self, alloc: Global, name: &[u8]) -> Result<Key, AllocError>
        ensures interned { IfOk result (λ key. Interns self.old.names self.new.names name.now key.0) }
        ensures types { self.new.types ≡ self.old.types }
        ensures attributes { self.new.attributes ≡ self.old.attributes }
        ensures refused { OnErr result (self.new ≡ self.old) }
    {
        if let Some(place) = self.names.get_index_of(name) {
            return Ok(Key(place as u64));
        }
        let bytes = Vec::from_slice(alloc, name)?;
        let text = SharedText::from_slice(alloc, name)?;
        let place = self.names.len();
        self.names.insert(bytes, text)?;
        Ok(Key(place as u64))
    }

    /// The type of a key.
    pub fn ty(&self, key: Key) -> &Ty
        requires within { key.0 < length self.now.types }
        ensures { slice_get self.now.types key.0 ≡ Some result.now }
    {
        match self.types.get_index(key.0 as usize) {
            Some(ty) => ty,
            None => unreachable!(),
        }
    }

    /// The attribute of a key.
    pub fn attr(&self, key: Key) -> &Attr
        requires within { key.0 < length self.now.attributes }
        ensures { slice_get self.now.attributes key.0 ≡ Some result.now }
    {
        match self.attributes.get_index(key.0 as usize) {
            Some(attr) => attr,
            None => unreachable!(),
        }
    }

    /// The name of a key.
    pub fn name(&self, key: Key) -> &Text
        requires within { key.0 < length self.now.names }
        ensures { slice_get self.now.names key.0 ≡ Some result.now }
    {
        match self.names.get_index(key.0 as usize) {
            Some((_, text)) => text,
            None => unreachable!(),
        }
    }

    /// The key of a name that was interned. None exactly where it wasn't. It takes no memory.
    pub fn find_name(&self, name: &Text) -> Option<Key>
        ensures found { IfSome result (λ key. slice_get self.now.names key.0 ≡ Some name.now) }
        ensures none { (result ≡ None) ↔ IsAbsent name.now self.now.names }
    {
        match self.names.get_index_of(name.as_slice()) {
            Some(place) => Some(Key(place as u64)),
            None => None,
        }
    }
}
