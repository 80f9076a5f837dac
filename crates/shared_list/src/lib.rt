//! Lists that are shared and never change.
#![tactic(auto)]

ghost use Rattle.std.specs.Prelude.{◌≡◌, ◌↔◌, ◌<◌, [], length, slice_get, IfOk, IsTrue, OnSome};
ghost use Rattle.std.specs.Option.{option_copied};

use sqlite_items::Items;
use std::alloc::{AllocError, Global};
use std::marker::Model;
use std::rc::Rc;

/// A list that contracts see as the list of its elements. It never changes, and a copy shares the elements: it takes no
/// memory. An empty one takes none either.
pub struct Shared<T> {
    inner: Option<Rc<Items<T>>>,
}

impl<T: Drop> Drop for Shared<T> {
    fn drop(self) {
        let Shared { inner: _inner } = self;
    }
}

impl<T> Model for Shared<T> {
    ghost use Rattle.std.specs.Prelude.{List};
    ghost use Rattle.std.specs.Coded.{coded_list};

    ghost Value = { List T };

    ghost coded = { coded_list T.code };

    ghost use Rattle.shared_list.specs.View.{items_of};

    ghost view = { λ s. items_of s.inner };
}

impl<T> Shared<T> {
    /// The list of no element.
    pub fn empty() -> Shared<T>
        ensures { result ≡ [] }
    {
        Shared { inner: None }
    }

    pub fn as_slice(&self) -> &[T]
        ensures { result.now ≡ self.now }
    {
        match &self.inner {
            None => &[],
            Some(items) => items.as_ref().as_slice(),
        }
    }

    pub fn len(&self) -> usize
        ensures { result ≡ length self.now }
    {
        self.as_slice().len()
    }

    pub fn get(&self, at: usize) -> Option<&T>
        ensures value { option_copied result ≡ slice_get self.now at }
        ensures within { OnSome result (at < length self.now) }
    {
        self.as_slice().get(at)
    }

    pub fn is_empty(&self) -> bool
        ensures { IsTrue result ↔ (self.now ≡ []) }
    {
        self.as_slice().is_empty()
    }
}

impl<T: Drop> Shared<T> {
    /// The list of these elements.
    pub fn new(alloc: Global, items: Items<T>) -> Result<Shared<T>, AllocError>
        ensures { IfOk result (λ s. s ≡ items) }
    {
        if items.is_empty() {
            return Ok(Shared { inner: None });
        }
        Ok(Shared {
            inner: Some(Rc::new(alloc, items)?),
        })
    }

    /// An equal list, which shares the elements.
    pub fn copy(&self) -> Result<Shared<T>, AllocError>
        ensures { IfOk result (λ s. s ≡ self.now) }
    {
        match &self.inner {
            None => Ok(Shared { inner: None }),
            Some(items) => Ok(Shared {
                inner: Some(items.clone()?),
            }),
        }
    }
}

impl<T: Copy> Shared<T> {
    pub fn from_slice(alloc: Global, items: &[T]) -> Result<Shared<T>, AllocError>
        ensures { IfOk result (λ it. it ≡ items.now) }
    {
        Shared::new(alloc, Items::from_slice(alloc, items)?)
    }
}
