//! Declarations that are called by name.

ghost use Rattle.std.specs.Prelude.{◌≡◌, ◌<◌, ◌∷◌, ◌++◌, [], List, take, length, slice_get, option_copied, IfSome, OnOk, OnErr};
ghost use Rattle.pdll_syntax.specs.declared.file.CallDecl.{CallDecl as Called};
ghost use Rattle.pdll_expand.specs.Called.{last_named, name_at, calls_in, IsTable};

use indexmap::IndexMap;
use pdll_syntax::file::CallDecl;
use sqlite_items::Items;
use std::alloc::{AllocError, Global};

/// A declaration, with the place of the last one of its name before it.
#[derive(Clone, Copy)]
pub struct Known<'t> {
    pub call: &'t CallDecl,
    pub older: Option<usize>,
}

/// Declarations in their order. The last one of a name is found by hashing.
#[derive(Drop)]
pub struct Declared<'t> {
    calls: Items<Known<'t>>,
    newest: IndexMap<&'t [u8], usize>,
}

/// A number, if it is below another.
fn below(number: Option<usize>, limit: usize) -> Option<usize>
    ensures within { IfSome result (λ k. k < limit) }
    ensures same { IfSome number (λ k. k < limit) → result ≡ number }
{
    match number {
        None => None,
        Some(k) => { if k < limit { Some(k) } else { None } }
    }
}

impl<'t> Declared<'t> {
    /// None is declared.
    pub fn new(alloc: Global) -> Self
        ensures { IsTable result [] }
    {
        Declared {
            calls: Items::new(alloc),
            newest: IndexMap::new(alloc),
        }
    }

    /// How many are declared.
    pub fn len(&self) -> usize
        ensures { (calls : List Called) → IsTable self.now calls → result ≡ length calls }
    {
        self.calls.len()
    }

    /// The declaration at a place.
    pub fn get(&self, at: usize) -> Option<&'t CallDecl>
        ensures here { option_copied result ≡ slice_get (calls_in self.now) at }
        ensures found { (calls : List Called) → IsTable self.now calls → option_copied result ≡ slice_get calls at }
    {
        match self.calls.get(at) {
            None => None,
            Some(known) => Some(known.call),
        }
    }

    /// Adds a declaration. It hides older ones of its name.
    pub fn add(&mut self, call: &'t CallDecl) -> Result<(), AllocError>
        ensures added { (calls : List Called) → IsTable self.old calls → OnOk result (IsTable self.new (calls ++ call.now ∷ [])) }
        ensures more { OnOk result (calls_in self.new ≡ calls_in self.old ++ call.now ∷ []) }
        ensures same { OnErr result (calls_in self.new ≡ calls_in self.old) }
        ensures kept { (calls : List Called) → IsTable self.old calls → OnErr result (IsTable self.new calls) }
    {
        self.newest.reserve(1)?;
        let at = self.calls.len();
        let older = self.newest(call.name.text.as_slice());
        self.calls.push(Known { call, older })?;
        self.newest.insert(call.name.text.as_slice(), at)?;
        Ok(())
    }

    /// The place of the last one of a name.
    fn newest(&self, name: &[u8]) -> Option<usize>
        ensures { (calls : List Called) → IsTable self.now calls → result ≡ last_named name.now calls }
    {
        match self.newest.get(name) {
            None => None,
            Some(at) => Some(*at),
        }
    }

    /// The place of the last one of the same name before this one.
    fn older(&self, at: usize) -> Option<usize>
        ensures before { IfSome result (λ k. k < at) }
        ensures found { (calls : List Called) → IsTable self.now calls → at < length calls → result ≡ last_named (name_at calls at) (take at calls) }
    {
        match self.calls.get(at) {
            None => None,
            Some(known) => below(known.older, at),
        }
    }

    /// The place of the last one of a name among the first `count`.
    pub fn find(&self, name: &[u8], count: usize) -> Option<usize>
        ensures within { IfSome result (λ k. k < count) }
        ensures found { (calls : List Called) → IsTable self.now calls → result ≡ last_named name.now (take count calls) }
    {
        let mut found = self.newest(name);
        while let Some(at) = found {
            if at < count {
                return found;
            }
            found = self.older(at);
        }
        None
    }
}
