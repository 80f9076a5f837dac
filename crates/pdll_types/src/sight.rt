//! The variables in sight, and the words that declare variables.

ghost use Rattle.std.specs.Prelude.{◌≡◌, [], OnOk, IfOk, codes, not};
ghost use Rattle.std.specs.Option.{option_and_then};
ghost use Rattle.pdll_types.specs.Sight.{variable_of, is_in_sight, sight_with, is_blank, is_word, with_word};

use crate::kind::{Kind, copy_maybe_kind};
use indexmap::{IndexMap, IndexSet};
use std::alloc::{AllocError, Global};
use std::marker::Model;

/// The variables in sight, in the order in which they came into sight.
#[derive(Drop)]
pub struct Sight<'t> {
    variables: IndexMap<&'t [u8], Option<Kind>>,
}

impl<'t> Model for Sight<'t> {
    ghost use Rattle.std.specs.Prelude.{List, map};
    ghost use Rattle.pdll_types.specs.Sight.{Known};
    ghost use Rattle.pdll_types.specs.Codes.{coded_sight};

    ghost Value = { List Known };

    ghost coded = { coded_sight };

    ghost view = { λ s. map (λ e. record { name = e.0.now; kind = e.1 }) s.variables.entries };
}

/// Words, each once.
#[derive(Drop)]
pub struct Words<'t> {
    words: IndexSet<&'t [u8]>,
}

impl<'t> Model for Words<'t> {
    ghost use Rattle.std.specs.Prelude.{List, ℕ, map};

    ghost Value = { List (List ℕ) };

    ghost view = { λ s. map (λ w. w.now) s.words.keys };
}

/// Whether the name is `_`.
pub fn is_blank(name: &[u8]) -> bool
    ensures { result ≡ is_blank name.now }
{
    name == b"_".as_slice()
}

impl<'t> Sight<'t> {
    pub fn new(alloc: Global) -> Sight<'t>
        ensures { result ≡ [] }
    {
        Sight {
            variables: IndexMap::new(alloc),
        }
    }

    /// Takes all variables out of sight.
    pub fn clear(&mut self)
        ensures { self.new ≡ [] }
    {
        self.variables.clear();
    }

    /// Whether a variable has the name.
    pub fn has(&self, name: &[u8]) -> bool
        ensures { result ≡ is_in_sight self.now name.now }
    {
        self.variables.get(name).is_some()
    }

    /// The kind of the variable of this name.
    pub fn kind(&self, alloc: Global, name: &[u8]) -> Result<Option<Kind>, AllocError>
        ensures { IfOk result (λ k. k ≡ option_and_then (λ v. v.kind) (variable_of self.now name.now)) }
    {
        match self.variables.get(name) {
            None => Ok(None),
            Some(kind) => copy_maybe_kind(alloc, kind),
        }
    }

    /// Brings a variable into sight, if its name is new and isn't `_`.
    pub fn show(&mut self, name: &'t [u8], kind: Option<Kind>) -> Result<(), AllocError>
        ensures { OnOk result (self.new ≡ sight_with self.old name.now kind) }
    {
        if is_blank(name) || self.has(name) {
            return Ok(());
        }
        self.variables.insert(name, kind)?;
        Ok(())
    }
}

impl<'t> Words<'t> {
    pub fn new(alloc: Global) -> Words<'t>
        ensures { result ≡ [] }
    {
        Words {
            words: IndexSet::new(alloc),
        }
    }

    /// Takes all words away.
    pub fn clear(&mut self)
        ensures { self.new ≡ [] }
    {
        self.words.clear();
    }

    /// Puts a word there, and says whether it was there before.
    pub fn put(&mut self, word: &'t [u8]) -> Result<bool, AllocError>
        ensures was { IfOk result (λ b. b ≡ is_word self.old word.now) }
        ensures put { OnOk result (self.new ≡ with_word self.old word.now) }
    {
        let is_new = self.words.insert(word)?;
        Ok(!is_new)
    }
}
