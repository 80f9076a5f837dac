//! What is declared so far.

ghost use Rattle.std.specs.Prelude.{◌≡◌, ◌∷◌, ◌++◌, [], None, OnOk, IfOk, option_copied};
ghost use Rattle.std.specs.Option.{is_some};
ghost use Rattle.pdll_types.specs.Signatures as spec;

use crate::kind::{Kind, copy_maybe_kind};
use crate::signature::{Signature, Sort};
use indexmap::IndexMap;
use std::alloc::{AllocError, Global};
use std::marker::Model;

/// The declarations so far that have names.
#[derive(Drop)]
pub struct Table<'t> {
    by_name: IndexMap<&'t [u8], Signature>,
}

impl<'t> Model for Table<'t> {
    ghost use Rattle.std.specs.Prelude.{List, map};
    ghost use Rattle.pdll_types.specs.Signatures.{Declared};
    ghost use Rattle.pdll_types.specs.Codes.{coded_table};

    ghost Value = { List Declared };

    ghost coded = { coded_table };

    ghost view = { λ t. map (λ e. record { name = e.0.now; signature = e.1 }) t.by_name.entries };
}

impl<'t> Table<'t> {
    pub fn new(alloc: Global) -> Table<'t>
        ensures { result ≡ [] }
    {
        Table {
            by_name: IndexMap::new(alloc),
        }
    }

    /// What the name is declared as.
    pub fn find(&self, name: &[u8]) -> Option<&Signature>
        ensures { option_copied result ≡ spec.signature_of self.now name.now }
    {
        self.by_name.get(name)
    }

    /// Whether the name is declared.
    pub fn is_declared(&self, name: &[u8]) -> bool
        ensures { result ≡ is_some (spec.signature_of self.now name.now) }
    {
        match self.find(name) {
            Some(_) => true,
            None => false,
        }
    }

    /// Declares a name, which is new.
    pub fn declare(&mut self, name: &'t [u8], signature: Signature) -> Result<(), AllocError>
        requires { spec.signature_of self.old name.now ≡ None }
        ensures { OnOk result (self.new ≡ self.old ++ record { name = name.now; signature = signature } ∷ []) }
    {
        self.by_name.insert(name, signature)?;
        Ok(())
    }

    pub fn is_constraint(&self, name: &[u8]) -> bool
        ensures { result ≡ spec.is_constraint self.now name.now }
    {
        match self.find(name) {
            Some(signature) => matches!(signature.sort, Sort::Constraint),
            None => false,
        }
    }

    pub fn is_rewrite(&self, name: &[u8]) -> bool
        ensures { result ≡ spec.is_rewrite self.now name.now }
    {
        match self.find(name) {
            Some(signature) => matches!(signature.sort, Sort::Rewrite),
            None => false,
        }
    }

    /// Whether the name is one of a constraint or a rewrite.
    pub fn is_callable(&self, name: &[u8]) -> bool
        ensures { result ≡ spec.is_callable self.now name.now }
    {
        match self.find(name) {
            Some(signature) => !matches!(signature.sort, Sort::Pattern),
            None => false,
        }
    }

    /// The kinds of the parameters.
    pub fn parameters(&self, name: &[u8]) -> &[Option<Kind>]
        ensures { result.now ≡ spec.parameters self.now name.now }
    {
        match self.find(name) {
            Some(signature) => signature.params.as_slice(),
            None => &[],
        }
    }

    /// The kind of a call.
    pub fn call_kind(&self, alloc: Global, name: &[u8]) -> Result<Option<Kind>, AllocError>
        ensures { IfOk result (λ k. k ≡ spec.call_kind self.now name.now) }
    {
        match self.find(name) {
            Some(signature) => copy_maybe_kind(alloc, &signature.gives),
            None => Ok(None),
        }
    }

    /// The kind of the only parameter of a constraint.
    pub fn only_parameter(&self, alloc: Global, name: &[u8]) -> Result<Option<Kind>, AllocError>
        ensures { IfOk result (λ k. k ≡ spec.only_parameter self.now name.now) }
    {
        if !self.is_constraint(name) {
            return Ok(None);
        }
        match self.parameters(name) {
            [kind] => copy_maybe_kind(alloc, kind),
            _ => Ok(None),
        }
    }
}
