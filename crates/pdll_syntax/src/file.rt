//! Declarations and whole files.

ghost use Rattle.std.specs.Prelude.{◌≡◌, ◌↔◌, IfOk, IsTrue};
ghost use Rattle.pdll_syntax.specs.Equal.{option_eq, name_eq, ref_eq, list_eq, meta_form_eq, meta_eq, param_eq, pattern_eq, call_eq, decl_eq, file_eq};

use crate::expr::{Ref, same_ref};
use crate::name::Name;
use crate::stmt::{Body, Param};
use sqlite_items::Items;
use std::alloc::{AllocError, Global};

/// A pattern file.
#[derive(Drop)]
pub struct PatFile {
    /// Its declarations in the order of the text.
    pub decls: Items<Decl>,
}

/// A declaration.
#[derive(Drop)]
pub enum Decl {
    Pattern(PatternDecl),
    Constraint(CallDecl),
    Rewrite(CallDecl),
}

/// A pattern.
#[derive(Drop)]
pub struct PatternDecl {
    /// The place of the word `Pattern`.
    pub at: usize,
    pub name: Option<Name>,
    pub metas: Items<Meta>,
    pub body: Body,
}

/// A constraint or a rewrite that can be called.
#[derive(Drop)]
pub struct CallDecl {
    /// The place of the word `Constraint` or `Rewrite`.
    pub at: usize,
    pub name: Name,
    pub params: Items<Param>,
    /// The kind of a rewrite's result.
    pub gives: Option<Ref>,
    pub body: Body,
}

/// What is said of a pattern behind `with`.
#[derive(Clone, Copy, Debug, PartialEq, Eq)]
pub struct Meta {
    /// The place of its word.
    pub at: usize,
    pub form: MetaForm,
}

/// A benefit, or that the pattern may match what it made.
#[derive(Clone, Copy, Debug, PartialEq, Eq)]
pub enum MetaForm {
    /// `benefit(number)`
    Benefit(u16),
    /// `recursion`
    Recursion,
}

impl PatFile {
    /// An equal file.
    pub fn copy(&self, alloc: Global) -> Result<PatFile, AllocError>
        ensures { IfOk result (λ f. f ≡ self.now) }
    {
        let decls = copy_decls(alloc, self.decls.as_slice())?;
        Ok(PatFile { decls })
    }

    /// Whether two files are equal, places too.
    pub fn equal(&self, other: &PatFile) -> bool
        ensures { IsTrue result ↔ (self.now ≡ other.now) }
    {
        same_decls(self.decls.as_slice(), other.decls.as_slice())
    }
}

impl Decl {
    /// An equal declaration.
    pub fn copy(&self, alloc: Global) -> Result<Decl, AllocError>
        ensures { IfOk result (λ d. d ≡ self.now) }
    {
        match self {
            Decl::Pattern(pattern) => Ok(Decl::Pattern(pattern.copy(alloc)?)),
            Decl::Constraint(call) => Ok(Decl::Constraint(call.copy(alloc)?)),
            Decl::Rewrite(call) => Ok(Decl::Rewrite(call.copy(alloc)?)),
        }
    }
}

impl PatternDecl {
    /// An equal pattern.
    pub fn copy(&self, alloc: Global) -> Result<PatternDecl, AllocError>
        ensures { IfOk result (λ p. p ≡ self.now) }
    {
        let name = copy_maybe_name(alloc, &self.name)?;
        let metas = Items::from_slice(alloc, self.metas.as_slice())?;
        let body = self.body.copy(alloc)?;
        Ok(PatternDecl {
            at: self.at,
            name,
            metas,
            body,
        })
    }
}

impl CallDecl {
    /// An equal constraint or rewrite.
    pub fn copy(&self, alloc: Global) -> Result<CallDecl, AllocError>
        ensures { IfOk result (λ c. c ≡ self.now) }
    {
        let name = self.name.copy(alloc)?;
        let params = copy_params(alloc, self.params.as_slice())?;
        let gives = copy_maybe_ref(alloc, &self.gives)?;
        let body = self.body.copy(alloc)?;
        Ok(CallDecl {
            at: self.at,
            name,
            params,
            gives,
            body,
        })
    }
}

fn copy_maybe_name(alloc: Global, name: &Option<Name>) -> Result<Option<Name>, AllocError>
    ensures { IfOk result (λ n. n ≡ name.now) }
{
    match name {
        None => Ok(None),
        Some(name) => Ok(Some(name.copy(alloc)?)),
    }
}

fn copy_maybe_ref(alloc: Global, gives: &Option<Ref>) -> Result<Option<Ref>, AllocError>
    ensures { IfOk result (λ r. r ≡ gives.now) }
{
    match gives {
        None => Ok(None),
        Some(gives) => Ok(Some(gives.copy(alloc)?)),
    }
}

/// An equal list of parameters.
pub fn copy_params(alloc: Global, all: &[Param]) -> Result<Items<Param>, AllocError>
    ensures { IfOk result (λ ps. ps ≡ all.now) }
{
    let mut copied = Items::new(alloc);
    for param in all {
        copied.push(param.copy(alloc)?)?;
    }
    Ok(copied)
}

/// An equal list of declarations.
pub fn copy_decls(alloc: Global, all: &[Decl]) -> Result<Items<Decl>, AllocError>
    ensures { IfOk result (λ ds. ds ≡ all.now) }
{
    let mut copied = Items::new(alloc);
    for decl in all {
        copied.push(decl.copy(alloc)?)?;
    }
    Ok(copied)
}

fn same_maybe_name(x: &Option<Name>, y: &Option<Name>) -> bool
    ensures { result ≡ option_eq name_eq x.now y.now }
{
    match (x, y) {
        (None, None) => true,
        (Some(n), Some(m)) => n.same(m),
        _ => false,
    }
}

fn same_maybe_ref(x: &Option<Ref>, y: &Option<Ref>) -> bool
    ensures { result ≡ option_eq ref_eq x.now y.now }
{
    match (x, y) {
        (None, None) => true,
        (Some(r), Some(s)) => same_ref(r, s),
        _ => false,
    }
}

fn same_meta_form(x: MetaForm, y: MetaForm) -> bool
    ensures { result ≡ meta_form_eq x y }
{
    match (x, y) {
        (MetaForm::Benefit(n), MetaForm::Benefit(m)) => n == m,
        (MetaForm::Recursion, MetaForm::Recursion) => true,
        _ => false,
    }
}

fn same_meta(x: &Meta, y: &Meta) -> bool
    ensures { result ≡ meta_eq x.now y.now }
{
    x.at == y.at && same_meta_form(x.form, y.form)
}

fn same_metas(a: &[Meta], b: &[Meta]) -> bool
    ensures { result ≡ list_eq meta_eq a.now b.now }
{
    let mut at = 0;
    while at < a.len() && at < b.len() {
        if !same_meta(&a[at], &b[at]) {
            return false;
        }
        at += 1;
    }
    a.len() == b.len()
}

fn same_params(a: &[Param], b: &[Param]) -> bool
    ensures { result ≡ list_eq param_eq a.now b.now }
{
    let mut at = 0;
    while at < a.len() && at < b.len() {
        if !a[at].same(&b[at]) {
            return false;
        }
        at += 1;
    }
    a.len() == b.len()
}

fn same_pattern(x: &PatternDecl, y: &PatternDecl) -> bool
    ensures { result ≡ pattern_eq x.now y.now }
{
    x.at == y.at
        && same_maybe_name(&x.name, &y.name)
        && same_metas(x.metas.as_slice(), y.metas.as_slice())
        && x.body.same(&y.body)
}

fn same_call(x: &CallDecl, y: &CallDecl) -> bool
    ensures { result ≡ call_eq x.now y.now }
{
    x.at == y.at
        && x.name.same(&y.name)
        && same_params(x.params.as_slice(), y.params.as_slice())
        && same_maybe_ref(&x.gives, &y.gives)
        && x.body.same(&y.body)
}

fn same_decl(x: &Decl, y: &Decl) -> bool
    ensures { result ≡ decl_eq x.now y.now }
{
    match (x, y) {
        (Decl::Pattern(p), Decl::Pattern(q)) => same_pattern(p, q),
        (Decl::Constraint(c), Decl::Constraint(d)) => same_call(c, d),
        (Decl::Rewrite(c), Decl::Rewrite(d)) => same_call(c, d),
        _ => false,
    }
}

fn same_decls(a: &[Decl], b: &[Decl]) -> bool
    ensures { result ≡ list_eq decl_eq a.now b.now }
{
    let mut at = 0;
    while at < a.len() && at < b.len() {
        if !same_decl(&a[at], &b[at]) {
            return false;
        }
        at += 1;
    }
    a.len() == b.len()
}
