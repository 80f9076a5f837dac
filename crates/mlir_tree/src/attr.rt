//! Attributes.

ghost use Rattle.std.specs.Prelude.{◌≡◌, ◌↔◌, List, [], ◌∷◌, Some, None, IfOk, IsTrue, option_copied};
ghost use Rattle.mlir_tree.specs.Tree.{unit, int_attr, num, str, sym, of_ty, array, dict, kept, attrs, entries};
ghost use Rattle.mlir_tree.specs.Order.{attr_cmp, attrs_cmp, entries_cmp};
ghost use Rattle.mlir_tree.specs.Range.{IsInRange, AreRising, entry_names, attr_type};
ghost use Rattle.mlir_tree.specs.AttrView.{node_rank};

use crate::number::{Number, cmp_numbers};
use crate::text::{Text, TextList, cmp_texts, copy_text};
use crate::ty::{Ty, cmp_ty_options, copy_ty_option};
use shared_list::Shared;
use std::alloc::{AllocError, Global};
use std::cmp::Ordering;
use std::marker::Model;

/// An attribute (MLIR Language Reference, "Attributes"). Contracts see it as a tree, and code looks at its node.
///
/// At each depth an integer is in the range of its type, and the names of a dictionary rise.
#[cycle(attr)]
#[derive(Drop)]
pub struct Attr {
    pub node: AttrNode,
}

/// The unit attribute, an integer, a number as it is written (a float), a string, a symbol reference, a type, an
/// array, a dictionary, or any other attribute as it is written.
#[cycle(attr)]
#[derive(Drop)]
pub enum AttrNode {
    Unit,
    Int(Number, Ty),
    Num(Text, Ty),
    Str(Text, Option<Ty>),
    Sym(TextList),
    OfTy(Ty),
    Array(AttrList),
    Dict(Dict),
    Kept(Text, Option<Ty>),
}

/// A list of attributes.
pub type AttrList = Shared<Attr>;

/// The entries of a dictionary: names with their attributes.
pub type Dict = Shared<(Text, Attr)>;

impl Model for Attr {
    ghost use Rattle.mlir_tree.specs.Tree.{Attr as Meaning};
    ghost use Rattle.mlir_tree.specs.Codes.{coded_attr};

    ghost Value = { Meaning };

    ghost coded = { coded_attr };

    ghost use Rattle.mlir_tree.specs.Measure.{attr_size};
    ghost use Rattle.mlir_tree.specs.Range.{IsSound};
    ghost use Rattle.mlir_tree.specs.AttrView.{attr_of};

    ghost view = { λ t. attr_of t.node };

    ghost invariant = { λ t. IsSound (attr_of t.node) };

    ghost size = { attr_size };

    ghost use Rattle.mlir_tree.specs.AttrFalls.{attr_falls};

    ghost size_decreases = { λ a h. attr_falls a.node };
}

impl Attr {
    /// The unit attribute.
    pub fn unit() -> Attr
        ensures { result ≡ unit }
    {
        Attr {
            node: AttrNode::Unit,
        }
    }

    /// An integer of this type.
    pub fn int(number: Number, ty: Ty) -> Attr
        requires { IsInRange ty number }
        ensures { result ≡ int_attr number ty }
    {
        Attr {
            node: AttrNode::Int(number, ty),
        }
    }

    /// The number that is written so, of this type.
    pub fn num(text: Text, ty: Ty) -> Attr
        ensures { result ≡ num text ty }
    {
        Attr {
            node: AttrNode::Num(text, ty),
        }
    }

    /// The string of these bytes, with a type where one is given.
    pub fn str(text: Text, ty: Option<Ty>) -> Attr
        ensures { result ≡ str text ty }
    {
        Attr {
            node: AttrNode::Str(text, ty),
        }
    }

    /// The reference to the symbol of these nested names.
    pub fn sym(names: TextList) -> Attr
        ensures { result ≡ sym names }
    {
        Attr {
            node: AttrNode::Sym(names),
        }
    }

    /// The type as an attribute.
    pub fn of_ty(ty: Ty) -> Attr
        ensures { result ≡ of_ty ty }
    {
        Attr {
            node: AttrNode::OfTy(ty),
        }
    }

    /// The array of these attributes.
    pub fn array(items: AttrList) -> Attr
        ensures { result ≡ array (attrs items) }
    {
        Attr {
            node: AttrNode::Array(items),
        }
    }

    /// The dictionary of these entries.
    pub fn dict(items: Dict) -> Attr
        requires { AreRising (entry_names (entries items)) }
        ensures { result ≡ dict (entries items) }
    {
        Attr {
            node: AttrNode::Dict(items),
        }
    }

    /// The attribute that is written so, with a type where one is given.
    pub fn kept(text: Text, ty: Option<Ty>) -> Attr
        ensures { result ≡ kept text ty }
    {
        Attr {
            node: AttrNode::Kept(text, ty),
        }
    }

    /// The type that the attribute carries.
    pub fn ty(&self) -> Option<&Ty>
        ensures { option_copied result ≡ attr_type self.now }
    {
        match &self.node {
            AttrNode::Int(_, ty) | AttrNode::Num(_, ty) => Some(ty),
            AttrNode::Str(_, ty) | AttrNode::Kept(_, ty) => ty.as_ref(),
            _ => None,
        }
    }

    /// An equal attribute, which shares the parts of this one.
    pub fn copy(&self, alloc: Global) -> Result<Attr, AllocError>
        ensures { IfOk result (λ t. t ≡ self.now) }
    {
        let node = match &self.node {
            AttrNode::Unit => AttrNode::Unit,
            AttrNode::Int(number, ty) => AttrNode::Int(*number, ty.copy(alloc)?),
            AttrNode::Num(text, ty) => AttrNode::Num(copy_text(alloc, text)?, ty.copy(alloc)?),
            AttrNode::Str(text, ty) => AttrNode::Str(
                copy_text(alloc, text)?,
                copy_ty_option(alloc, ty)?,
            ),
            AttrNode::Sym(names) => AttrNode::Sym(names.copy()?),
            AttrNode::OfTy(ty) => AttrNode::OfTy(ty.copy(alloc)?),
            AttrNode::Array(items) => AttrNode::Array(items.copy()?),
            AttrNode::Dict(items) => AttrNode::Dict(items.copy()?),
            AttrNode::Kept(text, ty) => AttrNode::Kept(
                copy_text(alloc, text)?,
                copy_ty_option(alloc, ty)?,
            ),
        };
        Ok(Attr { node })
    }

    /// The order by variants as they are declared, then by fields from left to right.
    #[cycle(cmp_attr)]
    pub fn cmp(&self, other: &Attr) -> Ordering
        ensures { result ≡ attr_cmp self.now other.now }
    {
        match (&self.node, &other.node) {
            (AttrNode::Int(m, t), AttrNode::Int(n, u)) => cmp_numbers(*m, *n).then(t.cmp(u)),
            (AttrNode::Num(m, t), AttrNode::Num(n, u)) => m
                .as_slice()
                .cmp(n.as_slice())
                .then(t.cmp(u)),
            (AttrNode::Str(m, t), AttrNode::Str(n, u)) => m
                .as_slice()
                .cmp(n.as_slice())
                .then(cmp_ty_options(t, u)),
            (AttrNode::Sym(m), AttrNode::Sym(n)) => cmp_texts(m.as_slice(), n.as_slice()),
            (AttrNode::OfTy(t), AttrNode::OfTy(u)) => t.cmp(u),
            (AttrNode::Array(a), AttrNode::Array(b)) => cmp_attrs(a.as_slice(), b.as_slice()),
            (AttrNode::Dict(a), AttrNode::Dict(b)) => cmp_dicts(a.as_slice(), b.as_slice()),
            (AttrNode::Kept(m, t), AttrNode::Kept(n, u)) => m
                .as_slice()
                .cmp(n.as_slice())
                .then(cmp_ty_options(t, u)),
            (m, n) => rank(m).cmp(&rank(n)),
        }
    }

    /// Whether the attributes are equal.
    pub fn equal(&self, other: &Attr) -> bool
        ensures { IsTrue result ↔ (self.now ≡ other.now) }
    {
        self.cmp(other).is_eq()
    }
}

fn rank(node: &AttrNode) -> u8
    ensures { result ≡ node_rank node.now }
{
    match node {
        AttrNode::Unit => 0,
        AttrNode::Int(_, _) => 1,
        AttrNode::Num(_, _) => 2,
        AttrNode::Str(_, _) => 3,
        AttrNode::Sym(_) => 4,
        AttrNode::OfTy(_) => 5,
        AttrNode::Array(_) => 6,
        AttrNode::Dict(_) => 7,
        AttrNode::Kept(_, _) => 8,
    }
}

/// The order of lists of attributes by their first difference.
#[cycle(cmp_attr)]
pub fn cmp_attrs(a: &[Attr], b: &[Attr]) -> Ordering
    ensures { result ≡ attrs_cmp (attrs a.now) (attrs b.now) }
{
    let mut at = 0;
    while at < a.len() && at < b.len() {
        let step = a[at].cmp(&b[at]);
        if step.is_ne() {
            return step;
        }
        at += 1;
    }
    a.len().cmp(&b.len())
}

/// The order of lists of entries by their first difference: names before attributes.
#[cycle(cmp_attr)]
pub fn cmp_dicts(a: &[(Text, Attr)], b: &[(Text, Attr)]) -> Ordering
    ensures { result ≡ entries_cmp (entries a.now) (entries b.now) }
{
    let mut at = 0;
    while at < a.len() && at < b.len() {
        let (x, y) = (&a[at], &b[at]);
        let step = x.0.as_slice().cmp(y.0.as_slice()).then(x.1.cmp(&y.1));
        if step.is_ne() {
            return step;
        }
        at += 1;
    }
    a.len().cmp(&b.len())
}

/// Whether the entries are equal one by one.
pub fn equal_dicts(a: &[(Text, Attr)], b: &[(Text, Attr)]) -> bool
    ensures { IsTrue result ↔ (a.now ≡ b.now) }
{
    cmp_dicts(a, b).is_eq()
}
