//! What was read of a match.

ghost use Rattle.std.specs.Prelude.{◌≡◌, option_map, option_copied};
ghost use Rattle.rewrite_model.specs.MatchPart as spec;
ghost use Rattle.pdll_expand.specs.View.{expr_of, meant_of, demand_of};
ghost use Rattle.pdll_expand.specs.Scenes.{IsScene, Does, known};

use crate::demand::Demand;
use crate::expr::Expr;
use indexmap::IndexMap;
use mlir_tree::attr::Attr;
use mlir_tree::ty::Ty;
use native_set::native::Kind;
use sqlite_items::Items;
use std::alloc::{AllocError, Global};
use std::mem;

/// What a name or an expression stands for.
#[derive(Clone, Copy)]
pub struct Meant {
    pub kind: Kind,
    pub is: Expr,
}

/// What was read of a match.
#[derive(Drop)]
pub struct Scene<'t> {
    /// The kinds of what has the numbers 0, 1, ..
    pub kinds: Items<Kind>,
    /// Where each stands in the file.
    pub places: Items<usize>,
    /// What is asked for, in the order of mention.
    pub demands: Items<Demand<'t>>,
    /// What each name in sight stands for.
    names: IndexMap<&'t [u8], Meant>,
}

/// What a match asks for by itself, and which of its numbers are given.
#[derive(Drop)]
pub struct Own<'t> {
    pub scene: Scene<'t>,
    pub given: Items<usize>,
}

impl<'t> Scene<'t> {
    /// Nothing is read.
    pub(crate) fn new(alloc: Global) -> Scene<'t>
        ensures { IsScene result spec.empty }
    {
        Scene {
            kinds: Items::new(alloc),
            places: Items::new(alloc),
            demands: Items::new(alloc),
            names: IndexMap::new(alloc),
        }
    }

    /// The next number, for what has this kind and stands at this place.
    pub(crate) fn new_number(&mut self, at: usize, kind: Kind) -> Result<Meant, AllocError>
        ensures { Does meant_of (spec.new_number at kind) self.old result self.new }
    {
        let number = self.kinds.len();
        self.kinds.push(kind)?;
        self.places.push(at)?;
        Ok(Meant {
            kind,
            is: Expr::The(number),
        })
    }

    pub(crate) fn ask(&mut self, demand: Demand<'t>) -> Result<(), AllocError>
        ensures { Does (λ u. u) (spec.ask (demand_of demand.entry)) self.old result self.new }
    {
        self.demands.push(demand)?;
        Ok(())
    }

    /// Brings a name into sight. It hides an older one.
    pub(crate) fn see_name(&mut self, name: &'t [u8], x: Meant) -> Result<(), AllocError>
        ensures { Does (λ u. u) (spec.see_name name.now (meant_of x)) self.old result self.new }
    {
        self.names.insert(name, x)?;
        Ok(())
    }

    /// Brings these names into sight, and no others. Gives those that were in sight.
    pub(crate) fn exchange_names(
        &mut self,
        names: IndexMap<&'t [u8], Meant>,
    ) -> IndexMap<&'t [u8], Meant>
        ensures kinds { self.new.kinds ≡ self.old.kinds }
        ensures places { self.new.places ≡ self.old.places }
        ensures demands { self.new.demands ≡ self.old.demands }
        ensures names { self.new.names ≡ names.entry }
        ensures outer { result ≡ self.old.names }
    {
        mem::replace(&mut self.names, names)
    }

    /// Brings these names into sight again, and no others.
    pub(crate) fn put_back(&mut self, names: IndexMap<&'t [u8], Meant>)
        ensures kinds { self.new.kinds ≡ self.old.kinds }
        ensures places { self.new.places ≡ self.old.places }
        ensures demands { self.new.demands ≡ self.old.demands }
        ensures names { self.new.names ≡ names.entry }
    {
        let mut names = names;
        mem::swap(&mut self.names, &mut names);
    }

    /// What a name stands for. A name that isn't in sight counts as the number 0.
    pub fn look_up(&self, name: &[u8]) -> Meant
        ensures { (t : spec.Scene) → IsScene self.now t → meant_of result ≡ (spec.look_up name.now t).0 }
    {
        match self.names.get(name) {
            Some(x) => *x,
            None => Meant {
                kind: Kind::Value,
                is: Expr::The(0),
            },
        }
    }

    /// What a name stands for, if it is in sight.
    pub fn find_name(&self, name: &[u8]) -> Option<Meant>
        ensures { option_map meant_of result ≡ known self.now name.now }
    {
        match self.names.get(name) {
            None => None,
            Some(x) => Some(*x),
        }
    }

    /// The expression has to denote something.
    pub(crate) fn mention(&mut self, kind: Kind, is: Expr) -> Result<Meant, AllocError>
        ensures { Does meant_of (spec.mention kind (expr_of is)) self.old result self.new }
    {
        self.ask(Demand::Stands(is))?;
        Ok(Meant { kind, is })
    }

    /// A variable, a `_` or a left-out list.
    pub(crate) fn new_variable(&mut self, at: usize, kind: Kind) -> Result<Meant, AllocError>
        ensures { Does meant_of (spec.new_variable at kind) self.old result self.new }
    {
        let x = self.new_number(at, kind)?;
        self.mention(kind, x.is)
    }

    /// An operation among operands is its only result.
    pub(crate) fn as_operand(&mut self, x: Meant) -> Result<Meant, AllocError>
        ensures { Does meant_of (spec.as_operand (meant_of x)) self.old result self.new }
    {
        match x.kind {
            Kind::Op => self.mention(Kind::Value, Expr::OnlyResult(x.is.number())),
            _ => Ok(x),
        }
    }

    /// A literal attribute.
    pub(crate) fn new_attr(&mut self, at: usize, value: Attr) -> Result<Meant, AllocError>
        ensures { Does meant_of (spec.a_literal_attr at value) self.old result self.new }
    {
        let x = self.new_number(at, Kind::Attr)?;
        self.ask(Demand::IsAttr(x.is.number(), value))?;
        Ok(x)
    }

    /// A literal type.
    pub(crate) fn new_type(&mut self, at: usize, ty: Ty) -> Result<Meant, AllocError>
        ensures { Does meant_of (spec.a_literal_type at ty) self.old result self.new }
    {
        let x = self.new_number(at, Kind::Ty)?;
        self.ask(Demand::IsType(x.is.number(), ty))?;
        Ok(x)
    }

    /// `Op<name>` asks for the name.
    pub(crate) fn ask_name(&mut self, x: Expr, name: Option<&'t [u8]>) -> Result<(), AllocError>
        ensures { Does (λ u. u) (spec.ask_name (expr_of x) (option_copied name.entry)) self.old result self.new }
    {
        match name {
            None => Ok(()),
            Some(name) => self.ask(Demand::HasName(x.number(), name)),
        }
    }

    /// A written type asks for the type.
    pub(crate) fn ask_type(&mut self, x: Expr, ty: Option<Expr>) -> Result<(), AllocError>
        ensures { Does (λ u. u) (spec.ask_type (expr_of x) (option_map expr_of ty)) self.old result self.new }
    {
        match ty {
            None => Ok(()),
            Some(ty) => self.ask(Demand::HasType(x.number(), ty)),
        }
    }
}
