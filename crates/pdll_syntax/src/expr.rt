//! Expressions, operations, entries and refs.

ghost use Rattle.std.specs.Prelude.{◌≡◌, ◌↔◌, nat_eq, IfOk, IsTrue};
ghost use Rattle.std.specs.Str.{bytes_eq};
ghost use Rattle.pdll_syntax.specs.Equal.{list_eq, expr_eq, expr_form_eq, op_eq, entry_eq, ref_eq, ref_form_eq, exprs_eq, entries_eq, refs_eq, maybe_expr_eq, maybe_exprs_eq, option_eq};
ghost use Rattle.pdll_syntax.specs.ExprTree.{exprs, entries, refs, maybe_expr, maybe_exprs};
ghost use Rattle.pdll_syntax.specs.ExprView.{expr_form, ref_form};

use crate::name::{Literal, Text, copy_text};
use sqlite_items::Items;
use std::alloc::{AllocError, Global};
use std::marker::Model;

/// An expression.
#[cycle(expr)]
#[derive(Drop)]
pub struct Expr {
    /// The place of its first token.
    pub at: usize,
    pub form: ExprForm,
    /// The numbers behind it, each after a `.`: `expression.number` is a result of an operation. They lie in a list, so
    /// that a long chain of them is no deep tree.
    pub members: Items<u16>,
}

/// What an expression is.
#[cycle(expr)]
#[derive(Drop)]
pub enum ExprForm {
    /// A name that is used.
    Name(Text),
    /// `name(arguments)`
    Call(Text, Items<Expr>),
    /// `name: refs`, which declares a variable at its place.
    Declare(Text, Items<Ref>),
    /// `attr<"..">`
    AttrLit(Literal),
    /// `type<"..">`
    TyLit(Literal),
    /// `op<name>(..) {..} -> (..)`
    Op(OpExpr),
}

/// An operation expression.
#[cycle(expr)]
#[derive(Drop)]
pub struct OpExpr {
    /// Its words with `.` between.
    pub name: Text,
    /// `None` where no list is written.
    pub operands: Option<Items<Expr>>,
    pub entries: Items<Entry>,
    /// The result types, `None` where no list is written.
    pub types: Option<Items<Expr>>,
}

/// A named attribute of an operation expression.
#[cycle(expr)]
#[derive(Drop)]
pub struct Entry {
    /// The place of its name.
    pub at: usize,
    /// The word, or the bytes of the string, escapes read.
    pub name: Text,
    pub value: Option<Expr>,
}

/// What may stand behind the `:` of a variable: a kind or a constraint.
#[cycle(expr)]
#[derive(Drop)]
pub struct Ref {
    /// The place of its first token.
    pub at: usize,
    pub form: RefForm,
}

/// A kind, or the name of a constraint.
#[cycle(expr)]
#[derive(Drop)]
pub enum RefForm {
    /// `Attr`, with its type where one is written.
    Attr(Option<Expr>),
    /// `Op`, with its name where one is written.
    Op(Option<Text>),
    /// `Type`
    Ty,
    /// `TypeRange`
    Tys,
    /// `Value`, with its type where one is written.
    Value(Option<Expr>),
    /// `ValueRange`, with its types where they are written.
    Values(Option<Expr>),
    /// The name of a constraint.
    Named(Text),
}

impl Model for Expr {
    ghost use Rattle.pdll_syntax.specs.ExprTree.{Expr as Meaning, expr};
    ghost use Rattle.pdll_syntax.specs.ExprCode.{coded_expr};

    ghost Value = { Meaning };

    ghost coded = { coded_expr };

    ghost use Rattle.pdll_syntax.specs.ExprSize.{expr_size};
    ghost use Rattle.pdll_syntax.specs.ExprView.{expr_form, with_members};

    ghost view = { λ x. expr x.at (with_members x.at (expr_form x.form) x.members) };

    ghost size = { expr_size };

    ghost use Rattle.pdll_syntax.specs.ExprFalls.{expr_falls};

    ghost size_decreases = { λ x h. expr_falls x.at x.form x.members };
}

impl Model for OpExpr {
    ghost use Rattle.pdll_syntax.specs.ExprTree.{OpExpr as Meaning};
    ghost use Rattle.pdll_syntax.specs.ExprCode.{coded_op};

    ghost Value = { Meaning };

    ghost coded = { coded_op };

    ghost use Rattle.pdll_syntax.specs.ExprSize.{op_size};
    ghost use Rattle.pdll_syntax.specs.ExprView.{op_of};

    ghost view = { λ o. op_of o.name o.operands o.entries o.types };

    ghost size = { op_size };

    ghost use Rattle.pdll_syntax.specs.ExprFalls.{op_falls};

    ghost size_decreases = { λ o h. op_falls o.name o.operands o.entries o.types };
}

impl Model for Entry {
    ghost use Rattle.pdll_syntax.specs.ExprTree.{Entry as Meaning, entry, maybe_expr};
    ghost use Rattle.pdll_syntax.specs.ExprCode.{coded_entry};

    ghost Value = { Meaning };

    ghost coded = { coded_entry };

    ghost use Rattle.pdll_syntax.specs.ExprSize.{entry_size};

    ghost view = { λ e. entry e.at e.name (maybe_expr e.value) };

    ghost size = { entry_size };
}

impl Model for Ref {
    ghost use Rattle.pdll_syntax.specs.ExprTree.{Ref as Meaning, ref};
    ghost use Rattle.pdll_syntax.specs.ExprCode.{coded_ref};

    ghost Value = { Meaning };

    ghost coded = { coded_ref };

    ghost use Rattle.pdll_syntax.specs.ExprSize.{ref_size};
    ghost use Rattle.pdll_syntax.specs.ExprView.{ref_form};

    ghost view = { λ r. ref r.at (ref_form r.form) };

    ghost size = { ref_size };
}

impl Expr {
    /// An equal expression.
    #[cycle(copy_expr)]
    pub fn copy(&self, alloc: Global) -> Result<Expr, AllocError>
        ensures { IfOk result (λ x. x ≡ self.now) }
    {
        let form = self.form.copy(alloc)?;
        let members = Items::from_slice(alloc, self.members.as_slice())?;
        Ok(Expr {
            at: self.at,
            form,
            members,
        })
    }
}

impl ExprForm {
    /// An equal form.
    #[cycle(copy_expr)]
    pub fn copy(&self, alloc: Global) -> Result<ExprForm, AllocError>
        ensures { IfOk result (λ f. f ≡ self.now) }
    {
        match self {
            ExprForm::Name(name) => Ok(ExprForm::Name(copy_text(alloc, name)?)),
            ExprForm::Call(name, arguments) => Ok(ExprForm::Call(
                copy_text(alloc, name)?,
                copy_exprs(alloc, arguments.as_slice())?,
            )),
            ExprForm::Declare(name, refs) => Ok(ExprForm::Declare(
                copy_text(alloc, name)?,
                copy_refs(alloc, refs.as_slice())?,
            )),
            ExprForm::AttrLit(literal) => Ok(ExprForm::AttrLit(literal.copy(alloc)?)),
            ExprForm::TyLit(literal) => Ok(ExprForm::TyLit(literal.copy(alloc)?)),
            ExprForm::Op(operation) => Ok(ExprForm::Op(operation.copy(alloc)?)),
        }
    }
}

impl OpExpr {
    /// An equal operation expression.
    #[cycle(copy_expr)]
    pub fn copy(&self, alloc: Global) -> Result<OpExpr, AllocError>
        ensures { IfOk result (λ o. o ≡ self.now) }
    {
        let name = copy_text(alloc, &self.name)?;
        let operands = copy_written(alloc, &self.operands)?;
        let entries = copy_entries(alloc, self.entries.as_slice())?;
        let types = copy_written(alloc, &self.types)?;
        Ok(OpExpr {
            name,
            operands,
            entries,
            types,
        })
    }
}

impl Entry {
    /// An equal entry.
    #[cycle(copy_expr)]
    pub fn copy(&self, alloc: Global) -> Result<Entry, AllocError>
        ensures { IfOk result (λ e. e ≡ self.now) }
    {
        let name = copy_text(alloc, &self.name)?;
        let value = copy_maybe(alloc, &self.value)?;
        Ok(Entry {
            at: self.at,
            name,
            value,
        })
    }
}

impl Ref {
    /// An equal ref.
    #[cycle(copy_expr)]
    pub fn copy(&self, alloc: Global) -> Result<Ref, AllocError>
        ensures { IfOk result (λ r. r ≡ self.now) }
    {
        let form = self.form.copy(alloc)?;
        Ok(Ref { at: self.at, form })
    }
}

impl RefForm {
    /// An equal form.
    #[cycle(copy_expr)]
    pub fn copy(&self, alloc: Global) -> Result<RefForm, AllocError>
        ensures { IfOk result (λ f. f ≡ self.now) }
    {
        match self {
            RefForm::Attr(of) => Ok(RefForm::Attr(copy_maybe(alloc, of)?)),
            RefForm::Op(name) => Ok(RefForm::Op(copy_maybe_text(alloc, name)?)),
            RefForm::Ty => Ok(RefForm::Ty),
            RefForm::Tys => Ok(RefForm::Tys),
            RefForm::Value(of) => Ok(RefForm::Value(copy_maybe(alloc, of)?)),
            RefForm::Values(of) => Ok(RefForm::Values(copy_maybe(alloc, of)?)),
            RefForm::Named(name) => Ok(RefForm::Named(copy_text(alloc, name)?)),
        }
    }
}

/// An equal list of expressions.
#[cycle(copy_expr)]
pub fn copy_exprs(alloc: Global, all: &[Expr]) -> Result<Items<Expr>, AllocError>
    ensures { IfOk result (λ xs. xs ≡ all.now) }
{
    let mut copied = Items::new(alloc);
    for expr in all {
        copied.push(expr.copy(alloc)?)?;
    }
    Ok(copied)
}

/// An equal list of entries.
#[cycle(copy_expr)]
pub fn copy_entries(alloc: Global, all: &[Entry]) -> Result<Items<Entry>, AllocError>
    ensures { IfOk result (λ es. es ≡ all.now) }
{
    let mut copied = Items::new(alloc);
    for entry in all {
        copied.push(entry.copy(alloc)?)?;
    }
    Ok(copied)
}

/// An equal list of refs.
#[cycle(copy_expr)]
pub fn copy_refs(alloc: Global, all: &[Ref]) -> Result<Items<Ref>, AllocError>
    ensures { IfOk result (λ rs. rs ≡ all.now) }
{
    let mut copied = Items::new(alloc);
    for kind in all {
        copied.push(kind.copy(alloc)?)?;
    }
    Ok(copied)
}

/// An equal expression, where there is one.
#[cycle(copy_expr)]
pub fn copy_maybe(alloc: Global, expr: &Option<Expr>) -> Result<Option<Expr>, AllocError>
    ensures { IfOk result (λ x. x ≡ expr.now) }
{
    match expr {
        None => Ok(None),
        Some(expr) => Ok(Some(expr.copy(alloc)?)),
    }
}

/// An equal list of expressions, where one is written.
#[cycle(copy_expr)]
fn copy_written(alloc: Global, all: &Option<Items<Expr>>) -> Result<Option<Items<Expr>>, AllocError>
    ensures { IfOk result (λ xs. xs ≡ all.now) }
{
    match all {
        None => Ok(None),
        Some(all) => Ok(Some(copy_exprs(alloc, all.as_slice())?)),
    }
}

fn copy_maybe_text(alloc: Global, text: &Option<Text>) -> Result<Option<Text>, AllocError>
    ensures { IfOk result (λ t. t ≡ text.now) }
{
    match text {
        None => Ok(None),
        Some(text) => Ok(Some(copy_text(alloc, text)?)),
    }
}

impl Expr {
    /// Whether two expressions are equal, places too.
    pub fn equal(&self, other: &Expr) -> bool
        ensures { IsTrue result ↔ (self.now ≡ other.now) }
    {
        same_expr(self, other)
    }
}

fn same_members(a: &[u16], b: &[u16]) -> bool
    ensures { result ≡ list_eq nat_eq a.now b.now }
{
    let mut at = 0;
    while at < a.len() && at < b.len() {
        if a[at] != b[at] {
            return false;
        }
        at += 1;
    }
    a.len() == b.len()
}

#[cycle(same_expr)]
pub(crate) fn same_expr(x: &Expr, y: &Expr) -> bool
    ensures { result ≡ expr_eq x.now y.now }
{
    if x.at != y.at {
        return false;
    }
    if !same_expr_form(&x.form, &y.form) {
        return false;
    }
    same_members(x.members.as_slice(), y.members.as_slice())
}

#[cycle(same_expr)]
fn same_expr_form(x: &ExprForm, y: &ExprForm) -> bool
    ensures { result ≡ expr_form_eq (expr_form x.now) (expr_form y.now) }
{
    match (x, y) {
        (ExprForm::Name(n), ExprForm::Name(m)) => n.as_slice() == m.as_slice(),
        (ExprForm::Call(n, xs), ExprForm::Call(m, ys)) => n.as_slice() == m.as_slice()
            && same_exprs(xs.as_slice(), ys.as_slice()),
        (ExprForm::Declare(n, xs), ExprForm::Declare(m, ys)) => n.as_slice() == m.as_slice()
            && same_refs(xs.as_slice(), ys.as_slice()),
        (ExprForm::AttrLit(l), ExprForm::AttrLit(k)) => l.same(k),
        (ExprForm::TyLit(l), ExprForm::TyLit(k)) => l.same(k),
        (ExprForm::Op(o), ExprForm::Op(q)) => same_op(o, q),
        _ => false,
    }
}

#[cycle(same_expr)]
fn same_op(x: &OpExpr, y: &OpExpr) -> bool
    ensures { result ≡ op_eq x.now y.now }
{
    x.name.as_slice() == y.name.as_slice()
        && same_written(&x.operands, &y.operands)
        && same_entries(x.entries.as_slice(), y.entries.as_slice())
        && same_written(&x.types, &y.types)
}

#[cycle(same_expr)]
fn same_entry(x: &Entry, y: &Entry) -> bool
    ensures { result ≡ entry_eq x.now y.now }
{
    x.at == y.at && x.name.as_slice() == y.name.as_slice() && same_maybe(&x.value, &y.value)
}

#[cycle(same_expr)]
pub(crate) fn same_ref(x: &Ref, y: &Ref) -> bool
    ensures { result ≡ ref_eq x.now y.now }
{
    x.at == y.at && same_ref_form(&x.form, &y.form)
}

#[cycle(same_expr)]
fn same_ref_form(x: &RefForm, y: &RefForm) -> bool
    ensures { result ≡ ref_form_eq (ref_form x.now) (ref_form y.now) }
{
    match (x, y) {
        (RefForm::Attr(x), RefForm::Attr(y)) => same_maybe(x, y),
        (RefForm::Op(n), RefForm::Op(m)) => same_maybe_text(n, m),
        (RefForm::Ty, RefForm::Ty) => true,
        (RefForm::Tys, RefForm::Tys) => true,
        (RefForm::Value(x), RefForm::Value(y)) => same_maybe(x, y),
        (RefForm::Values(x), RefForm::Values(y)) => same_maybe(x, y),
        (RefForm::Named(n), RefForm::Named(m)) => n.as_slice() == m.as_slice(),
        _ => false,
    }
}

#[cycle(same_expr)]
pub(crate) fn same_exprs(a: &[Expr], b: &[Expr]) -> bool
    ensures { result ≡ exprs_eq (exprs a.now) (exprs b.now) }
{
    let mut at = 0;
    while at < a.len() && at < b.len() {
        if !same_expr(&a[at], &b[at]) {
            return false;
        }
        at += 1;
    }
    a.len() == b.len()
}

#[cycle(same_expr)]
fn same_entries(a: &[Entry], b: &[Entry]) -> bool
    ensures { result ≡ entries_eq (entries a.now) (entries b.now) }
{
    let mut at = 0;
    while at < a.len() && at < b.len() {
        if !same_entry(&a[at], &b[at]) {
            return false;
        }
        at += 1;
    }
    a.len() == b.len()
}

#[cycle(same_expr)]
pub(crate) fn same_refs(a: &[Ref], b: &[Ref]) -> bool
    ensures { result ≡ refs_eq (refs a.now) (refs b.now) }
{
    let mut at = 0;
    while at < a.len() && at < b.len() {
        if !same_ref(&a[at], &b[at]) {
            return false;
        }
        at += 1;
    }
    a.len() == b.len()
}

#[cycle(same_expr)]
pub(crate) fn same_maybe(x: &Option<Expr>, y: &Option<Expr>) -> bool
    ensures { result ≡ maybe_expr_eq (maybe_expr x.now) (maybe_expr y.now) }
{
    match (x, y) {
        (None, None) => true,
        (Some(x), Some(y)) => same_expr(x, y),
        _ => false,
    }
}

#[cycle(same_expr)]
fn same_written(x: &Option<Items<Expr>>, y: &Option<Items<Expr>>) -> bool
    ensures { result ≡ maybe_exprs_eq (maybe_exprs x.now) (maybe_exprs y.now) }
{
    match (x, y) {
        (None, None) => true,
        (Some(xs), Some(ys)) => same_exprs(xs.as_slice(), ys.as_slice()),
        _ => false,
    }
}

fn same_maybe_text(x: &Option<Text>, y: &Option<Text>) -> bool
    ensures { result ≡ option_eq bytes_eq x.now y.now }
{
    match (x, y) {
        (None, None) => true,
        (Some(n), Some(m)) => n.as_slice() == m.as_slice(),
        _ => false,
    }
}
