//! Statements and bodies.

ghost use Rattle.std.specs.Prelude.{◌≡◌, ◌↔◌, IfOk, IsTrue};
ghost use Rattle.pdll_syntax.specs.Equal.{values_eq, stmt_eq, stmt_form_eq, stmts_eq, body_eq, param_eq};
ghost use Rattle.pdll_syntax.specs.StmtTree.{stmts};
ghost use Rattle.pdll_syntax.specs.StmtView.{stmt_form};

use crate::expr::{
    Expr, Ref, copy_exprs, copy_maybe, copy_refs, same_expr, same_exprs, same_maybe, same_refs,
};
use crate::name::Name;
use sqlite_items::Items;
use std::alloc::{AllocError, Global};
use std::marker::Model;

/// What takes the place of a replaced operation.
#[derive(Drop)]
pub enum Values {
    /// An expression without parentheses.
    One(Expr),
    /// A list in parentheses, which may be empty or hold one expression.
    Several(Items<Expr>),
}

/// A statement.
#[cycle(stmt)]
#[derive(Drop)]
pub struct Stmt {
    /// The place of its first token.
    pub at: usize,
    pub form: StmtForm,
}

/// What a statement is.
#[cycle(stmt)]
#[derive(Drop)]
pub enum StmtForm {
    /// `let name: refs = value;`, the refs empty where none are written.
    Let(Name, Items<Ref>, Option<Expr>),
    /// `erase operation;`
    Erase(Expr),
    /// `return value;`
    Return(Expr),
    /// `replace operation with values;`
    Replace(Expr, Values),
    /// `rewrite operation with { .. };`, with the place of the closing `}`.
    Rewrite(Expr, Items<Stmt>, usize),
    /// An expression that stands alone.
    Plain(Expr),
}

/// What a declaration does.
#[derive(Drop)]
pub enum Body {
    /// `;` stands in its place.
    Absent,
    /// Statements in braces, with the place of the closing `}`.
    Braces(Items<Stmt>, usize),
    /// `=> statement`
    One(Stmt),
    /// `=> expression;`
    Value(Expr),
}

/// A parameter of a constraint or a rewrite.
#[derive(Drop)]
pub struct Param {
    pub name: Name,
    pub refs: Items<Ref>,
}

impl Model for Stmt {
    ghost use Rattle.pdll_syntax.specs.StmtTree.{Stmt as Meaning, stmt};
    ghost use Rattle.pdll_syntax.specs.StmtCode.{coded_stmt};

    ghost Value = { Meaning };

    ghost coded = { coded_stmt };

    ghost use Rattle.pdll_syntax.specs.StmtSize.{stmt_size};
    ghost use Rattle.pdll_syntax.specs.StmtView.{stmt_form};

    ghost view = { λ s. stmt s.at (stmt_form s.form) };

    ghost size = { stmt_size };

    ghost use Rattle.pdll_syntax.specs.StmtFalls.{form_falls};

    ghost size_decreases = { λ s h. form_falls s.form };
}

impl Values {
    /// Equal values.
    pub fn copy(&self, alloc: Global) -> Result<Values, AllocError>
        ensures { IfOk result (λ v. v ≡ self.now) }
    {
        match self {
            Values::One(value) => Ok(Values::One(value.copy(alloc)?)),
            Values::Several(values) => Ok(Values::Several(copy_exprs(alloc, values.as_slice())?)),
        }
    }
}

impl Stmt {
    /// An equal statement.
    #[cycle(copy_stmt)]
    pub fn copy(&self, alloc: Global) -> Result<Stmt, AllocError>
        ensures { IfOk result (λ s. s ≡ self.now) }
    {
        let form = self.form.copy(alloc)?;
        Ok(Stmt { at: self.at, form })
    }
}

impl StmtForm {
    /// An equal form.
    #[cycle(copy_stmt)]
    pub fn copy(&self, alloc: Global) -> Result<StmtForm, AllocError>
        ensures { IfOk result (λ f. f ≡ self.now) }
    {
        match self {
            StmtForm::Let(name, refs, value) => Ok(StmtForm::Let(
                name.copy(alloc)?,
                copy_refs(alloc, refs.as_slice())?,
                copy_maybe(alloc, value)?,
            )),
            StmtForm::Erase(root) => Ok(StmtForm::Erase(root.copy(alloc)?)),
            StmtForm::Return(value) => Ok(StmtForm::Return(value.copy(alloc)?)),
            StmtForm::Replace(root, values) => Ok(StmtForm::Replace(
                root.copy(alloc)?,
                values.copy(alloc)?,
            )),
            StmtForm::Rewrite(root, stmts, end) => Ok(StmtForm::Rewrite(
                root.copy(alloc)?,
                copy_stmts(alloc, stmts.as_slice())?,
                *end,
            )),
            StmtForm::Plain(value) => Ok(StmtForm::Plain(value.copy(alloc)?)),
        }
    }
}

/// An equal list of statements.
#[cycle(copy_stmt)]
pub fn copy_stmts(alloc: Global, all: &[Stmt]) -> Result<Items<Stmt>, AllocError>
    ensures { IfOk result (λ ss. ss ≡ all.now) }
{
    let mut copied = Items::new(alloc);
    for stmt in all {
        copied.push(stmt.copy(alloc)?)?;
    }
    Ok(copied)
}

impl Body {
    /// An equal body.
    pub fn copy(&self, alloc: Global) -> Result<Body, AllocError>
        ensures { IfOk result (λ b. b ≡ self.now) }
    {
        match self {
            Body::Absent => Ok(Body::Absent),
            Body::Braces(stmts, end) => {
                let copied = copy_stmts(alloc, stmts.as_slice())?;
                Ok(Body::Braces(copied, *end))
            }
            Body::One(stmt) => Ok(Body::One(stmt.copy(alloc)?)),
            Body::Value(value) => Ok(Body::Value(value.copy(alloc)?)),
        }
    }
}

impl Param {
    /// An equal parameter.
    pub fn copy(&self, alloc: Global) -> Result<Param, AllocError>
        ensures { IfOk result (λ p. p ≡ self.now) }
    {
        let name = self.name.copy(alloc)?;
        let refs = copy_refs(alloc, self.refs.as_slice())?;
        Ok(Param { name, refs })
    }
}

impl Stmt {
    /// Whether two statements are equal, places too.
    pub fn equal(&self, other: &Stmt) -> bool
        ensures { IsTrue result ↔ (self.now ≡ other.now) }
    {
        same_stmt(self, other)
    }
}

fn same_values(x: &Values, y: &Values) -> bool
    ensures { result ≡ values_eq x.now y.now }
{
    match (x, y) {
        (Values::One(x), Values::One(y)) => same_expr(x, y),
        (Values::Several(xs), Values::Several(ys)) => same_exprs(xs.as_slice(), ys.as_slice()),
        _ => false,
    }
}

#[cycle(same_stmt)]
fn same_stmt(x: &Stmt, y: &Stmt) -> bool
    ensures { result ≡ stmt_eq x.now y.now }
{
    x.at == y.at && same_stmt_form(&x.form, &y.form)
}

#[cycle(same_stmt)]
fn same_stmt_form(x: &StmtForm, y: &StmtForm) -> bool
    ensures { result ≡ stmt_form_eq (stmt_form x.now) (stmt_form y.now) }
{
    match (x, y) {
        (StmtForm::Let(n, rs, x), StmtForm::Let(m, ss, y)) => n.same(m)
            && same_refs(rs.as_slice(), ss.as_slice())
            && same_maybe(x, y),
        (StmtForm::Erase(x), StmtForm::Erase(y)) => same_expr(x, y),
        (StmtForm::Return(x), StmtForm::Return(y)) => same_expr(x, y),
        (StmtForm::Replace(x, vs), StmtForm::Replace(y, ws)) => same_expr(x, y)
            && same_values(vs, ws),
        (StmtForm::Rewrite(x, ss, end), StmtForm::Rewrite(y, ts, close)) => *end == *close
            && same_expr(x, y)
            && same_stmts(ss.as_slice(), ts.as_slice()),
        (StmtForm::Plain(x), StmtForm::Plain(y)) => same_expr(x, y),
        _ => false,
    }
}

#[cycle(same_stmt)]
fn same_stmts(a: &[Stmt], b: &[Stmt]) -> bool
    ensures { result ≡ stmts_eq (stmts a.now) (stmts b.now) }
{
    let mut at = 0;
    while at < a.len() && at < b.len() {
        if !same_stmt(&a[at], &b[at]) {
            return false;
        }
        at += 1;
    }
    a.len() == b.len()
}

impl Body {
    pub(crate) fn same(&self, other: &Body) -> bool
        ensures { result ≡ body_eq self.now other.now }
    {
        match (self, other) {
            (Body::Absent, Body::Absent) => true,
            (Body::Braces(ss, end), Body::Braces(ts, close)) => *end == *close
                && same_stmts(ss.as_slice(), ts.as_slice()),
            (Body::One(s), Body::One(t)) => same_stmt(s, t),
            (Body::Value(x), Body::Value(y)) => same_expr(x, y),
            _ => false,
        }
    }
}

impl Param {
    pub(crate) fn same(&self, other: &Param) -> bool
        ensures { result ≡ param_eq self.now other.now }
    {
        self.name.same(&other.name) && same_refs(self.refs.as_slice(), other.refs.as_slice())
    }
}
