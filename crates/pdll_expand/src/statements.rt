//! The way through the statements of a match.

ghost use Rattle.std.specs.Prelude.{◌≡◌, map};
ghost use Rattle.pdll_syntax.specs.ExprTree.{exprs};
ghost use Rattle.pdll_syntax.specs.StmtView.{stmt_form};
ghost use Rattle.rewrite_model.specs.MatchPart as spec;
ghost use Rattle.rewrite_model.specs.Expanding.{body_asks, read_match, last_root, form_root, root_of};
ghost use Rattle.pdll_expand.specs.View.{meant_of};
ghost use Rattle.pdll_expand.specs.Scenes.{Does};
ghost use Rattle.pdll_expand.specs.Reading.{statements, form_read, alone_read};
ghost use Rattle.pdll_expand.specs.Table.{in_sight};

use crate::calls::{call_constraint, call_refs};
use crate::expressions::{read_expr, read_ref_type, read_variable};
use crate::scene::{Meant, Scene};
use crate::sight::Sight;
use pdll_syntax::expr::{Expr, ExprForm, Ref};
use pdll_syntax::stmt::{Body, Stmt, StmtForm};
use sqlite_items::Items;
use std::alloc::{AllocError, Global};

/// Reads expressions.
#[cycle(reading)]
fn read_exprs<'t>(
    alloc: Global,
    constraints: Sight<'_, 't>,
    scene: &mut Scene<'t>,
    all: &'t [Expr],
) -> Result<Items<Meant>, AllocError>
    ensures { Does (map meant_of) (spec.expressions (in_sight constraints.entry) (exprs all.now)) scene.old result scene.new }
{
    let mut found = Items::new(alloc);
    for x in all {
        found.push(read_expr(alloc, constraints, scene, x)?)?;
    }
    Ok(found)
}

/// Reads the arguments of a call, and calls the constraint on them.
#[cycle(reading)]
fn read_call<'t>(
    alloc: Global,
    constraints: Sight<'_, 't>,
    scene: &mut Scene<'t>,
    name: &'t [u8],
    all: &'t [Expr],
) -> Result<(), AllocError>
    ensures { Does (λ u. u) (spec.call (in_sight constraints.entry) name.now (exprs all.now)) scene.old result scene.new }
{
    let arguments = read_exprs(alloc, constraints, scene, all)?;
    call_constraint(alloc, constraints, scene, name, arguments.as_slice())
}

/// Reads an expression that stands alone and isn't a call.
#[cycle(reading)]
fn read_alone<'t>(
    alloc: Global,
    constraints: Sight<'_, 't>,
    scene: &mut Scene<'t>,
    x: &'t Expr,
) -> Result<(), AllocError>
    ensures { Does (λ u. u) (alone_read (in_sight constraints.entry) x.now) scene.old result scene.new }
{
    read_expr(alloc, constraints, scene, x)?;
    Ok(())
}

/// Reads an expression that stands alone.
#[cycle(reading)]
pub fn read_plain<'t>(
    alloc: Global,
    constraints: Sight<'_, 't>,
    scene: &mut Scene<'t>,
    x: &'t Expr,
) -> Result<(), AllocError>
    ensures { Does (λ u. u) (spec.plain (in_sight constraints.entry) x.now) scene.old result scene.new }
{
    if x.members.len() > 0 {
        return read_alone(alloc, constraints, scene, x);
    }
    match &x.form {
        ExprForm::Call(name, all) => {
            read_call(alloc, constraints, scene, name.as_slice(), all.as_slice())
        }
        _ => read_alone(alloc, constraints, scene, x),
    }
}

/// Reads the value of a variable, or a variable without a value.
#[cycle(reading)]
fn read_let<'t>(
    alloc: Global,
    constraints: Sight<'_, 't>,
    scene: &mut Scene<'t>,
    all: &'t [Ref],
    value: &'t Option<Expr>,
    at: usize,
) -> Result<Meant, AllocError>
    ensures { Does meant_of (spec.let_value (in_sight constraints.entry) all.now value.now at) scene.old result scene.new }
{
    match value {
        None => {
            let ty = read_ref_type(alloc, constraints, scene, all)?;
            read_variable(alloc, constraints, scene, at, all, ty)
        }
        Some(x) => {
            let x = read_expr(alloc, constraints, scene, x)?;
            call_refs(alloc, constraints, scene, all, x)?;
            Ok(x)
        }
    }
}

#[cycle(reading)]
fn read_stmt_form<'t>(
    alloc: Global,
    constraints: Sight<'_, 't>,
    scene: &mut Scene<'t>,
    form: &'t StmtForm,
) -> Result<(), AllocError>
    ensures { Does (λ u. u) (form_read (in_sight constraints.entry) (stmt_form form.now)) scene.old result scene.new }
{
    match form {
        StmtForm::Let(name, refs, value) => {
            let x = read_let(alloc, constraints, scene, refs.as_slice(), value, name.at)?;
            scene.see_name(name.text.as_slice(), x)
        }
        StmtForm::Plain(x) => read_plain(alloc, constraints, scene, x),
        _ => Ok(()),
    }
}

/// Reads a statement.
#[cycle(reading)]
pub fn read_stmt<'t>(
    alloc: Global,
    constraints: Sight<'_, 't>,
    scene: &mut Scene<'t>,
    one: &'t Stmt,
) -> Result<(), AllocError>
    ensures { Does (λ u. u) (spec.statement (in_sight constraints.entry) one.now) scene.old result scene.new }
{
    read_stmt_form(alloc, constraints, scene, &one.form)
}

/// Reads statements.
#[cycle(reading)]
pub fn read_stmts<'t>(
    alloc: Global,
    constraints: Sight<'_, 't>,
    scene: &mut Scene<'t>,
    all: &'t [Stmt],
) -> Result<(), AllocError>
    ensures { Does (λ u. u) (statements (in_sight constraints.entry) all.now) scene.old result scene.new }
{
    for one in all {
        read_stmt(alloc, constraints, scene, one)?;
    }
    Ok(())
}

/// Reads the body of a constraint.
#[cycle(reading)]
pub fn read_body<'t>(
    alloc: Global,
    constraints: Sight<'_, 't>,
    scene: &mut Scene<'t>,
    body: &'t Body,
) -> Result<(), AllocError>
    ensures { Does (λ u. u) (body_asks (in_sight constraints.entry) body.now) scene.old result scene.new }
{
    match body {
        Body::Absent => Ok(()),
        Body::Braces(all, _) => read_stmts(alloc, constraints, scene, all.as_slice()),
        Body::One(one) => read_stmt(alloc, constraints, scene, one),
        Body::Value(x) => read_plain(alloc, constraints, scene, x),
    }
}

/// Reads the operation that a statement erases, replaces or rewrites, and gives its number.
fn read_root<'t>(
    alloc: Global,
    constraints: Sight<'_, 't>,
    scene: &mut Scene<'t>,
    x: &'t Expr,
) -> Result<usize, AllocError>
    ensures { Does (λ n. n) (root_of (in_sight constraints.entry) x.now) scene.old result scene.new }
{
    let x = read_expr(alloc, constraints, scene, x)?;
    Ok(x.is.number())
}

fn read_root_form<'t>(
    alloc: Global,
    constraints: Sight<'_, 't>,
    scene: &mut Scene<'t>,
    form: &'t StmtForm,
) -> Result<usize, AllocError>
    ensures { Does (λ n. n) (form_root (in_sight constraints.entry) (stmt_form form.now)) scene.old result scene.new }
{
    match form {
        StmtForm::Erase(x) => read_root(alloc, constraints, scene, x),
        StmtForm::Replace(x, _) => read_root(alloc, constraints, scene, x),
        StmtForm::Rewrite(x, _, _) => read_root(alloc, constraints, scene, x),
        _ => Ok(0),
    }
}

fn read_last<'t>(
    alloc: Global,
    constraints: Sight<'_, 't>,
    scene: &mut Scene<'t>,
    one: &'t Stmt,
) -> Result<usize, AllocError>
    ensures { Does (λ n. n) (last_root (in_sight constraints.entry) one.now) scene.old result scene.new }
{
    read_root_form(alloc, constraints, scene, &one.form)
}

/// Reads all statements but the last, and gives the number of what that one names.
pub fn read_match<'t>(
    alloc: Global,
    constraints: Sight<'_, 't>,
    scene: &mut Scene<'t>,
    all: &'t [Stmt],
) -> Result<usize, AllocError>
    ensures { Does (λ n. n) (read_match (in_sight constraints.entry) all.now) scene.old result scene.new }
{
    match all {
        [] => Ok(0),
        [front @ .., last] => {
            read_stmts(alloc, constraints, scene, front)?;
            read_last(alloc, constraints, scene, last)
        }
    }
}
