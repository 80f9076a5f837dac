//! The way through statements.

ghost use Rattle.std.specs.Prelude.{◌≡◌, ◌<◌, ◌+◌, ◌||◌, false, None, drop, length, OnOk, IfOk};
ghost use Rattle.pdll_syntax.specs.ExprTree.{exprs, refs, maybe_expr};
ghost use Rattle.pdll_syntax.specs.StmtTree.{stmts};
ghost use Rattle.pdll_syntax.specs.StmtView.{stmt_form};
ghost use Rattle.pdll_types.specs.Asking.{asked_of};
ghost use Rattle.pdll_types.specs.Signatures.{kind_of_refs};
ghost use Rattle.pdll_types.specs.Sight.{kind_of_variable};
ghost use Rattle.pdll_types.specs.Mentions as spec;
ghost use Rattle.pdll_types.specs.Walk.{walked};

use crate::asked::Asked;
use crate::expressions::{walk_expr, walk_exprs, walk_maybe, walk_refs};
use crate::kind::Kind;
use crate::marks::{note_word, show, use_statement};
use crate::section::{Holder, Section, Standing};
use crate::sight::Sight;
use crate::table::Table;
use crate::uses::kind_of_expr;
use crate::walk::Walk;
use pdll_syntax::expr::{Expr, Ref};
use pdll_syntax::name::Name;
use pdll_syntax::stmt::{Stmt, StmtForm, Values};
use std::alloc::{AllocError, Global};

/// What is asked of the operation that a statement erases, replaces or rewrites.
fn target<'a>(standing: Standing) -> Asked<'a>
    ensures { asked_of result ≡ spec.asked_of_target standing }
{
    match standing {
        Standing::Matching | Standing::Exempt => Asked::Anything,
        Standing::Final => Asked::Root,
        Standing::Inside | Standing::Returning => Asked::Operation,
    }
}

/// What is asked of a returned expression, where results are of this kind.
fn returned(result_kind: &Option<Kind>, standing: Standing) -> Asked<'_>
    ensures { asked_of result ≡ spec.asked_of_returned result_kind.now standing }
{
    match standing {
        Standing::Matching | Standing::Exempt | Standing::Final => Asked::Anything,
        Standing::Inside | Standing::Returning => Asked::Written(result_kind),
    }
}

fn holder_of(value: &Option<Expr>) -> Holder
    ensures { result ≡ spec.holder_of value.now }
{
    match value {
        None => Holder::Variable,
        Some(_) => Holder::Valued,
    }
}

/// The kind of a variable whose refs write this one.
fn kind_of_variable(
    alloc: Global,
    table: &Table<'_>,
    sight: &Sight<'_>,
    all: &[Ref],
    written: Option<Kind>,
    value: &Option<Expr>,
) -> Result<Option<Kind>, AllocError>
    requires { written ≡ kind_of_refs table.now (refs all.now) }
    ensures { IfOk result (λ k. k ≡ kind_of_variable table.now sight.now (refs all.now) (maybe_expr value.now)) }
{
    if all.len() > 0 {
        return Ok(written);
    }
    match value {
        None => Ok(None),
        Some(x) => kind_of_expr(alloc, table, sight, x),
    }
}

/// Goes through `let name: refs = value;`.
#[tactic(auto, unfolding(crate::specs::Mentions::of_let), using(crate::proofs::Steps::walked_both, crate::proofs::Steps::shown_step))]
fn walk_let<'t>(
    alloc: Global,
    table: &Table<'t>,
    walk: &mut Walk<'t>,
    section: Section,
    name: &'t Name,
    all: &'t [Ref],
    value: &'t Option<Expr>,
) -> Result<(), AllocError>
    ensures { OnOk result (walk.new ≡ walked table.now (spec.of_let table.now section name.now.at name.now.text all.now value.now) walk.old) }
{
    let word = name.text.as_slice();
    let holder = holder_of(value);
    note_word(walk, section, value.is_some(), name.at, word)?;
    let written = walk_refs(alloc, table, walk, section, holder, all)?;
    walk_maybe(alloc, table, walk, section, Asked::Written(&written), value)?;
    let kind = kind_of_variable(alloc, table, &walk.sight, all, written, value)?;
    show(walk, word, kind)
}

fn walk_values<'t>(
    alloc: Global,
    table: &Table<'t>,
    walk: &mut Walk<'t>,
    section: Section,
    values: &'t Values,
) -> Result<(), AllocError>
    ensures { OnOk result (walk.new ≡ walked table.now (spec.of_values table.now section values.now) walk.old) }
{
    match values {
        Values::One(x) => walk_expr(alloc, table, walk, section, Asked::Operand, x),
        Values::Several(all) => walk_exprs(
            alloc,
            table,
            walk,
            section.within(),
            Asked::Operand,
            all.as_slice(),
        ),
    }
}

/// Whether the statement at this index is the last.
#[tactic(auto, using(crate::proofs::Loops::none_behind))]
fn is_last(all: &[Stmt], at: usize) -> bool
    requires { at < length all.now }
    ensures { result ≡ spec.are_none (stmts (drop (at + 1) all.now)) }
{
    at + 1 == all.len()
}

/// Goes through what stands in a statement, where results are of this kind.
#[cycle(statements)]
#[tactic(auto, unfolding(crate::specs::Mentions::of_stmt))]
fn walk_stmt<'t>(
    alloc: Global,
    table: &Table<'t>,
    walk: &mut Walk<'t>,
    result_kind: &Option<Kind>,
    standing: Standing,
    one: &'t Stmt,
) -> Result<(), AllocError>
    ensures { OnOk result (walk.new ≡ walked table.now (spec.of_stmt table.now result_kind.now standing one.now) walk.old) }
{
    walk_stmt_form(alloc, table, walk, result_kind, standing, &one.form)
}

#[cycle(statements)]
#[tactic(auto, unfolding(crate::specs::Mentions::inside_stmt), using(crate::proofs::Steps::walked_both))]
fn walk_stmt_form<'t>(
    alloc: Global,
    table: &Table<'t>,
    walk: &mut Walk<'t>,
    result_kind: &Option<Kind>,
    standing: Standing,
    form: &'t StmtForm,
) -> Result<(), AllocError>
    ensures { OnOk result (walk.new ≡ walked table.now (spec.inside_stmt table.now result_kind.now standing (stmt_form form.now)) walk.old) }
{
    let part = standing.part();
    match form {
        StmtForm::Let(name, refs, value) => {
            walk_let(alloc, table, walk, part, name, refs.as_slice(), value)
        }
        StmtForm::Erase(x) => walk_expr(alloc, table, walk, part, target(standing), x),
        StmtForm::Return(x) => walk_expr(
            alloc,
            table,
            walk,
            part,
            returned(result_kind, standing),
            x,
        ),
        StmtForm::Replace(x, values) => {
            walk_expr(alloc, table, walk, part, target(standing), x)?;
            walk_values(alloc, table, walk, standing.part_behind_with(), values)
        }
        StmtForm::Rewrite(x, inner, _) => {
            walk_expr(alloc, table, walk, part, target(standing), x)?;
            walk_rewrite(alloc, table, walk, &None, false, inner.as_slice())
        }
        StmtForm::Plain(x) => walk_expr(alloc, table, walk, part, Asked::Anything, x),
    }
}

/// Goes through the statements of a rewrite, which may have a result of this kind.
#[cycle(statements)]
#[tactic(auto, unfolding(crate::specs::Mentions::of_rewrite), using(crate::proofs::Steps::walked_both))]
pub fn walk_rewrite<'t>(
    alloc: Global,
    table: &Table<'t>,
    walk: &mut Walk<'t>,
    result_kind: &Option<Kind>,
    gives: bool,
    all: &'t [Stmt],
) -> Result<(), AllocError>
    ensures { OnOk result (walk.new ≡ walked table.now (spec.of_rewrite table.now result_kind.now gives (stmts all.now)) walk.old) }
{
    for at in 0..all.len() {
        let one = &all[at];
        let standing = Standing::in_rewrite(gives, is_last(all, at));
        use_statement(walk, standing, false, one);
        walk_stmt(alloc, table, walk, result_kind, standing, one)?;
    }
    Ok(())
}

/// Goes through the statements of a constraint.
#[tactic(auto, unfolding(crate::specs::Mentions::of_constraint), using(crate::proofs::Steps::walked_both))]
pub fn walk_constraint<'t>(
    alloc: Global,
    table: &Table<'t>,
    walk: &mut Walk<'t>,
    all: &'t [Stmt],
) -> Result<(), AllocError>
    ensures { OnOk result (walk.new ≡ walked table.now (spec.of_constraint table.now (stmts all.now)) walk.old) }
{
    for one in all {
        use_statement(walk, Standing::Matching, false, one);
        walk_stmt(alloc, table, walk, &None, Standing::Matching, one)?;
    }
    Ok(())
}

fn names_root_form(form: &StmtForm) -> bool
    ensures { result ≡ spec.names_root_form (stmt_form form.now) }
{
    matches!(
        form,
        StmtForm::Erase(_) | StmtForm::Replace(_, _) | StmtForm::Rewrite(_, _, _)
    )
}

/// Whether a statement names a root.
pub fn names_root(one: &Stmt) -> bool
    ensures { result ≡ spec.names_root one.now }
{
    names_root_form(&one.form)
}

/// Whether a statement that names a root stands before, or this is one.
fn is_late(late: bool, one: &Stmt) -> bool
    ensures { result ≡ (late || spec.names_root one.now) }
{
    late || names_root(one)
}

/// Goes through the statements of a pattern.
#[tactic(auto, unfolding(crate::specs::Mentions::of_pattern), using(crate::proofs::Steps::walked_both))]
pub fn walk_pattern<'t>(
    alloc: Global,
    table: &Table<'t>,
    walk: &mut Walk<'t>,
    all: &'t [Stmt],
) -> Result<(), AllocError>
    ensures { OnOk result (walk.new ≡ walked table.now (spec.of_pattern table.now false (stmts all.now)) walk.old) }
{
    let mut late = false;
    for at in 0..all.len() {
        let one = &all[at];
        let standing = Standing::in_pattern(is_last(all, at), late, names_root(one));
        use_statement(walk, standing, late, one);
        walk_stmt(alloc, table, walk, &None, standing, one)?;
        late = is_late(late, one);
    }
    Ok(())
}
