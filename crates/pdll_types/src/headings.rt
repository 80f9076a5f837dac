//! What is wrong with the head of a declaration, and with how its statements end.

ghost use Rattle.std.specs.Prelude.{◌≡◌, ◌||◌, Some, false, IfOk, OnOk};
ghost use Rattle.pdll_syntax.specs.StmtTree.{stmts};
ghost use Rattle.pdll_syntax.specs.StmtView.{stmt_form};
ghost use Rattle.pdll_syntax.specs.declared.file.Decl.TheVariants as decl;
ghost use Rattle.pdll_syntax.specs.declared.fault.PatKind.TheVariants.{Redefined, UnknownNative, BadRoot, WrongPart};
ghost use Rattle.pdll_types.specs.Mentions.{heading, body_stmts};
ghost use Rattle.pdll_types.specs.Names as names;
ghost use Rattle.pdll_types.specs.Parts as parts;
ghost use Rattle.pdll_types.specs.Accepted.{faults};
ghost use Rattle.pdll_types.specs.Walk.{all_noted, step};

use crate::natives::{is_native_constraint, is_native_rewrite};
use crate::statements::names_root;
use crate::table::Table;
use crate::walk::{Walk, noted_where};
use pdll_syntax::fault::{PatFault, PatKind};
use pdll_syntax::file::{CallDecl, Meta, MetaForm, PatternDecl};
use pdll_syntax::name::Name;
use pdll_syntax::stmt::{Body, Stmt, StmtForm};
use std::alloc::{AllocError, Global};
use std::slice::from_ref;

/// The statements of a body.
pub fn body_stmts(body: &Body) -> &[Stmt]
    ensures { stmts result.now ≡ body_stmts body.now }
{
    match body {
        Body::Absent => &[],
        Body::Braces(all, _) => all.as_slice(),
        Body::One(one) => from_ref(one),
        Body::Value(_) => &[],
    }
}

fn is_absent(body: &Body) -> bool
    ensures { result ≡ names.is_absent body.now }
{
    matches!(body, Body::Absent)
}

/// The first fault so far, with that of a name that is declared before.
fn name_noted(table: &Table<'_>, least: Option<PatFault>, name: &Name) -> Option<PatFault>
    ensures { result ≡ all_noted (faults Redefined (names.name_twice table.now (Some name.now))) least }
{
    let twice = table.is_declared(name.text.as_slice());
    noted_where(least, twice, PatKind::Redefined, name.at)
}

fn maybe_name_noted(
    table: &Table<'_>,
    least: Option<PatFault>,
    name: &Option<Name>,
) -> Option<PatFault>
    ensures { result ≡ all_noted (faults Redefined (names.name_twice table.now name.now)) least }
{
    match name {
        None => least,
        Some(name) => name_noted(table, least, name),
    }
}

fn is_benefit(form: MetaForm) -> bool
    ensures { result ≡ names.is_benefit form }
{
    matches!(form, MetaForm::Benefit(_))
}

fn is_either(first: bool, second: bool) -> bool
    ensures { result ≡ (first || second) }
{
    first || second
}

fn meta_before(benefit: bool, recursion: bool, form: MetaForm) -> bool
    ensures { result ≡ names.is_meta_before benefit recursion form }
{
    if is_benefit(form) { benefit } else { recursion }
}

/// The first fault so far, with those of metas of a sort that stands before.
#[tactic(auto, using(crate::proofs::Noting::noted_places))]
fn metas_noted(least: Option<PatFault>, metas: &[Meta]) -> Option<PatFault>
    ensures { result ≡ all_noted (faults Redefined (names.metas_twice false false metas.now)) least }
{
    let mut least = least;
    let (mut benefit, mut recursion) = (false, false);
    for meta in metas {
        let twice = meta_before(benefit, recursion, meta.form);
        least = noted_where(least, twice, PatKind::Redefined, meta.at);
        let is_benefit = is_benefit(meta.form);
        benefit = is_either(benefit, is_benefit);
        recursion = is_either(recursion, !is_benefit);
    }
    least
}

/// The first fault so far, with those of a pattern's name and metas.
#[tactic(auto, using(crate::proofs::Noting::noted_places))]
fn pattern_twice_noted(
    table: &Table<'_>,
    least: Option<PatFault>,
    pattern: &PatternDecl,
) -> Option<PatFault>
    ensures { result ≡ all_noted (faults Redefined (names.heading_twice table.now (decl.Pattern pattern.now))) least }
{
    let least = maybe_name_noted(table, least, &pattern.name);
    metas_noted(least, pattern.metas.as_slice())
}

/// Whether the last of these statements names a root.
fn ends_in_root(all: &[Stmt]) -> bool
    ensures { result ≡ parts.ends_in_root (stmts all.now) }
{
    match all {
        [] => false,
        [.., last] => names_root(last),
    }
}

fn is_return_form(form: &StmtForm) -> bool
    ensures { result ≡ parts.is_return_form (stmt_form form.now) }
{
    matches!(form, StmtForm::Return(_))
}

/// Whether the last of these statements is `return`.
fn ends_in_return(all: &[Stmt]) -> bool
    ensures { result ≡ parts.ends_in_return (stmts all.now) }
{
    match all {
        [] => false,
        [.., last] => is_return_form(&last.form),
    }
}

/// Where a pattern ends.
fn end_of(pattern: &PatternDecl) -> usize
    ensures { result ≡ parts.end_of pattern.now }
{
    match &pattern.body {
        Body::Absent => pattern.at,
        Body::Braces(_, end) => *end,
        Body::One(one) => one.at,
        Body::Value(x) => x.at,
    }
}

/// Looks at the head of a pattern.
#[tactic(auto, unfolding(crate::specs::Walk::step, crate::specs::Walk::faults_at, crate::specs::Sight::sight_behind, crate::specs::Sight::words_behind), using(crate::proofs::Noting::noted_both, crate::proofs::Noting::noted_places))]
pub fn use_pattern(table: &Table<'_>, walk: &mut Walk<'_>, pattern: &PatternDecl)
    ensures { walk.new ≡ step table.now (heading (decl.Pattern pattern.now)) walk.old }
{
    let rootless = !ends_in_root(body_stmts(&pattern.body));
    let least = pattern_twice_noted(table, walk.least, pattern);
    walk.least = noted_where(least, rootless, PatKind::BadRoot, end_of(pattern));
}

/// Looks at the head of a constraint.
#[tactic(auto, unfolding(crate::specs::Walk::step, crate::specs::Walk::faults_at, crate::specs::Sight::sight_behind, crate::specs::Sight::words_behind), using(crate::proofs::Noting::noted_both, crate::proofs::Noting::noted_places))]
pub fn use_constraint(
    alloc: Global,
    table: &Table<'_>,
    walk: &mut Walk<'_>,
    call: &CallDecl,
) -> Result<(), AllocError>
    ensures { OnOk result (walk.new ≡ step table.now (heading (decl.Constraint call.now)) walk.old) }
{
    let unknown = is_absent(&call.body) && !is_native_constraint(alloc, call)?;
    let least = name_noted(table, walk.least, &call.name);
    walk.least = noted_where(least, unknown, PatKind::UnknownNative, call.name.at);
    Ok(())
}

/// The first fault so far, with that of a rewrite with a result whose statements don't end in `return`.
fn return_noted(least: Option<PatFault>, call: &CallDecl) -> Option<PatFault>
    ensures { result ≡ all_noted (faults WrongPart (parts.lacks_return call.now)) least }
{
    match &call.body {
        Body::Braces(all, end) => {
            let lacks = call.gives.is_some() && !ends_in_return(all.as_slice());
            noted_where(least, lacks, PatKind::WrongPart, *end)
        }
        _ => least,
    }
}

/// Looks at the head of a rewrite.
#[tactic(auto, unfolding(crate::specs::Walk::step, crate::specs::Walk::faults_at, crate::specs::Sight::sight_behind, crate::specs::Sight::words_behind), using(crate::proofs::Noting::noted_both, crate::proofs::Noting::noted_places))]
pub fn use_rewrite(
    alloc: Global,
    table: &Table<'_>,
    walk: &mut Walk<'_>,
    call: &CallDecl,
) -> Result<(), AllocError>
    ensures { OnOk result (walk.new ≡ step table.now (heading (decl.Rewrite call.now)) walk.old) }
{
    let unknown = is_absent(&call.body) && !is_native_rewrite(alloc, call)?;
    let least = name_noted(table, walk.least, &call.name);
    let least = noted_where(least, unknown, PatKind::UnknownNative, call.name.at);
    walk.least = return_noted(least, call);
    Ok(())
}
