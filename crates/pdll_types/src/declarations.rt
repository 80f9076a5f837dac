//! The way through declarations.

ghost use Rattle.std.specs.Prelude.{◌≡◌, ◌∷◌, ◌++◌, [], Some, None, OnOk, IfOk, option_copied, option_map};
ghost use Rattle.pdll_syntax.specs.declared.file.Decl.TheVariants as decl;
ghost use Rattle.std.specs.Option.{is_some};
ghost use Rattle.pdll_syntax.specs.ExprTree.{refs};
ghost use Rattle.pdll_types.specs.Asking.{asked_of};
ghost use Rattle.pdll_types.specs.Signatures as signatures;
ghost use Rattle.pdll_types.specs.Mentions as spec;
ghost use Rattle.pdll_types.specs.Walk.{walked};

use crate::asked::Asked;
use crate::expressions::{walk_expr, walk_refs};
use crate::headings::{body_stmts, use_constraint, use_pattern, use_rewrite};
use crate::kind::Kind;
use crate::marks::{note_word, show};
use crate::refs::kind_of_refs;
use crate::section::{Holder, Section};
use crate::signature::{Signature, Sort};
use crate::statements::{walk_constraint, walk_pattern, walk_rewrite};
use crate::table::Table;
use crate::walk::Walk;
use pdll_syntax::expr::Ref;
use pdll_syntax::file::{CallDecl, Decl, PatternDecl};
use pdll_syntax::stmt::{Body, Param};
use sqlite_items::Items;
use std::alloc::{AllocError, Global};
use std::slice::from_ref;

fn walk_param<'t>(
    alloc: Global,
    table: &Table<'t>,
    walk: &mut Walk<'t>,
    section: Section,
    param: &'t Param,
) -> Result<(), AllocError>
    ensures { OnOk result (walk.new ≡ walked table.now (spec.of_param table.now section param.now) walk.old) }
{
    let word = param.name.text.as_slice();
    note_word(walk, section, true, param.name.at, word)?;
    let all = param.refs.as_slice();
    let kind = walk_refs(alloc, table, walk, section, Holder::Parameter, all)?;
    show(walk, word, kind)
}

#[tactic(auto, unfolding(crate::specs::Mentions::of_params), using(crate::proofs::Steps::walked_both))]
fn walk_params<'t>(
    alloc: Global,
    table: &Table<'t>,
    walk: &mut Walk<'t>,
    section: Section,
    params: &'t [Param],
) -> Result<(), AllocError>
    ensures { OnOk result (walk.new ≡ walked table.now (spec.of_params table.now section params.now) walk.old) }
{
    for param in params {
        walk_param(alloc, table, walk, section, param)?;
    }
    Ok(())
}

/// Goes through the kind of what a rewrite gives, and returns it.
#[tactic(auto, unfolding(crate::specs::Mentions::of_all_refs), using(crate::proofs::Steps::walked_both))]
fn walk_result<'t>(
    alloc: Global,
    table: &Table<'t>,
    walk: &mut Walk<'t>,
    gives: &'t Option<Ref>,
) -> Result<Option<Kind>, AllocError>
    ensures walked { OnOk result (walk.new ≡ walked table.now (spec.of_result table.now gives.now) walk.old) }
    ensures kind { IfOk result (λ k. k ≡ signatures.result_kind table.now gives.now) }
{
    match gives {
        None => Ok(None),
        Some(one) => walk_refs(
            alloc,
            table,
            walk,
            Section::Rewritten,
            Holder::Outcome,
            from_ref(one),
        ),
    }
}

/// Goes through the expression of a body by `=>`.
fn walk_body_value<'t>(
    alloc: Global,
    table: &Table<'t>,
    walk: &mut Walk<'t>,
    section: Section,
    asked: Asked<'_>,
    body: &'t Body,
) -> Result<(), AllocError>
    ensures { OnOk result (walk.new ≡ walked table.now (spec.of_body_value table.now section (asked_of asked.entry) body.now) walk.old) }
{
    match body {
        Body::Value(x) => walk_expr(alloc, table, walk, section, asked, x),
        _ => Ok(()),
    }
}

#[tactic(auto, unfolding(crate::specs::Mentions::mentions), using(crate::proofs::Steps::walked_both))]
fn walk_pattern_decl<'t>(
    alloc: Global,
    table: &Table<'t>,
    walk: &mut Walk<'t>,
    pattern: &'t PatternDecl,
) -> Result<(), AllocError>
    ensures { OnOk result (walk.new ≡ walked table.now (spec.mentions table.now (decl.Pattern pattern.now)) walk.old) }
{
    use_pattern(table, walk, pattern);
    walk_pattern(alloc, table, walk, body_stmts(&pattern.body))
}

#[tactic(auto, unfolding(crate::specs::Mentions::mentions), using(crate::proofs::Steps::walked_both))]
fn walk_constraint_decl<'t>(
    alloc: Global,
    table: &Table<'t>,
    walk: &mut Walk<'t>,
    call: &'t CallDecl,
) -> Result<(), AllocError>
    ensures { OnOk result (walk.new ≡ walked table.now (spec.mentions table.now (decl.Constraint call.now)) walk.old) }
{
    use_constraint(alloc, table, walk, call)?;
    walk_params(alloc, table, walk, Section::Matched, call.params.as_slice())?;
    walk_constraint(alloc, table, walk, body_stmts(&call.body))?;
    walk_body_value(
        alloc,
        table,
        walk,
        Section::Matched,
        Asked::ConstraintCall,
        &call.body,
    )
}

/// What is asked of the expression of a rewrite by `=>`.
fn asked_of_value<'a>(gives: &Option<Ref>, kind: &'a Option<Kind>) -> Asked<'a>
    ensures { asked_of result ≡ spec.asked_where (is_some gives.now) kind.now }
{
    match gives {
        None => Asked::Anything,
        Some(_) => Asked::Written(kind),
    }
}

#[tactic(auto, unfolding(crate::specs::Mentions::mentions), using(crate::proofs::Steps::walked_both))]
fn walk_rewrite_decl<'t>(
    alloc: Global,
    table: &Table<'t>,
    walk: &mut Walk<'t>,
    call: &'t CallDecl,
) -> Result<(), AllocError>
    ensures { OnOk result (walk.new ≡ walked table.now (spec.mentions table.now (decl.Rewrite call.now)) walk.old) }
{
    use_rewrite(alloc, table, walk, call)?;
    walk_params(
        alloc,
        table,
        walk,
        Section::Rewritten,
        call.params.as_slice(),
    )?;
    let kind = walk_result(alloc, table, walk, &call.gives)?;
    walk_rewrite(
        alloc,
        table,
        walk,
        &kind,
        call.gives.is_some(),
        body_stmts(&call.body),
    )?;
    let asked = asked_of_value(&call.gives, &kind);
    walk_body_value(alloc, table, walk, Section::Rewritten, asked, &call.body)
}

/// Goes through a declaration.
pub fn walk_decl<'t>(
    alloc: Global,
    table: &Table<'t>,
    walk: &mut Walk<'t>,
    one: &'t Decl,
) -> Result<(), AllocError>
    ensures { OnOk result (walk.new ≡ walked table.now (spec.mentions table.now one.now) walk.old) }
{
    match one {
        Decl::Pattern(pattern) => walk_pattern_decl(alloc, table, walk, pattern),
        Decl::Constraint(call) => walk_constraint_decl(alloc, table, walk, call),
        Decl::Rewrite(call) => walk_rewrite_decl(alloc, table, walk, call),
    }
}

/// The kinds of parameters.
fn parameter_kinds(
    alloc: Global,
    table: &Table<'_>,
    params: &[Param],
) -> Result<Items<Option<Kind>>, AllocError>
    ensures { IfOk result (λ ks. ks ≡ signatures.parameter_kinds table.now params.now) }
{
    let mut kinds = Items::new(alloc);
    for param in params {
        kinds.push(kind_of_refs(alloc, table, param.refs.as_slice())?)?;
    }
    Ok(kinds)
}

/// The kind of a call of a rewrite.
fn gives_kind(
    alloc: Global,
    table: &Table<'_>,
    gives: &Option<Ref>,
) -> Result<Option<Kind>, AllocError>
    ensures { IfOk result (λ k. k ≡ signatures.gives_kind table.now gives.now) }
{
    match gives {
        None => Ok(Some(Kind::Call)),
        Some(one) => kind_of_refs(alloc, table, from_ref(one)),
    }
}

/// What a declaration says to those that call it.
fn signature(alloc: Global, table: &Table<'_>, one: &Decl) -> Result<Signature, AllocError>
    ensures { IfOk result (λ g. g ≡ signatures.signature table.now one.now) }
{
    match one {
        Decl::Pattern(_) => Ok(Signature {
            sort: Sort::Pattern,
            params: Items::new(alloc),
            gives: None,
        }),
        Decl::Constraint(call) => Ok(Signature {
            sort: Sort::Constraint,
            params: parameter_kinds(alloc, table, call.params.as_slice())?,
            gives: Some(Kind::Call),
        }),
        Decl::Rewrite(call) => Ok(Signature {
            sort: Sort::Rewrite,
            params: parameter_kinds(alloc, table, call.params.as_slice())?,
            gives: gives_kind(alloc, table, &call.gives)?,
        }),
    }
}

/// The name of a declaration.
fn declared_name(one: &Decl) -> Option<&[u8]>
    ensures { option_copied result ≡ option_map (λ n. n.text) (signatures.declared_name one.now) }
{
    match one {
        Decl::Pattern(pattern) => match &pattern.name {
            None => None,
            Some(name) => Some(name.text.as_slice()),
        },
        Decl::Constraint(call) => Some(call.name.text.as_slice()),
        Decl::Rewrite(call) => Some(call.name.text.as_slice()),
    }
}

/// Declares what has a name, which must be new.
#[tactic(auto, unfolding(crate::specs::Signatures::declared))]
pub fn declare<'t>(alloc: Global, table: &mut Table<'t>, one: &'t Decl) -> Result<(), AllocError>
    requires { (n : _) → signatures.declared_name one.now ≡ Some n → signatures.signature_of table.old n.text ≡ None }
    ensures { OnOk result (table.new ≡ signatures.declared table.old one.now) }
{
    let signature = signature(alloc, table, one)?;
    match declared_name(one) {
        None => Ok(()),
        Some(name) => table.declare(name, signature),
    }
}
