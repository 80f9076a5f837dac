//! The way through expressions and refs.

ghost use Rattle.std.specs.Prelude.{◌≡◌, ◌∷◌, ◌++◌, [], false, OnOk, IfOk};
ghost use Rattle.pdll_syntax.specs.ExprTree.{expr, exprs, entries, refs, declare_expr, maybe_expr, maybe_exprs, no_expr};
ghost use Rattle.pdll_syntax.specs.ExprView.{expr_form, ref_form};
ghost use Rattle.pdll_types.specs.declared.section.Holder.TheVariants.{Variable};
ghost use Rattle.pdll_types.specs.Asking.{asked_of};
ghost use Rattle.pdll_types.specs.Signatures.{kind_of_refs};
ghost use Rattle.pdll_types.specs.Mentions as spec;
ghost use Rattle.pdll_types.specs.Walk.{walked};

use crate::asked::Asked;
use crate::kind::Kind;
use crate::marks::{note_word, show, use_ref, use_refs};
use crate::refs::{is_later, kind_of_refs};
use crate::section::{Holder, Section};
use crate::table::Table;
use crate::uses::{use_form, use_list, use_members};
use crate::walk::Walk;
use pdll_syntax::expr::{Entry, Expr, ExprForm, OpExpr, Ref, RefForm};
use pdll_syntax::name::Text;
use sqlite_items::Items;
use std::alloc::{AllocError, Global};

/// Goes through an expression.
#[cycle(expressions)]
pub fn walk_expr<'t>(
    alloc: Global,
    table: &Table<'t>,
    walk: &mut Walk<'t>,
    section: Section,
    asked: Asked<'_>,
    x: &'t Expr,
) -> Result<(), AllocError>
    ensures { OnOk result (walk.new ≡ walked table.now (spec.of_expr table.now section (asked_of asked.entry) x.now) walk.old) }
{
    let behind = use_members(walk, asked, x.at, x.members.as_slice())?;
    walk_form(alloc, table, walk, section, behind, x.at, &x.form)
}

/// Goes through an expression without numbers behind it.
#[cycle(expressions)]
#[tactic(auto, unfolding(crate::specs::Mentions::of_expr), using(crate::proofs::Steps::walked_both))]
fn walk_form<'t>(
    alloc: Global,
    table: &Table<'t>,
    walk: &mut Walk<'t>,
    section: Section,
    asked: Asked<'_>,
    at: usize,
    form: &'t ExprForm,
) -> Result<(), AllocError>
    ensures { OnOk result (walk.new ≡ walked table.now (spec.of_expr table.now section (asked_of asked.entry) (expr at (expr_form form.now))) walk.old) }
{
    use_form(alloc, table, walk, section, asked, at, form)?;
    walk_inside(alloc, table, walk, section, at, form)
}

/// Goes through the parts of an expression.
#[cycle(expressions)]
#[tactic(auto, unfolding(crate::specs::Mentions::inside_form), using(crate::proofs::Steps::walked_both))]
fn walk_inside<'t>(
    alloc: Global,
    table: &Table<'t>,
    walk: &mut Walk<'t>,
    section: Section,
    at: usize,
    form: &'t ExprForm,
) -> Result<(), AllocError>
    ensures { OnOk result (walk.new ≡ walked table.now (spec.inside_form table.now section at (expr_form form.now)) walk.old) }
{
    match form {
        ExprForm::Name(_) => Ok(()),
        ExprForm::Call(name, arguments) => walk_arguments(
            alloc,
            table,
            walk,
            section.within(),
            table.parameters(name.as_slice()),
            arguments.as_slice(),
        ),
        ExprForm::Declare(name, refs) => {
            walk_declared(alloc, table, walk, section, at, name, refs.as_slice())
        }
        ExprForm::AttrLit(_) => Ok(()),
        ExprForm::TyLit(_) => Ok(()),
        ExprForm::Op(operation) => walk_operation(alloc, table, walk, section.within(), operation),
    }
}

/// Goes through a variable that is declared at its place.
#[cycle(expressions)]
#[tactic(auto, unfolding(crate::specs::Mentions::inside_form, crate::specs::Mentions::of_all_refs), using(crate::proofs::Steps::walked_both))]
fn walk_declared<'t>(
    alloc: Global,
    table: &Table<'t>,
    walk: &mut Walk<'t>,
    section: Section,
    at: usize,
    name: &'t Text,
    all: &'t [Ref],
) -> Result<(), AllocError>
    ensures { OnOk result (walk.new ≡ walked table.now (spec.inside_form table.now section at (declare_expr name.now (refs all.now))) walk.old) }
{
    let part = section.within();
    let word = name.as_slice();
    note_word(walk, part, false, at, word)?;
    let kind = walk_refs(alloc, table, walk, part, Holder::Variable, all)?;
    show(walk, word, kind)
}

/// Goes through all refs of a variable, a parameter or a result, and gives the kind that they write.
#[cycle(expressions)]
#[tactic(auto, unfolding(crate::specs::Mentions::of_all_refs), using(crate::proofs::Steps::walked_both))]
pub fn walk_refs<'t>(
    alloc: Global,
    table: &Table<'t>,
    walk: &mut Walk<'t>,
    section: Section,
    holder: Holder,
    all: &'t [Ref],
) -> Result<Option<Kind>, AllocError>
    ensures walked { OnOk result (walk.new ≡ walked table.now (spec.of_all_refs table.now section holder (refs all.now)) walk.old) }
    ensures kind { IfOk result (λ k. k ≡ kind_of_refs table.now (refs all.now)) }
{
    let kind = kind_of_refs(alloc, table, all)?;
    use_refs(walk, section, holder, all);
    walk_each_ref(alloc, table, walk, section, holder, &kind, all)?;
    Ok(kind)
}

/// Goes through refs of a variable of this kind.
#[cycle(expressions)]
#[tactic(auto, unfolding(crate::specs::Mentions::of_refs), using(crate::proofs::Steps::walked_both))]
fn walk_each_ref<'t>(
    alloc: Global,
    table: &Table<'t>,
    walk: &mut Walk<'t>,
    section: Section,
    holder: Holder,
    kind: &Option<Kind>,
    all: &'t [Ref],
) -> Result<(), AllocError>
    ensures { OnOk result (walk.new ≡ walked table.now (spec.of_refs table.now section holder kind.now false (refs all.now)) walk.old) }
{
    let mut later = false;
    for one in all {
        use_ref(alloc, table, walk, holder, kind, later, one)?;
        walk_ref(alloc, table, walk, section, one)?;
        later = is_later(later, one);
    }
    Ok(())
}

#[cycle(expressions)]
#[tactic(auto, unfolding(crate::specs::Mentions::inside_ref), using(crate::proofs::Steps::walked_both))]
fn walk_ref<'t>(
    alloc: Global,
    table: &Table<'t>,
    walk: &mut Walk<'t>,
    section: Section,
    one: &'t Ref,
) -> Result<(), AllocError>
    ensures { OnOk result (walk.new ≡ walked table.now (spec.inside_ref table.now section one.now) walk.old) }
{
    walk_ref_form(alloc, table, walk, section, &one.form)
}

/// Goes through the type that a ref has.
#[cycle(expressions)]
#[tactic(auto, unfolding(crate::specs::Mentions::inside_ref_form), using(crate::proofs::Steps::walked_both))]
fn walk_ref_form<'t>(
    alloc: Global,
    table: &Table<'t>,
    walk: &mut Walk<'t>,
    section: Section,
    form: &'t RefForm,
) -> Result<(), AllocError>
    ensures { OnOk result (walk.new ≡ walked table.now (spec.inside_ref_form table.now section (ref_form form.now)) walk.old) }
{
    match form {
        RefForm::Attr(of) => walk_maybe(alloc, table, walk, section, Asked::Type, of),
        RefForm::Op(_) => Ok(()),
        RefForm::Ty => Ok(()),
        RefForm::Tys => Ok(()),
        RefForm::Value(of) => walk_maybe(alloc, table, walk, section, Asked::Type, of),
        RefForm::Values(of) => walk_maybe(alloc, table, walk, section, Asked::Types, of),
        RefForm::Named(_) => Ok(()),
    }
}

#[cycle(expressions)]
#[tactic(auto, unfolding(crate::specs::Mentions::of_operation), using(crate::proofs::Steps::walked_both))]
fn walk_operation<'t>(
    alloc: Global,
    table: &Table<'t>,
    walk: &mut Walk<'t>,
    section: Section,
    operation: &'t OpExpr,
) -> Result<(), AllocError>
    ensures { OnOk result (walk.new ≡ walked table.now (spec.of_operation table.now section operation.now) walk.old) }
{
    walk_list(
        alloc,
        table,
        walk,
        section,
        Asked::Operand,
        &operation.operands,
    )?;
    walk_entries(alloc, table, walk, section, operation.entries.as_slice())?;
    walk_list(
        alloc,
        table,
        walk,
        section,
        Asked::ResultType,
        &operation.types,
    )
}

/// Goes through operands or result types.
#[cycle(expressions)]
#[tactic(auto, unfolding(crate::specs::Mentions::of_list), using(crate::proofs::Steps::walked_both))]
fn walk_list<'t>(
    alloc: Global,
    table: &Table<'t>,
    walk: &mut Walk<'t>,
    section: Section,
    asked: Asked<'_>,
    all: &'t Option<Items<Expr>>,
) -> Result<(), AllocError>
    ensures { OnOk result (walk.new ≡ walked table.now (spec.of_list table.now section (asked_of asked.entry) (maybe_exprs all.now)) walk.old) }
{
    match all {
        None => Ok(()),
        Some(all) => {
            walk_exprs(alloc, table, walk, section, asked, all.as_slice())?;
            use_list(alloc, table, walk, section, asked, all.as_slice())
        }
    }
}

/// Goes through expressions of which the same is asked.
#[cycle(expressions)]
#[tactic(auto, unfolding(crate::specs::Mentions::of_exprs), using(crate::proofs::Steps::walked_both))]
pub fn walk_exprs<'t>(
    alloc: Global,
    table: &Table<'t>,
    walk: &mut Walk<'t>,
    section: Section,
    asked: Asked<'_>,
    all: &'t [Expr],
) -> Result<(), AllocError>
    ensures { OnOk result (walk.new ≡ walked table.now (spec.of_exprs table.now section (asked_of asked.entry) (exprs all.now)) walk.old) }
{
    for x in all {
        walk_expr(alloc, table, walk, section, asked, x)?;
    }
    Ok(())
}

/// What is asked of an argument for the first of these parameters.
fn first_asked(parameters: &[Option<Kind>]) -> Asked<'_>
    ensures { asked_of result ≡ spec.first_asked parameters.now }
{
    match parameters {
        [] => Asked::NotCall,
        [kind, ..] => Asked::Written(kind),
    }
}

/// The parameters but the first.
fn others_asked(parameters: &[Option<Kind>]) -> &[Option<Kind>]
    ensures { result.now ≡ spec.others_asked parameters.now }
{
    match parameters {
        [] => parameters,
        [_, others @ ..] => others,
    }
}

/// Goes through arguments for parameters of these kinds.
#[cycle(expressions)]
#[tactic(auto, unfolding(crate::specs::Mentions::of_arguments), using(crate::proofs::Steps::walked_both))]
fn walk_arguments<'t>(
    alloc: Global,
    table: &Table<'t>,
    walk: &mut Walk<'t>,
    section: Section,
    parameters: &[Option<Kind>],
    all: &'t [Expr],
) -> Result<(), AllocError>
    ensures { OnOk result (walk.new ≡ walked table.now (spec.of_arguments table.now section parameters.now (exprs all.now)) walk.old) }
{
    let mut rest = parameters;
    for x in all {
        walk_expr(alloc, table, walk, section, first_asked(rest), x)?;
        rest = others_asked(rest);
    }
    Ok(())
}

#[cycle(expressions)]
#[tactic(auto, unfolding(crate::specs::Mentions::of_entries), using(crate::proofs::Steps::walked_both))]
fn walk_entries<'t>(
    alloc: Global,
    table: &Table<'t>,
    walk: &mut Walk<'t>,
    section: Section,
    all: &'t [Entry],
) -> Result<(), AllocError>
    ensures { OnOk result (walk.new ≡ walked table.now (spec.of_entries table.now section (entries all.now)) walk.old) }
{
    for entry in all {
        walk_entry(alloc, table, walk, section, entry)?;
    }
    Ok(())
}

#[cycle(expressions)]
#[tactic(auto, unfolding(crate::specs::Mentions::of_entry), using(crate::proofs::Steps::walked_both))]
fn walk_entry<'t>(
    alloc: Global,
    table: &Table<'t>,
    walk: &mut Walk<'t>,
    section: Section,
    entry: &'t Entry,
) -> Result<(), AllocError>
    ensures { OnOk result (walk.new ≡ walked table.now (spec.of_entry table.now section entry.now) walk.old) }
{
    walk_maybe(alloc, table, walk, section, Asked::Attribute, &entry.value)
}

/// Goes through an expression, where there is one.
#[cycle(expressions)]
#[tactic(auto, unfolding(crate::specs::Mentions::of_maybe), using(crate::proofs::Steps::walked_both))]
pub fn walk_maybe<'t>(
    alloc: Global,
    table: &Table<'t>,
    walk: &mut Walk<'t>,
    section: Section,
    asked: Asked<'_>,
    x: &'t Option<Expr>,
) -> Result<(), AllocError>
    ensures { OnOk result (walk.new ≡ walked table.now (spec.of_maybe table.now section (asked_of asked.entry) (maybe_expr x.now)) walk.old) }
{
    match x {
        None => Ok(()),
        Some(x) => walk_expr(alloc, table, walk, section, asked, x),
    }
}
