//! Words, refs and statements, and the variables that come into sight.

ghost use Rattle.std.specs.Prelude.{List, ◌≡◌, ◌∷◌, ◌++◌, [], false, not, ◌&&◌, if◌then◌else◌, OnOk, IfOk};
ghost use Rattle.pdll_syntax.specs.ExprTree.{refs, maybe_expr};
ghost use Rattle.pdll_syntax.specs.ExprView.{ref_form};
ghost use Rattle.pdll_syntax.specs.StmtView.{stmt_form};
ghost use Rattle.pdll_syntax.specs.declared.fault.PatKind.TheVariants.{Undefined, Redefined, WrongKind, WrongArity, AfterRoot, WrongPart};
ghost use Rattle.pdll_types.specs.Signatures.{Declared, form_of_ref};
ghost use Rattle.pdll_types.specs.Mentions.{word, ref_list, one_ref, statement};
ghost use Rattle.pdll_types.specs.Sight.{sight_with};
ghost use Rattle.pdll_types.specs.Names as names;
ghost use Rattle.pdll_types.specs.KindFaults as kinds;
ghost use Rattle.pdll_types.specs.Parts as parts;
ghost use Rattle.pdll_types.specs.Accepted.{faults};
ghost use Rattle.pdll_types.specs.Walk.{all_noted, step};

use crate::asked::Asked;
use crate::kind::Kind;
use crate::section::{Holder, Section, Standing};
use crate::sight::is_blank;
use crate::table::Table;
use crate::walk::{Walk, noted_where};
use pdll_syntax::expr::{Expr, Ref, RefForm};
use pdll_syntax::fault::{PatFault, PatKind};
use pdll_syntax::stmt::{Stmt, StmtForm};
use std::alloc::{AllocError, Global};

/// Notes a word that declares a variable, which has a value there or not.
#[tactic(auto, unfolding(crate::specs::Walk::step, crate::specs::Walk::faults_at, crate::specs::Sight::sight_behind, crate::specs::Sight::words_behind), using(crate::proofs::Noting::noted_both))]
pub fn note_word<'t>(
    walk: &mut Walk<'t>,
    section: Section,
    given: bool,
    at: usize,
    name: &'t [u8],
) -> Result<(), AllocError>
    ensures { OnOk result ((c : List Declared) → walk.new ≡ step c (word section given at name.now) walk.old) }
{
    let blank = is_blank(name);
    let twice = if blank { false } else { walk.words.put(name)? };
    walk.least = noted_where(walk.least, twice, PatKind::Redefined, at);
    let wrong = section.is_rewritten() && !given;
    walk.least = noted_where(walk.least, wrong, PatKind::WrongPart, at);
    Ok(())
}

/// Brings a variable of this kind into sight.
pub fn show<'t>(walk: &mut Walk<'t>, name: &'t [u8], kind: Option<Kind>) -> Result<(), AllocError>
    ensures { OnOk result (walk.new ≡ record walk.old { sight = sight_with walk.old.sight name.now kind }) }
{
    walk.sight.show(name, kind)
}

/// Whether a ref is a kind without `<`.
pub fn is_plain(form: &RefForm) -> bool
    ensures { result ≡ parts.is_plain (ref_form form.now) }
{
    match form {
        RefForm::Attr(of) => of.is_none(),
        RefForm::Op(name) => name.is_none(),
        RefForm::Ty => true,
        RefForm::Tys => true,
        RefForm::Value(of) => of.is_none(),
        RefForm::Values(of) => of.is_none(),
        RefForm::Named(_) => false,
    }
}

/// The first fault so far, with that of refs that aren't one kind without `<`.
fn not_plain_noted(least: Option<PatFault>, all: &[Ref]) -> Option<PatFault>
    ensures { result ≡ all_noted (faults WrongPart (parts.refs_not_plain (refs all.now))) least }
{
    match all {
        [] => least,
        [one] => noted_where(least, !is_plain(&one.form), PatKind::WrongPart, one.at),
        [first, ..] => noted_where(least, true, PatKind::WrongPart, first.at),
    }
}

/// Looks at refs and what holds them.
#[tactic(auto, unfolding(crate::specs::Walk::step, crate::specs::Walk::faults_at, crate::specs::Sight::sight_behind, crate::specs::Sight::words_behind))]
pub fn use_refs(walk: &mut Walk<'_>, section: Section, holder: Holder, all: &[Ref])
    ensures { (c : List Declared) → walk.new ≡ step c (ref_list section holder (refs all.now)) walk.old }
{
    match holder {
        Holder::Outcome => {}
        _ => {
            if section.is_rewritten() {
                walk.least = not_plain_noted(walk.least, all);
            }
        }
    }
}

fn is_undefined_ref(table: &Table<'_>, form: &RefForm) -> bool
    ensures { result ≡ names.is_undefined_ref table.now (ref_form form.now) }
{
    match form {
        RefForm::Named(name) => !table.is_constraint(name.as_slice()),
        _ => false,
    }
}

/// Whether a ref of a variable of this kind is a constraint that takes another kind, or a kind behind another one.
fn is_wrong_ref(
    alloc: Global,
    table: &Table<'_>,
    kind: &Option<Kind>,
    later: bool,
    form: &RefForm,
) -> Result<bool, AllocError>
    ensures { IfOk result (λ b. b ≡ kinds.is_wrong_ref table.now kind.now later (ref_form form.now)) }
{
    match form {
        RefForm::Named(name) => {
            let written = table.only_parameter(alloc, name.as_slice())?;
            Ok(!Asked::Written(&written).is_met(kind))
        }
        _ => Ok(later),
    }
}

fn has_one(parameters: &[Option<Kind>]) -> bool
    ensures { result ≡ kinds.is_one parameters.now }
{
    matches!(parameters, [_])
}

fn has_ref_wrong_arity(table: &Table<'_>, form: &RefForm) -> bool
    ensures { result ≡ kinds.has_ref_wrong_arity table.now (ref_form form.now) }
{
    match form {
        RefForm::Named(name) => table.is_constraint(name.as_slice())
            && !has_one(table.parameters(name.as_slice())),
        _ => false,
    }
}

/// The first fault so far, with that of a type where none may stand.
fn type_noted(least: Option<PatFault>, of: &Option<Expr>) -> Option<PatFault>
    ensures { result ≡ all_noted (faults WrongPart (parts.maybe_place (maybe_expr of.now))) least }
{
    match of {
        None => least,
        Some(x) => noted_where(least, true, PatKind::WrongPart, x.at),
    }
}

fn form_type_noted(least: Option<PatFault>, form: &RefForm) -> Option<PatFault>
    ensures { result ≡ all_noted (faults WrongPart (parts.place_of_type (ref_form form.now))) least }
{
    match form {
        RefForm::Attr(of) => type_noted(least, of),
        RefForm::Value(of) => type_noted(least, of),
        RefForm::Values(of) => type_noted(least, of),
        _ => least,
    }
}

fn wrong_type_noted(least: Option<PatFault>, holder: Holder, form: &RefForm) -> Option<PatFault>
    ensures { result ≡ all_noted (faults WrongPart (parts.wrong_type holder (ref_form form.now))) least }
{
    match holder {
        Holder::Variable | Holder::Outcome => least,
        Holder::Valued | Holder::Parameter => form_type_noted(least, form),
    }
}

/// Looks at one of the refs of a variable of this kind, behind a kind among them or not.
#[tactic(auto, unfolding(crate::specs::Walk::step, crate::specs::Walk::faults_at, crate::specs::Sight::sight_behind, crate::specs::Sight::words_behind), using(crate::proofs::Noting::noted_both))]
pub fn use_ref(
    alloc: Global,
    table: &Table<'_>,
    walk: &mut Walk<'_>,
    holder: Holder,
    kind: &Option<Kind>,
    later: bool,
    one: &Ref,
) -> Result<(), AllocError>
    ensures { OnOk result (walk.new ≡ step table.now (one_ref holder kind.now later one.now) walk.old) }
{
    let undefined = is_undefined_ref(table, &one.form);
    let wrong_kind = is_wrong_ref(alloc, table, kind, later, &one.form)?;
    let wrong_arity = has_ref_wrong_arity(table, &one.form);
    let least = noted_where(walk.least, undefined, PatKind::Undefined, one.at);
    let least = noted_where(least, wrong_kind, PatKind::WrongKind, one.at);
    let least = noted_where(least, wrong_arity, PatKind::WrongArity, one.at);
    walk.least = wrong_type_noted(least, holder, &one.form);
    Ok(())
}

fn is_wrong_statement(standing: Standing, form: &StmtForm) -> bool
    ensures { result ≡ parts.is_wrong_statement standing (stmt_form form.now) }
{
    match (standing, form) {
        (_, StmtForm::Let(_, _, _)) => false,
        (_, StmtForm::Plain(_)) => false,
        (Standing::Final, _) => false,
        (Standing::Matching, _) => true,
        (Standing::Exempt, StmtForm::Return(_)) => true,
        (Standing::Exempt, _) => false,
        (Standing::Inside, StmtForm::Return(_)) => true,
        (_, StmtForm::Rewrite(_, _, _)) => true,
        _ => false,
    }
}

/// Looks at a statement, which stands so, behind one that names a root or not.
#[tactic(auto, unfolding(crate::specs::Walk::step, crate::specs::Walk::faults_at, crate::specs::Sight::sight_behind, crate::specs::Sight::words_behind), using(crate::proofs::Noting::noted_both))]
pub fn use_statement(walk: &mut Walk<'_>, standing: Standing, late: bool, one: &Stmt)
    ensures { (c : List Declared) → walk.new ≡ step c (statement standing late one.now) walk.old }
{
    let wrong = is_wrong_statement(standing, &one.form);
    walk.least = noted_where(walk.least, late, PatKind::AfterRoot, one.at);
    walk.least = noted_where(walk.least, wrong, PatKind::WrongPart, one.at);
}
