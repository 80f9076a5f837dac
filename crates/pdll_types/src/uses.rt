//! What is wrong with the use of an expression at its place.

ghost use Rattle.std.specs.Prelude.{◌≡◌, ◌∷◌, ◌++◌, [], drop, IfOk, OnOk, length, unwrap_or, not, false, ◌&&◌, ◌==◌};
ghost use Rattle.pdll_syntax.specs.ExprTree.{expr, exprs, entries, name_expr, member_expr};
ghost use Rattle.pdll_syntax.specs.ExprView.{expr_form};
ghost use Rattle.pdll_syntax.specs.declared.fault.PatKind.TheVariants.{Undefined, Redefined, WrongKind, WrongArity, BadLiteral, TwoRanges, NoResultTypes, BadRoot, WrongPart};
ghost use Rattle.pdll_types.specs.Asking.{asked_of};
ghost use Rattle.pdll_types.specs.Kinds.{an_operation};
ghost use Rattle.pdll_types.specs.Mentions.{use_of, listed};
ghost use Rattle.pdll_types.specs.Sight.{kind_of, form_of};
ghost use Rattle.pdll_types.specs.Names as names;
ghost use Rattle.pdll_types.specs.KindFaults as kinds;
ghost use Rattle.pdll_types.specs.Parts as parts;
ghost use Rattle.pdll_types.specs.Accepted.{faults, is_root, numbers_of};
ghost use Rattle.pdll_types.specs.Walk.{all_noted, faults_at, step, seen_of, member_use, members_walked, asked_after};
ghost use Rattle.pdll_types.specs.declared.kind.Kind.TheVariants.{Call};

use crate::asked::Asked;
use crate::kind::Kind;
use crate::literals::literal_noted;
use crate::refs::kind_of_refs;
use crate::section::Section;
use crate::sight::{Sight, Words};
use crate::table::Table;
use crate::walk::{Walk, noted_where};
use mlir_tree::text::copy_text;
use pdll_syntax::expr::{Entry, Expr, ExprForm};
use pdll_syntax::fault::{PatFault, PatKind};
use std::alloc::{AllocError, Global};

/// The kind of an expression without numbers behind it.
fn kind_of_form(
    alloc: Global,
    table: &Table<'_>,
    sight: &Sight<'_>,
    form: &ExprForm,
) -> Result<Option<Kind>, AllocError>
    ensures { IfOk result (λ k. k ≡ kind_of table.now sight.now (expr_form form.now)) }
{
    match form {
        ExprForm::Name(name) => sight.kind(alloc, name.as_slice()),
        ExprForm::Call(name, _) => table.call_kind(alloc, name.as_slice()),
        ExprForm::Declare(_, refs) => kind_of_refs(alloc, table, refs.as_slice()),
        ExprForm::AttrLit(_) => Ok(Some(Kind::Attr)),
        ExprForm::TyLit(_) => Ok(Some(Kind::Ty)),
        ExprForm::Op(operation) => Ok(Some(Kind::Row(Some(copy_text(alloc, &operation.name)?)))),
    }
}

/// The kind of an expression.
pub fn kind_of_expr(
    alloc: Global,
    table: &Table<'_>,
    sight: &Sight<'_>,
    x: &Expr,
) -> Result<Option<Kind>, AllocError>
    ensures { IfOk result (λ k. k ≡ kind_of table.now sight.now (form_of x.now)) }
{
    if x.members.len() > 0 {
        return Ok(Some(Kind::Value));
    }
    kind_of_form(alloc, table, sight, &x.form)
}

fn is_undefined(table: &Table<'_>, sight: &Sight<'_>, form: &ExprForm) -> bool
    ensures { result ≡ names.is_undefined table.now sight.now (expr_form form.now) }
{
    match form {
        ExprForm::Name(name) => !sight.has(name.as_slice()),
        ExprForm::Call(name, _) => !table.is_callable(name.as_slice()),
        _ => false,
    }
}

fn calls_constraint(table: &Table<'_>, form: &ExprForm) -> bool
    ensures { result ≡ kinds.calls_constraint table.now (expr_form form.now) }
{
    match form {
        ExprForm::Call(name, _) => table.is_constraint(name.as_slice()),
        _ => false,
    }
}

/// Whether it declares a variable whose refs tell no kind.
fn is_untold(form: &ExprForm, kind: &Option<Kind>) -> bool
    ensures { result ≡ kinds.is_untold (expr_form form.now) kind.now }
{
    match (form, kind) {
        (ExprForm::Declare(_, _), None) => true,
        _ => false,
    }
}

fn is_wrong_kind(table: &Table<'_>, asked: Asked<'_>, form: &ExprForm, kind: &Option<Kind>) -> bool
    ensures { result ≡ kinds.is_wrong_kind table.now (asked_of asked.entry) (expr_form form.now) kind.now }
{
    match asked {
        Asked::ConstraintCall => !calls_constraint(table, form),
        _ => !(is_untold(form, kind) || asked.is_met(kind)),
    }
}

/// Whether there are as many arguments as parameters.
#[tactic(auto, using(crate::proofs::Members::count_exprs))]
fn are_as_many(arguments: &[Expr], parameters: &[Option<Kind>]) -> bool
    ensures { result ≡ (kinds.count (exprs arguments.now) == length parameters.now) }
{
    arguments.len() == parameters.len()
}

fn has_wrong_arity(table: &Table<'_>, form: &ExprForm) -> bool
    ensures { result ≡ kinds.has_wrong_arity table.now (expr_form form.now) }
{
    match form {
        ExprForm::Call(name, arguments) => table.is_callable(name.as_slice())
            && !are_as_many(arguments.as_slice(), table.parameters(name.as_slice())),
        _ => false,
    }
}

fn lacks_types(section: Section, form: &ExprForm) -> bool
    ensures { result ≡ parts.lacks_types section (expr_form form.now) }
{
    match (section, form) {
        (Section::Rewritten, ExprForm::Op(operation)) => operation.types.is_none(),
        _ => false,
    }
}

fn is_bad_root(asked: Asked<'_>, kind: &Option<Kind>) -> bool
    ensures { result ≡ parts.is_bad_root (asked_of asked.entry) kind.now }
{
    match (asked, kind) {
        (Asked::Root, Some(kind)) => !kind.is_row(),
        (Asked::Root, None) => true,
        _ => false,
    }
}

fn is_wrong_call(table: &Table<'_>, section: Section, form: &ExprForm) -> bool
    ensures { result ≡ parts.is_wrong_call table.now section (expr_form form.now) }
{
    match (section, form) {
        (Section::Matched, ExprForm::Call(name, _)) => table.is_rewrite(name.as_slice()),
        (_, ExprForm::Call(name, _)) => table.is_constraint(name.as_slice()),
        _ => false,
    }
}

/// The first fault so far, with those of entries whose names stand there twice.
#[tactic(auto, using(crate::proofs::Noting::noted_places))]
fn entries_noted(
    alloc: Global,
    least: Option<PatFault>,
    all: &[Entry],
) -> Result<Option<PatFault>, AllocError>
    ensures { IfOk result (λ l. l ≡ all_noted (faults Redefined (names.entries_twice [] (entries all.now))) least) }
{
    let mut least = least;
    let mut before = Words::new(alloc);
    for entry in all {
        let twice = before.put(entry.name.as_slice())?;
        least = noted_where(least, twice, PatKind::Redefined, entry.at);
    }
    Ok(least)
}

/// The first fault so far, with those of entries of this expression.
fn twice_noted(
    alloc: Global,
    least: Option<PatFault>,
    form: &ExprForm,
) -> Result<Option<PatFault>, AllocError>
    ensures { IfOk result (λ l. l ≡ all_noted (faults Redefined (names.twice_in_form (expr_form form.now))) least) }
{
    match form {
        ExprForm::Op(operation) => entries_noted(alloc, least, operation.entries.as_slice()),
        _ => Ok(least),
    }
}

/// Puts the kind of an expression behind the others, which is a root where one is asked for.
fn push_kind(walk: &mut Walk<'_>, asked: Asked<'_>, kind: Option<Kind>) -> Result<(), AllocError>
    ensures { OnOk result (walk.new ≡ record walk.old {
      kinds = walk.old.kinds ++ unwrap_or kind Call ∷ [];
      roots = walk.old.roots ++ numbers_of (length walk.old.kinds) (is_root (asked_of asked.entry) ∷ []);
    }) }
{
    if matches!(asked, Asked::Root) {
        let number = walk.kinds.len();
        walk.roots.push(number)?;
    }
    walk.kinds.push(kind.unwrap_or(Kind::Call))?;
    Ok(())
}

/// The first fault so far, with those of an expression of this kind at its place.
#[tactic(auto, unfolding(crate::specs::Walk::faults_at), using(crate::proofs::Noting::noted_both))]
fn use_noted(
    alloc: Global,
    table: &Table<'_>,
    walk: &Walk<'_>,
    section: Section,
    asked: Asked<'_>,
    at: usize,
    form: &ExprForm,
    kind: &Option<Kind>,
) -> Result<Option<PatFault>, AllocError>
    requires { kind.now ≡ kind_of table.now walk.now.sight (expr_form form.now) }
    ensures { IfOk result (λ l. l ≡ all_noted (faults_at table.now (seen_of walk.now) (use_of section (asked_of asked.entry) at (expr_form form.now))) walk.now.least) }
{
    let undefined = is_undefined(table, &walk.sight, form);
    let least = noted_where(walk.least, undefined, PatKind::Undefined, at);
    let least = twice_noted(alloc, least, form)?;
    let wrong_kind = is_wrong_kind(table, asked, form, kind);
    let least = noted_where(least, wrong_kind, PatKind::WrongKind, at);
    let wrong_arity = has_wrong_arity(table, form);
    let least = noted_where(least, wrong_arity, PatKind::WrongArity, at);
    let least = literal_noted(alloc, least, form)?;
    let lacks_types = lacks_types(section, form);
    let least = noted_where(least, lacks_types, PatKind::NoResultTypes, at);
    let bad_root = is_bad_root(asked, kind);
    let least = noted_where(least, bad_root, PatKind::BadRoot, at);
    let wrong_call = is_wrong_call(table, section, form);
    Ok(noted_where(least, wrong_call, PatKind::WrongPart, at))
}

/// Uses an expression without numbers behind it.
#[tactic(auto, unfolding(crate::specs::Walk::step, crate::specs::Sight::sight_behind, crate::specs::Sight::words_behind))]
pub fn use_form(
    alloc: Global,
    table: &Table<'_>,
    walk: &mut Walk<'_>,
    section: Section,
    asked: Asked<'_>,
    at: usize,
    form: &ExprForm,
) -> Result<(), AllocError>
    ensures { OnOk result (walk.new ≡ step table.now (use_of section (asked_of asked.entry) at (expr_form form.now)) walk.old) }
{
    let kind = kind_of_form(alloc, table, &walk.sight, form)?;
    let least = use_noted(alloc, table, walk, section, asked, at, form, &kind)?;
    push_kind(walk, asked, kind)?;
    walk.least = least;
    Ok(())
}

/// Whether the place asks for something else than an expression with a number behind it, which is of this kind.
fn is_wrong_member(asked: Asked<'_>, kind: &Option<Kind>) -> bool
    ensures { result ≡ kinds.is_wrong_kind [] (asked_of asked.entry) (member_expr (expr 0 (name_expr [])) 0) kind.now }
{
    match asked {
        Asked::ConstraintCall => true,
        _ => !asked.is_met(kind),
    }
}

/// Uses an expression with a number behind it: a value.
#[tactic(auto, unfolding(crate::specs::Walk::step, crate::specs::Walk::faults_at, crate::specs::Sight::sight_behind, crate::specs::Sight::words_behind), using(crate::proofs::Noting::noted_both))]
fn use_member(walk: &mut Walk<'_>, asked: Asked<'_>, at: usize) -> Result<(), AllocError>
    ensures { OnOk result (walk.new ≡ step [] (member_use (asked_of asked.entry) at) walk.old) }
{
    let kind = Some(Kind::Value);
    let wrong_kind = is_wrong_member(asked, &kind);
    let bad_root = is_bad_root(asked, &kind);
    push_kind(walk, asked, kind)?;
    walk.least = noted_where(walk.least, wrong_kind, PatKind::WrongKind, at);
    walk.least = noted_where(walk.least, bad_root, PatKind::BadRoot, at);
    Ok(())
}

/// Uses an expression with these numbers behind it, the longest part first. What is asked of what stands before them
/// comes back.
pub fn use_members<'a>(
    walk: &mut Walk<'_>,
    asked: Asked<'a>,
    at: usize,
    members: &[u16],
) -> Result<Asked<'a>, AllocError>
    ensures walked { OnOk result (walk.new ≡ members_walked (asked_of asked.entry) at (length members.now) walk.old) }
    ensures asked { IfOk result (λ a. asked_of a ≡ asked_after (asked_of asked.entry) (length members.now)) }
{
    let mut asked = asked;
    for _member in members {
        use_member(walk, asked, at)?;
        asked = Asked::Operation;
    }
    Ok(asked)
}

/// The first fault so far, with second ranges in a list of result types of a match.
#[tactic(auto, using(crate::proofs::Noting::noted_places))]
fn ranges_noted(
    alloc: Global,
    table: &Table<'_>,
    walk: &Walk<'_>,
    all: &[Expr],
) -> Result<Option<PatFault>, AllocError>
    ensures { IfOk result (λ l. l ≡ all_noted (faults TwoRanges (kinds.ranges_behind table.now walk.now.sight false (exprs all.now))) walk.now.least) }
{
    let mut least = walk.least;
    let mut one = false;
    for x in all {
        let range = match kind_of_expr(alloc, table, &walk.sight, x)? {
            Some(kind) => kind.is_range(),
            None => false,
        };
        least = noted_where(least, one && range, PatKind::TwoRanges, x.at);
        one = one || range;
    }
    Ok(least)
}

/// Looks at operands, or result types, behind them.
#[tactic(auto, unfolding(crate::specs::Walk::step, crate::specs::Walk::faults_at, crate::specs::Sight::sight_behind, crate::specs::Sight::words_behind))]
pub fn use_list(
    alloc: Global,
    table: &Table<'_>,
    walk: &mut Walk<'_>,
    section: Section,
    asked: Asked<'_>,
    all: &[Expr],
) -> Result<(), AllocError>
    ensures { OnOk result (walk.new ≡ step table.now (listed section (asked_of asked.entry) (exprs all.now)) walk.old) }
{
    if let (Section::Matched, Asked::ResultType) = (section, asked) {
        walk.least = ranges_noted(alloc, table, walk, all)?;
    }
    Ok(())
}
