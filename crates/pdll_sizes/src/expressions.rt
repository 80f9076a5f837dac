//! The way through expressions and refs.

ghost use Rattle.std.specs.Prelude.{◌≡◌, length};
ghost use Rattle.pdll_syntax.specs.ExprTree.{expr, exprs, entries, refs, maybe_expr, maybe_exprs};
ghost use Rattle.pdll_syntax.specs.ExprView.{expr_form, ref_form};
ghost use Rattle.rewrite_model.specs.Size as spec;
ghost use Rattle.pdll_sizes.specs.Capped.{capped_size};
ghost use Rattle.pdll_sizes.specs.Members.{just_expressions};

use crate::size::Size;
use crate::sizes::Sizes;
use pdll_syntax::expr::{Entry, Expr, ExprForm, OpExpr, Ref, RefForm};
use sqlite_items::Items;

/// One expression for each of these numbers behind an expression.
#[tactic(auto, using(crate::proofs::Sums::sum_capped))]
fn members_size(members: &[u16]) -> Size
    ensures { result ≡ capped_size (just_expressions (length members.now)) }
{
    let mut size = Size::nothing();
    for _member in members {
        size = size.and(Size::one_expression());
    }
    size
}

/// The size of an expression.
#[cycle(expressions)]
pub fn expr_size(earlier: &Sizes<'_>, x: &Expr) -> Size
    ensures { result ≡ capped_size (spec.expr_size (spec.sizes earlier.now) x.now) }
{
    members_size(x.members.as_slice()).and(form_size(earlier, &x.form))
}

/// The size of an expression without numbers behind it.
#[cycle(expressions)]
#[tactic(auto, using(crate::proofs::Sums::sum_capped))]
fn form_size(earlier: &Sizes<'_>, form: &ExprForm) -> Size
    ensures { result ≡ capped_size (spec.form_size (spec.sizes earlier.now) (expr_form form.now)) }
{
    let one = Size::one_expression();
    match form {
        ExprForm::Name(_) => one,
        ExprForm::Call(name, arguments) => one
            .and(exprs_size(earlier, arguments.as_slice()))
            .and(earlier.of_constraint(name.as_slice()))
            .and(earlier.of_rewrite(name.as_slice())),
        ExprForm::Declare(_, refs) => one.and(refs_size(earlier, refs.as_slice())),
        ExprForm::AttrLit(_) => one,
        ExprForm::TyLit(_) => one,
        ExprForm::Op(operation) => one
            .and(Size::one_operation())
            .and(operation_size(earlier, operation)),
    }
}

/// What the lists and the entries of an operation add.
#[cycle(expressions)]
#[tactic(auto, using(crate::proofs::Sums::sum_capped))]
fn operation_size(earlier: &Sizes<'_>, operation: &OpExpr) -> Size
    ensures { result ≡ capped_size (spec.operation_size (spec.sizes earlier.now) operation.now) }
{
    list_size(earlier, &operation.operands)
        .and(entries_size(earlier, operation.entries.as_slice()))
        .and(list_size(earlier, &operation.types))
}

/// The size of operands or result types. A list that is left out is one expression.
#[cycle(expressions)]
fn list_size(earlier: &Sizes<'_>, all: &Option<Items<Expr>>) -> Size
    ensures { result ≡ capped_size (spec.list_size (spec.sizes earlier.now) (maybe_exprs all.now)) }
{
    let Some(all) = all else {
        return Size::one_expression();
    };
    exprs_size(earlier, all.as_slice())
}

/// The size of these expressions together.
#[cycle(expressions)]
pub fn exprs_size(earlier: &Sizes<'_>, all: &[Expr]) -> Size
    ensures { result ≡ capped_size (spec.exprs_size (spec.sizes earlier.now) (exprs all.now)) }
{
    let mut size = Size::nothing();
    for x in all {
        size = size.and(expr_size(earlier, x));
    }
    size
}

/// The size of these entries together.
#[cycle(expressions)]
fn entries_size(earlier: &Sizes<'_>, all: &[Entry]) -> Size
    ensures { result ≡ capped_size (spec.entries_size (spec.sizes earlier.now) (entries all.now)) }
{
    let mut size = Size::nothing();
    for entry in all {
        size = size.and(entry_size(earlier, entry));
    }
    size
}

/// The size of an entry. An entry without a value is one expression.
#[cycle(expressions)]
fn entry_size(earlier: &Sizes<'_>, entry: &Entry) -> Size
    ensures { result ≡ capped_size (spec.entry_size (spec.sizes earlier.now) entry.now) }
{
    match &entry.value {
        None => Size::one_expression(),
        Some(x) => expr_size(earlier, x),
    }
}

/// The size of these refs together.
#[cycle(expressions)]
pub fn refs_size(earlier: &Sizes<'_>, all: &[Ref]) -> Size
    ensures { result ≡ capped_size (spec.refs_size (spec.sizes earlier.now) (refs all.now)) }
{
    let mut size = Size::nothing();
    for one in all {
        size = size.and(ref_size(earlier, one));
    }
    size
}

/// The size of a ref.
#[cycle(expressions)]
pub fn ref_size(earlier: &Sizes<'_>, one: &Ref) -> Size
    ensures { result ≡ capped_size (spec.ref_size (spec.sizes earlier.now) one.now) }
{
    ref_form_size(earlier, &one.form)
}

/// The size of a ref's form. A constraint is called.
#[cycle(expressions)]
fn ref_form_size(earlier: &Sizes<'_>, form: &RefForm) -> Size
    ensures { result ≡ capped_size (spec.ref_form_size (spec.sizes earlier.now) (ref_form form.now)) }
{
    match form {
        RefForm::Attr(of) => of_size(earlier, of),
        RefForm::Op(_) => Size::nothing(),
        RefForm::Ty => Size::nothing(),
        RefForm::Tys => Size::nothing(),
        RefForm::Value(of) => of_size(earlier, of),
        RefForm::Values(of) => of_size(earlier, of),
        RefForm::Named(name) => earlier.of_constraint(name.as_slice()),
    }
}

/// The size of the type that a ref has, where there is one.
#[cycle(expressions)]
fn of_size(earlier: &Sizes<'_>, of: &Option<Expr>) -> Size
    ensures { result ≡ capped_size (spec.of_size (spec.sizes earlier.now) (maybe_expr of.now)) }
{
    match of {
        None => Size::nothing(),
        Some(x) => expr_size(earlier, x),
    }
}
