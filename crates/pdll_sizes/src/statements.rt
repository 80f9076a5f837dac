//! The way through statements.

ghost use Rattle.std.specs.Prelude.{◌≡◌, Option};
ghost use Rattle.pdll_syntax.specs.StmtTree.{stmts};
ghost use Rattle.pdll_syntax.specs.StmtView.{stmt_form};
ghost use Rattle.rewrite_model.specs.Size as spec;
ghost use Rattle.pdll_sizes.specs.Capped.{capped_size};

use crate::expressions::{expr_size, exprs_size, refs_size};
use crate::size::Size;
use crate::sizes::Sizes;
use pdll_syntax::expr::Expr;
use pdll_syntax::stmt::{Stmt, StmtForm, Values};

/// The size of what takes the place of a replaced operation.
fn values_size(earlier: &Sizes<'_>, values: &Values) -> Size
    ensures { result ≡ capped_size (spec.values_size (spec.sizes earlier.now) values.now) }
{
    match values {
        Values::One(x) => expr_size(earlier, x),
        Values::Several(all) => exprs_size(earlier, all.as_slice()),
    }
}

/// The size of the value of a variable, where it has one.
fn value_size(earlier: &Sizes<'_>, value: &Option<Expr>) -> Size
    ensures { result ≡ capped_size (spec.value_size (spec.sizes earlier.now) value.now) }
{
    match value {
        None => Size::nothing(),
        Some(x) => expr_size(earlier, x),
    }
}

/// The size of a statement.
#[cycle(statements)]
#[tactic(auto, using(crate::proofs::Sums::sum_capped))]
pub fn stmt_size(earlier: &Sizes<'_>, one: &Stmt) -> Size
    ensures { result ≡ capped_size (spec.stmt_size (spec.sizes earlier.now) one.now) }
{
    Size::one_statement().and(stmt_form_size(earlier, &one.form))
}

/// What the parts of a statement add.
#[cycle(statements)]
#[tactic(auto, using(crate::proofs::Sums::sum_capped))]
fn stmt_form_size(earlier: &Sizes<'_>, form: &StmtForm) -> Size
    ensures { result ≡ capped_size (spec.stmt_form_size (spec.sizes earlier.now) (stmt_form form.now)) }
{
    match form {
        StmtForm::Let(_, refs, value) => {
            refs_size(earlier, refs.as_slice()).and(value_size(earlier, value))
        }
        StmtForm::Erase(x) => expr_size(earlier, x),
        StmtForm::Return(x) => expr_size(earlier, x),
        StmtForm::Replace(x, values) => expr_size(earlier, x).and(values_size(earlier, values)),
        StmtForm::Rewrite(x, inner, _) => {
            expr_size(earlier, x).and(stmts_size(earlier, inner.as_slice()))
        }
        StmtForm::Plain(x) => expr_size(earlier, x),
    }
}

/// The size of these statements together.
#[cycle(statements)]
pub fn stmts_size(earlier: &Sizes<'_>, all: &[Stmt]) -> Size
    ensures { result ≡ capped_size (spec.stmts_size (spec.sizes earlier.now) (stmts all.now)) }
{
    let mut size = Size::nothing();
    for one in all {
        size = size.and(stmt_size(earlier, one));
    }
    size
}
