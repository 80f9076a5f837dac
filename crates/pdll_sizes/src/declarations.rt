//! The way through declarations.

ghost use Rattle.std.specs.Prelude.{◌≡◌};
ghost use Rattle.rewrite_model.specs.Size as spec;
ghost use Rattle.pdll_sizes.specs.Capped.{capped_size};

use crate::expressions::{expr_size, ref_size, refs_size};
use crate::size::Size;
use crate::sizes::Sizes;
use crate::statements::{stmt_size, stmts_size};
use pdll_syntax::expr::Ref;
use pdll_syntax::file::{CallDecl, Decl};
use pdll_syntax::stmt::{Body, Param};

/// The size of a body. A body by `=>` is one statement.
#[tactic(auto, using(crate::proofs::Sums::sum_capped))]
fn body_size(earlier: &Sizes<'_>, body: &Body) -> Size
    ensures { result ≡ capped_size (spec.body_size (spec.sizes earlier.now) body.now) }
{
    match body {
        Body::Absent => Size::nothing(),
        Body::Braces(all, _) => stmts_size(earlier, all.as_slice()),
        Body::One(one) => stmt_size(earlier, one),
        Body::Value(x) => Size::one_statement().and(expr_size(earlier, x)),
    }
}

/// The size of the constraints of these parameters together.
fn params_size(earlier: &Sizes<'_>, params: &[Param]) -> Size
    ensures { result ≡ capped_size (spec.params_size (spec.sizes earlier.now) params.now) }
{
    let mut size = Size::nothing();
    for param in params {
        size = size.and(refs_size(earlier, param.refs.as_slice()));
    }
    size
}

/// The size of the kind of what a rewrite gives.
fn result_size(earlier: &Sizes<'_>, gives: &Option<Ref>) -> Size
    ensures { result ≡ capped_size (spec.result_size (spec.sizes earlier.now) gives.now) }
{
    match gives {
        None => Size::nothing(),
        Some(one) => ref_size(earlier, one),
    }
}

/// What stands for a call: the constraints of the parameters, and the body.
#[tactic(auto, using(crate::proofs::Sums::sum_capped))]
pub fn call_size(earlier: &Sizes<'_>, call: &CallDecl) -> Size
    ensures { result ≡ capped_size (spec.call_size (spec.sizes earlier.now) call.now) }
{
    params_size(earlier, call.params.as_slice()).and(body_size(earlier, &call.body))
}

/// The size of a declaration after expanding.
#[tactic(auto, unfolding(rewrite_model::specs::Size::expanded_size), using(crate::proofs::Sums::sum_capped))]
pub fn decl_size(earlier: &Sizes<'_>, d: &Decl) -> Size
    ensures { result ≡ capped_size (spec.expanded_size earlier.now d.now) }
{
    match d {
        Decl::Pattern(pattern) => body_size(earlier, &pattern.body),
        Decl::Constraint(call) => {
            call_size(earlier, call).and(result_size(earlier, &call.gives))
        }
        Decl::Rewrite(call) => call_size(earlier, call).and(result_size(earlier, &call.gives)),
    }
}
