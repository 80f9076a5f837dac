//! Names that come into a scope.

ghost use Rattle.std.specs.Prelude.{◌≡◌, ◌≤◌, nat_lt, length, sum_by};
ghost use Rattle.std.specs.List.{list_all};
ghost use Rattle.mlir_parse.specs.Limits.{IsOperationKept};
ghost use Rattle.mlir_resolve.specs.Scopes.{Leaves};
ghost use Rattle.mlir_resolve.specs.Resolving.{are_counted};
ghost use Rattle.mlir_resolve.specs.Walk.{put_arguments, put_names, put_results, head_of};

use crate::head::refused;
use crate::named::Named;
use crate::scope::{Refused, Scope};
use mlir_attributes::fault::ModKind;
use mlir_parse::syn::{SynArg, SynOp, SynResult};
use mlir_tree::ty::Ty;
use mlir_tree::value::Val;
use std::slice::from_ref;

/// Puts the arguments of region `g` of row `d`.
pub fn put_args<'t>(
    scope: &mut Scope<'t>,
    d: u32,
    g: u16,
    args: &'t [SynArg],
) -> Result<(), Refused>
    requires { length args.now ≤ 65535 }
    ensures { Leaves (put_arguments d g 0 args.now scope.old) result scope.new }
{
    for k in 0..args.len() {
        let arg = &args[k];
        let value = Named {
            first: Val::Arg(d, g, k as u16),
            types: from_ref(&arg.ty),
        };
        scope.put(arg.name.as_slice(), arg.at, value)?;
    }
    Ok(())
}

/// How many values the names have together.
fn value_count(results: &[SynResult]) -> u128
    ensures { result ≡ sum_by (λ r. r.count) results.now }
{
    let mut count = 0;
    for r in results {
        count += r.count as u128;
    }
    count
}

fn each_counts(results: &[SynResult]) -> bool
    ensures { result ≡ list_all (λ r. nat_lt 0 r.count) results.now }
{
    results.iter().all(|r| 0 < r.count)
}

/// Whether the names have as many values as there are types, and each has one or more.
fn is_counted(results: &[SynResult], types: &[Ty]) -> bool
    ensures { result ≡ are_counted results.now types.now }
{
    each_counts(results) && value_count(results) == types.len() as u128
}

/// Puts the names of the results of row `d`, whose types these are.
fn put_named<'t>(
    scope: &mut Scope<'t>,
    d: u32,
    results: &'t [SynResult],
    types: &'t [Ty],
) -> Result<(), Refused>
    requires counted { sum_by (λ r. r.count) results.now ≡ length types.now }
    requires few { length types.now ≤ 65535 }
    ensures { Leaves (put_names d 0 results.now types.now scope.old) result scope.new }
{
    let mut at = 0;
    let mut rest = types;
    for r in results {
        let (own, behind) = rest.split_at(r.count as usize);
        let value = Named {
            first: Val::Res(d, at),
            types: own,
        };
        scope.put(r.name.as_slice(), r.at, value)?;
        at += r.count;
        rest = behind;
    }
    Ok(())
}

/// Puts the results of row `d`.
#[tactic(auto, unfolding(crate::specs::Walk::put_results))]
pub fn put_results_of<'t>(scope: &mut Scope<'t>, d: u32, op: &'t SynOp) -> Result<(), Refused>
    requires kept { IsOperationKept op.now }
    ensures { Leaves (put_results d (head_of op.now) scope.old) result scope.new }
{
    let (results, types) = (op.results.as_slice(), op.result_types.as_slice());
    let Some(first) = results.first() else {
        return Ok(());
    };
    if !is_counted(results, types) {
        return Err(refused(ModKind::CountDiffers, first.at));
    }
    put_named(scope, d, results, types)
}
