//! Names that are looked up.

ghost use Rattle.std.specs.Prelude.{◌≡◌, ◌||◌};
ghost use Rattle.std.specs.Option.{option_map};
ghost use Rattle.mlir_parse.specs.SynTree.{operations};
ghost use Rattle.mlir_parse.specs.SynView.{region_tree};
ghost use Rattle.mlir_resolve.specs.Scopes.{named, lookup};
ghost use Rattle.mlir_resolve.specs.Walk.{meaning_in, has_result_name, has_argument_name, operation_defines, operations_define, regions_define};

use crate::named::Named;
use crate::scope::Scope;
use mlir_parse::syn::{SynArg, SynOp, SynRegion, SynResult};

/// What a name means in the innermost of these scopes that has it. The innermost one is the last.
fn find_around<'t>(outer: &[Scope<'t>], name: &[u8]) -> Option<Named<'t>>
    ensures { option_map (named name.now) result ≡ lookup outer.now name.now }
{
    let mut at = outer.len();
    while at > 0 {
        at -= 1;
        if let Some(found) = outer[at].find(name) {
            return Some(found);
        }
    }
    None
}

/// What a name means in a region inside others.
pub fn find_meaning<'t>(outer: &[Scope<'t>], scope: &Scope<'t>, name: &[u8]) -> Option<Named<'t>>
    ensures { option_map (named name.now) result ≡ meaning_in outer.now scope.now name.now }
{
    match scope.find(name) {
        Some(found) => Some(found),
        None => find_around(outer, name),
    }
}

fn has_result(results: &[SynResult], name: &[u8]) -> bool
    ensures { result ≡ has_result_name name.now results.now }
{
    results.iter().any(|r| r.name.as_slice() == name)
}

fn has_argument(args: &[SynArg], name: &[u8]) -> bool
    ensures { result ≡ has_argument_name name.now args.now }
{
    args.iter().any(|a| a.name.as_slice() == name)
}

#[cycle(defines)]
fn op_defines(op: &SynOp, name: &[u8]) -> bool
    ensures { result ≡ operation_defines name.now op.now }
{
    has_result(op.results.as_slice(), name) || regions_define(op.regions.as_slice(), name)
}

#[cycle(defines)]
fn regions_define(regions: &[SynRegion], name: &[u8]) -> bool
    ensures { result ≡ regions_define name.now (region_tree regions.now) }
{
    for region in regions {
        if region_defines(region, name) {
            return true;
        }
    }
    false
}

#[cycle(defines)]
fn region_defines(region: &SynRegion, name: &[u8]) -> bool
    ensures { result ≡ (has_argument_name name.now region.now.args || operations_define name.now (operations region.now.ops)) }
{
    has_argument(region.args.as_slice(), name) || defines(region.ops.as_slice(), name)
}

/// Whether the name is written for a value anywhere in these operations.
#[cycle(defines)]
pub fn defines(ops: &[SynOp], name: &[u8]) -> bool
    ensures { result ≡ operations_define name.now (operations ops.now) }
{
    for op in ops {
        if op_defines(op, name) {
            return true;
        }
    }
    false
}
