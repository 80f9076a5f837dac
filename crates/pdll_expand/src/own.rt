//! What a declaration by itself asks for.

ghost use Rattle.std.specs.Prelude.{◌≡◌, List, map, IfOk, length};
ghost use Rattle.std.specs.List.{range_with_len};
ghost use Rattle.pdll_syntax.specs.declared.file.Decl.{Decl as Declaration};
ghost use Rattle.pdll_syntax.specs.declared.file.Decl.TheVariants as decl;
ghost use Rattle.rewrite_model.specs.MatchPart.{empty};
ghost use Rattle.rewrite_model.specs.Expanding.{param_variables, constraint_asks, body_statements};
ghost use Rattle.rewrite_model.specs.Own as spec;
ghost use Rattle.pdll_expand.specs.View.{meant_of};
ghost use Rattle.pdll_expand.specs.Scenes.{Does, IsOwn};
ghost use Rattle.pdll_expand.specs.Reading.{param_read};
ghost use Rattle.pdll_expand.specs.Table.{in_sight, Knows};

use crate::calls::run_body;
use crate::constraints::Constraints;
use crate::scene::{Meant, Own, Scene};
use crate::sight::Sight;
use crate::statements::read_match;
use crate::written::kind_of_refs;
use pdll_syntax::file::{CallDecl, Decl, PatternDecl};
use pdll_syntax::stmt::{Body, Param, Stmt};
use sqlite_items::Items;
use std::alloc::{AllocError, Global};
use std::slice::from_ref;

/// Reads a parameter as a variable.
fn read_param<'t>(
    constraints: Sight<'_, 't>,
    scene: &mut Scene<'t>,
    param: &'t Param,
) -> Result<Meant, AllocError>
    ensures { Does meant_of (param_read (in_sight constraints.entry) param.now) scene.old result scene.new }
{
    let written = kind_of_refs(constraints, param.refs.as_slice());
    let x = scene.new_variable(param.name.at, written.kind)?;
    scene.see_name(param.name.text.as_slice(), x)?;
    Ok(x)
}

/// Reads parameters as variables.
fn read_params<'t>(
    alloc: Global,
    constraints: Sight<'_, 't>,
    scene: &mut Scene<'t>,
    params: &'t [Param],
) -> Result<Items<Meant>, AllocError>
    ensures { Does (map meant_of) (param_variables (in_sight constraints.entry) params.now) scene.old result scene.new }
{
    let mut found = Items::new(alloc);
    for param in params {
        found.push(read_param(constraints, scene, param)?)?;
    }
    Ok(found)
}

/// Reads a constraint.
fn read_constraint<'t>(
    alloc: Global,
    constraints: Sight<'_, 't>,
    scene: &mut Scene<'t>,
    call: &'t CallDecl,
) -> Result<(), AllocError>
    ensures { Does (λ u. u) (constraint_asks (in_sight constraints.entry) call.now) scene.old result scene.new }
{
    let arguments = read_params(alloc, constraints, scene, call.params.as_slice())?;
    run_body(alloc, constraints, scene, call, arguments.as_slice())
}

/// The numbers below this one.
fn numbers(alloc: Global, count: usize) -> Result<Items<usize>, AllocError>
    ensures { IfOk result (λ ns. ns ≡ range_with_len 0 count) }
{
    let mut numbers = Items::new(alloc);
    for number in 0..count {
        numbers.push(number)?;
    }
    Ok(numbers)
}

/// The statements of a pattern.
pub fn body_stmts(body: &Body) -> &[Stmt]
    ensures { result.now ≡ body_statements body.now }
{
    match body {
        Body::Braces(all, _) => all.as_slice(),
        Body::One(one) => from_ref(one),
        _ => &[],
    }
}

fn own_pattern<'t>(
    alloc: Global,
    constraints: &Constraints<'t>,
    pattern: &'t PatternDecl,
) -> Result<Own<'t>, AllocError>
    ensures { (earlier : List Declaration) → Knows constraints.now earlier → IfOk result (λ o. IsOwn o (spec.own earlier (decl.Pattern pattern.now))) }
{
    let mut scene = Scene::new(alloc);
    let root = read_match(
        alloc,
        Sight::quiet(constraints),
        &mut scene,
        body_stmts(&pattern.body),
    )?;
    let mut given = Items::new(alloc);
    given.push(root)?;
    Ok(Own { scene, given })
}

fn own_constraint<'t>(
    alloc: Global,
    constraints: &Constraints<'t>,
    call: &'t CallDecl,
) -> Result<Own<'t>, AllocError>
    ensures { (earlier : List Declaration) → Knows constraints.now earlier → IfOk result (λ o. IsOwn o (spec.own earlier (decl.Constraint call.now))) }
{
    let mut scene = Scene::new(alloc);
    read_constraint(alloc, Sight::quiet(constraints), &mut scene, call)?;
    let given = numbers(alloc, call.params.len())?;
    Ok(Own { scene, given })
}

/// What a declaration by itself asks for, behind these constraints. A call asks for nothing.
pub fn own<'t>(
    alloc: Global,
    constraints: &Constraints<'t>,
    d: &'t Decl,
) -> Result<Own<'t>, AllocError>
    ensures exact { (earlier : List Declaration) → Knows constraints.now earlier → IfOk result (λ o. IsOwn o (spec.own earlier d.now)) }
{
    match d {
        Decl::Pattern(pattern) => own_pattern(alloc, constraints, pattern),
        Decl::Constraint(call) => own_constraint(alloc, constraints, call),
        Decl::Rewrite(_) => Ok(Own {
            scene: Scene::new(alloc),
            given: Items::new(alloc),
        }),
    }
}
