//! Calls of constraints.

ghost use Rattle.std.specs.Prelude.{◌≡◌, map, take, IfOk};
ghost use Rattle.native_set.specs.Table.{constraint_of};
ghost use Rattle.rewrite_model.specs.MatchPart as spec;
ghost use Rattle.rewrite_model.specs.Names.{ref_name, named_together};
ghost use Rattle.rewrite_model.specs.Expanding.{param_names, call_params, ask_native, call_constraint};
ghost use Rattle.pdll_expand.specs.View.{meant_of, expr_of};
ghost use Rattle.pdll_expand.specs.Scenes.{Does, AreNames, HasExchanged};
ghost use Rattle.pdll_expand.specs.Reading.{body_read, body_called};
ghost use Rattle.pdll_expand.specs.Behind.{behind};
ghost use Rattle.pdll_expand.specs.Table.{calls_of, in_sight};

use crate::constraints::Found;
use crate::demand::Demand;
use crate::expr::Expr;
use crate::scene::{Meant, Scene};
use crate::sight::Sight;
use crate::statements::read_body;
use crate::written::ref_name;
use indexmap::IndexMap;
use native_set::native::Kind;
use native_set::table::constraint;
use pdll_syntax::expr::Ref;
use pdll_syntax::file::CallDecl;
use pdll_syntax::stmt::{Body, Param};
use sqlite_items::Items;
use std::alloc::{AllocError, Global};

/// The kinds of arguments.
fn kinds(alloc: Global, arguments: &[Meant]) -> Result<Items<Kind>, AllocError>
    ensures { IfOk result (λ ks. ks ≡ map (λ x. x.kind) arguments.now) }
{
    let mut found = Items::new(alloc);
    for x in arguments {
        found.push(x.kind)?;
    }
    Ok(found)
}

/// What arguments are.
fn terms(alloc: Global, arguments: &[Meant]) -> Result<Items<Expr>, AllocError>
    ensures { IfOk result (λ xs. xs ≡ map (λ x. x.is) arguments.now) }
{
    let mut found = Items::new(alloc);
    for x in arguments {
        found.push(x.is)?;
    }
    Ok(found)
}

/// Calls a native constraint on arguments.
fn call_native<'t>(
    alloc: Global,
    scene: &mut Scene<'t>,
    name: &[u8],
    arguments: &[Meant],
) -> Result<(), AllocError>
    ensures { Does (λ u. u) (ask_native (constraint_of name.now (map (λ x. x.kind) (map meant_of arguments.now))) (map meant_of arguments.now)) scene.old result scene.new }
{
    let kinds = kinds(alloc, arguments)?;
    match constraint(name, kinds.as_slice()) {
        None => Ok(()),
        Some(native) => scene.ask(Demand::Calls(native, terms(alloc, arguments)?)),
    }
}

/// The names of parameters, for the arguments at their places. Of equal names the first one counts.
fn named_together<'t>(
    alloc: Global,
    params: &'t [Param],
    arguments: &[Meant],
) -> Result<IndexMap<&'t [u8], Meant>, AllocError>
    ensures { IfOk result (λ names. AreNames names (named_together (param_names params.now) (map meant_of arguments.now))) }
{
    let mut names = IndexMap::new(alloc);
    let mut at = params.len();
    while at > 0 {
        at -= 1;
        if at < arguments.len() {
            names.insert(params[at].name.text.as_slice(), arguments[at])?;
        }
    }
    Ok(names)
}

/// Brings the parameters into sight, and nothing else. Gives the names that were in sight.
fn enter<'t>(
    alloc: Global,
    scene: &mut Scene<'t>,
    params: &'t [Param],
    arguments: &[Meant],
) -> Result<IndexMap<&'t [u8], Meant>, AllocError>
    ensures { IfOk result (λ outer. HasExchanged (named_together (param_names params.now) (map meant_of arguments.now)) scene.old outer scene.new) }
{
    let inner = named_together(alloc, params, arguments)?;
    Ok(scene.exchange_names(inner))
}

/// Reads what a body asks for, behind the constraints in the refs of the parameters.
#[cycle(reading)]
pub fn run_body<'t>(
    alloc: Global,
    constraints: Sight<'_, 't>,
    scene: &mut Scene<'t>,
    call: &'t CallDecl,
    arguments: &[Meant],
) -> Result<(), AllocError>
    ensures { Does (λ u. u) (body_read (in_sight constraints.entry) call.now (map meant_of arguments.now)) scene.old result scene.new }
{
    call_params(alloc, constraints, scene, call.params.as_slice(), arguments)?;
    read_body(alloc, constraints, scene, &call.body)
}

/// Reads the body of a constraint in the place of its call. Only the parameters are names there.
#[cycle(reading)]
fn call_body<'t>(
    alloc: Global,
    constraints: Sight<'_, 't>,
    scene: &mut Scene<'t>,
    call: &'t CallDecl,
    arguments: &[Meant],
) -> Result<(), AllocError>
    ensures { Does (λ u. u) (body_called (in_sight constraints.entry) call.now (map meant_of arguments.now)) scene.old result scene.new }
{
    let outer = enter(alloc, scene, call.params.as_slice(), arguments)?;
    let done = run_body(alloc, constraints, scene, call, arguments);
    scene.put_back(outer);
    done
}

/// Calls a constraint that was found. Its body is read with those before it.
#[cycle(reading)]
fn call_found<'t>(
    alloc: Global,
    constraints: Sight<'_, 't>,
    scene: &mut Scene<'t>,
    found: Found<'t>,
    arguments: &[Meant],
) -> Result<(), AllocError>
    ensures { Does (λ u. u) (call_constraint (behind (take found.entry.at (calls_of constraints.entry.constraints.now))) found.entry.call.now found.entry.call.now.body (map meant_of arguments.now)) scene.old result scene.new }
{
    if constraints.room == 0 {
        return Err(AllocError);
    }
    let before = Sight {
        constraints: constraints.constraints,
        count: found.at,
        bodies: true,
        room: constraints.room - 1,
    };
    match &found.call.body {
        Body::Absent => call_native(alloc, scene, found.call.name.text.as_slice(), arguments),
        _ => call_body(alloc, before, scene, found.call, arguments),
    }
}

/// Calls a constraint on arguments.
#[cycle(reading)]
pub fn call_constraint<'t>(
    alloc: Global,
    constraints: Sight<'_, 't>,
    scene: &mut Scene<'t>,
    name: &'t [u8],
    arguments: &[Meant],
) -> Result<(), AllocError>
    ensures { Does (λ u. u) ((in_sight constraints.entry name.now).call (map meant_of arguments.now)) scene.old result scene.new }
{
    if !constraints.bodies {
        return Ok(());
    }
    match constraints.find(name) {
        None => Ok(()),
        Some(found) => call_found(alloc, constraints, scene, found, arguments),
    }
}

/// Calls the constraint that a ref names, if it names one.
#[cycle(reading)]
fn call_named<'t>(
    alloc: Global,
    constraints: Sight<'_, 't>,
    scene: &mut Scene<'t>,
    one: &'t Ref,
    x: Meant,
) -> Result<(), AllocError>
    ensures { Does (λ u. u) (spec.call_named (in_sight constraints.entry) (meant_of x) (ref_name one.now)) scene.old result scene.new }
{
    match ref_name(one) {
        None => Ok(()),
        Some(name) => call_constraint(alloc, constraints, scene, name, &[x]),
    }
}

/// Calls each constraint among refs on what they stand beside.
#[cycle(reading)]
pub fn call_refs<'t>(
    alloc: Global,
    constraints: Sight<'_, 't>,
    scene: &mut Scene<'t>,
    all: &'t [Ref],
    x: Meant,
) -> Result<(), AllocError>
    ensures { Does (λ u. u) (spec.call_refs (in_sight constraints.entry) all.now (meant_of x)) scene.old result scene.new }
{
    for one in all {
        call_named(alloc, constraints, scene, one, x)?;
    }
    Ok(())
}

/// Calls the constraints in the refs of parameters, on the arguments at their places.
#[cycle(reading)]
pub fn call_params<'t>(
    alloc: Global,
    constraints: Sight<'_, 't>,
    scene: &mut Scene<'t>,
    params: &'t [Param],
    arguments: &[Meant],
) -> Result<(), AllocError>
    ensures { Does (λ u. u) (call_params (in_sight constraints.entry) params.now (map meant_of arguments.now)) scene.old result scene.new }
{
    let mut at = 0;
    while at < params.len() && at < arguments.len() {
        let param = &params[at];
        call_refs(
            alloc,
            constraints,
            scene,
            param.refs.as_slice(),
            arguments[at],
        )?;
        at += 1;
    }
    Ok(())
}
