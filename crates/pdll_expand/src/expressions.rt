//! The way through expressions and refs of a match.

ghost use Rattle.std.specs.Prelude.{◌≡◌, map, option_map, None};
ghost use Rattle.pdll_syntax.specs.ExprTree.{exprs, entries, refs, maybe_expr, maybe_exprs, declare_expr};
ghost use Rattle.pdll_syntax.specs.ExprView.{expr_form, ref_form};
ghost use Rattle.rewrite_model.specs.Doing.{pure};
ghost use Rattle.rewrite_model.specs.MatchPart as spec;
ghost use Rattle.pdll_expand.specs.View.{expr_of, meant_of, named_expr_of, parts_of};
ghost use Rattle.pdll_expand.specs.Scenes.{Does};
ghost use Rattle.pdll_expand.specs.Reading.{members_read, operation_read, type_list, parts_read, left_out_read, operand_read, value_read};
ghost use Rattle.pdll_expand.specs.Table.{in_sight};

use crate::calls::call_refs;
use crate::demand::{Demand, NamedExpr, Parts};
use crate::expr::Expr as Term;
use crate::literals::{literal_attr, literal_type};
use crate::scene::{Meant, Scene};
use crate::sight::Sight;
use crate::written::{is_kind, kind_of_refs};
use mlir_tree::attr::Attr;
use native_set::native::Kind;
use pdll_syntax::expr::{Entry, Expr, ExprForm, OpExpr, Ref, RefForm};
use sqlite_items::Items;
use std::alloc::{AllocError, Global};

/// Reads the numbers behind an operation.
fn read_members<'t>(scene: &mut Scene<'t>, x: Meant, members: &[u16]) -> Result<Meant, AllocError>
    ensures { Does meant_of (members_read members.now (meant_of x)) scene.old result scene.new }
{
    let mut x = x;
    for member in members {
        x = scene.mention(Kind::Value, Term::Result(x.is.number(), *member))?;
    }
    Ok(x)
}

/// Reads a variable without a value, at this place, whose written type is this.
#[cycle(reading)]
pub fn read_variable<'t>(
    alloc: Global,
    constraints: Sight<'_, 't>,
    scene: &mut Scene<'t>,
    at: usize,
    all: &'t [Ref],
    ty: Option<Term>,
) -> Result<Meant, AllocError>
    ensures { Does meant_of (spec.variable (in_sight constraints.entry) at all.now (option_map expr_of ty)) scene.old result scene.new }
{
    let written = kind_of_refs(constraints, all);
    let x = scene.new_variable(at, written.kind)?;
    scene.ask_name(x.is, written.name)?;
    scene.ask_type(x.is, ty)?;
    call_refs(alloc, constraints, scene, all, x)?;
    Ok(x)
}

/// Reads an expression.
#[cycle(reading)]
pub fn read_expr<'t>(
    alloc: Global,
    constraints: Sight<'_, 't>,
    scene: &mut Scene<'t>,
    x: &'t Expr,
) -> Result<Meant, AllocError>
    ensures { Does meant_of (spec.expression (in_sight constraints.entry) x.now) scene.old result scene.new }
{
    if constraints.room == 0 {
        return Err(AllocError);
    }
    let inside = Sight {
        constraints: constraints.constraints,
        count: constraints.count,
        bodies: constraints.bodies,
        room: constraints.room - 1,
    };
    let first = read_form(alloc, inside, scene, &x.form, x.at)?;
    read_members(scene, first, x.members.as_slice())
}

/// Reads an expression without numbers behind it.
#[cycle(reading)]
fn read_form<'t>(
    alloc: Global,
    constraints: Sight<'_, 't>,
    scene: &mut Scene<'t>,
    form: &'t ExprForm,
    at: usize,
) -> Result<Meant, AllocError>
    ensures { Does meant_of (spec.form_at (in_sight constraints.entry) (expr_form form.now) at) scene.old result scene.new }
{
    match form {
        ExprForm::Name(name) => Ok(scene.look_up(name.as_slice())),
        ExprForm::Call(_, _) => Ok(Meant {
            kind: Kind::Value,
            is: Term::The(0),
        }),
        ExprForm::Declare(name, refs) => {
            read_declared(
                alloc,
                constraints,
                scene,
                name.as_slice(),
                refs.as_slice(),
                at,
            )
        }
        ExprForm::AttrLit(literal) => {
            let value = literal_attr(alloc, literal.bytes.as_slice())?;
            scene.new_attr(at, value)
        }
        ExprForm::TyLit(literal) => {
            let ty = literal_type(alloc, literal.bytes.as_slice())?;
            scene.new_type(at, ty)
        }
        ExprForm::Op(operation) => read_operation(alloc, constraints, scene, operation, at),
    }
}

/// Reads a variable that is declared at its place.
#[cycle(reading)]
fn read_declared<'t>(
    alloc: Global,
    constraints: Sight<'_, 't>,
    scene: &mut Scene<'t>,
    name: &'t [u8],
    all: &'t [Ref],
    at: usize,
) -> Result<Meant, AllocError>
    ensures { Does meant_of (spec.form_at (in_sight constraints.entry) (declare_expr name.now (refs all.now)) at) scene.old result scene.new }
{
    let ty = read_ref_type(alloc, constraints, scene, all)?;
    let x = read_variable(alloc, constraints, scene, at, all, ty)?;
    scene.see_name(name, x)?;
    Ok(x)
}

/// Reads an operation expression: its parts come before it.
#[cycle(reading)]
fn read_operation<'t>(
    alloc: Global,
    constraints: Sight<'_, 't>,
    scene: &mut Scene<'t>,
    operation: &'t OpExpr,
    at: usize,
) -> Result<Meant, AllocError>
    ensures { Does meant_of (spec.operation_at (in_sight constraints.entry) operation.now at) scene.old result scene.new }
{
    let parts = read_parts(alloc, constraints, scene, operation, at)?;
    new_operation(scene, operation.name.as_slice(), at, parts)
}

/// Reads the parts of an operation expression: operands, attributes and types.
#[cycle(reading)]
fn read_parts<'t>(
    alloc: Global,
    constraints: Sight<'_, 't>,
    scene: &mut Scene<'t>,
    operation: &'t OpExpr,
    at: usize,
) -> Result<Parts<'t>, AllocError>
    ensures { Does parts_of (parts_read (in_sight constraints.entry) operation.now at) scene.old result scene.new }
{
    let operands = read_operands(alloc, constraints, scene, &operation.operands, at)?;
    let entries = read_entries(alloc, constraints, scene, operation.entries.as_slice())?;
    let types = read_types(alloc, constraints, scene, &operation.types, at)?;
    Ok(Parts {
        operands,
        entries,
        types,
    })
}

/// Gives an operation of this name with these parts its number.
fn new_operation<'t>(
    scene: &mut Scene<'t>,
    name: &'t [u8],
    at: usize,
    parts: Parts<'t>,
) -> Result<Meant, AllocError>
    ensures { Does meant_of (operation_read name.now at (parts_of parts.entry)) scene.old result scene.new }
{
    let x = scene.new_number(at, Kind::Op)?;
    scene.ask(Demand::HasName(x.is.number(), name))?;
    scene.ask(Demand::HasParts(x.is.number(), parts))?;
    Ok(x)
}

/// Reads operands. Left-out ones are `_: ValueRange`.
#[cycle(reading)]
fn read_operands<'t>(
    alloc: Global,
    constraints: Sight<'_, 't>,
    scene: &mut Scene<'t>,
    all: &'t Option<Items<Expr>>,
    at: usize,
) -> Result<Items<Term>, AllocError>
    ensures { Does (map expr_of) (spec.operands_at (in_sight constraints.entry) (maybe_exprs all.now) at) scene.old result scene.new }
{
    match all {
        None => left_out(alloc, scene, Kind::Values, at),
        Some(all) => read_operand_list(alloc, constraints, scene, all.as_slice()),
    }
}

/// A list that is left out is one range.
fn left_out(
    alloc: Global,
    scene: &mut Scene<'_>,
    kind: Kind,
    at: usize,
) -> Result<Items<Term>, AllocError>
    ensures { Does (map expr_of) (left_out_read kind at) scene.old result scene.new }
{
    let x = scene.new_variable(at, kind)?;
    let mut found = Items::new(alloc);
    found.push(x.is)?;
    Ok(found)
}

#[cycle(reading)]
fn read_operand_list<'t>(
    alloc: Global,
    constraints: Sight<'_, 't>,
    scene: &mut Scene<'t>,
    all: &'t [Expr],
) -> Result<Items<Term>, AllocError>
    ensures { Does (map expr_of) (spec.operand_list (in_sight constraints.entry) (exprs all.now)) scene.old result scene.new }
{
    let mut found = Items::new(alloc);
    for x in all {
        found.push(read_operand(alloc, constraints, scene, x)?)?;
    }
    Ok(found)
}

/// Reads an operand.
#[cycle(reading)]
fn read_operand<'t>(
    alloc: Global,
    constraints: Sight<'_, 't>,
    scene: &mut Scene<'t>,
    x: &'t Expr,
) -> Result<Term, AllocError>
    ensures { Does expr_of (operand_read (in_sight constraints.entry) x.now) scene.old result scene.new }
{
    let value = read_expr(alloc, constraints, scene, x)?;
    let operand = scene.as_operand(value)?;
    Ok(operand.is)
}

/// Reads types. Left-out ones are `_: TypeRange`.
#[cycle(reading)]
fn read_types<'t>(
    alloc: Global,
    constraints: Sight<'_, 't>,
    scene: &mut Scene<'t>,
    all: &'t Option<Items<Expr>>,
    at: usize,
) -> Result<Items<Term>, AllocError>
    ensures { Does (map expr_of) (spec.types_at (in_sight constraints.entry) (maybe_exprs all.now) at) scene.old result scene.new }
{
    match all {
        None => left_out(alloc, scene, Kind::Tys, at),
        Some(all) => read_type_list(alloc, constraints, scene, all.as_slice()),
    }
}

#[cycle(reading)]
fn read_type_list<'t>(
    alloc: Global,
    constraints: Sight<'_, 't>,
    scene: &mut Scene<'t>,
    all: &'t [Expr],
) -> Result<Items<Term>, AllocError>
    ensures { Does (map expr_of) (type_list (in_sight constraints.entry) (exprs all.now)) scene.old result scene.new }
{
    let mut found = Items::new(alloc);
    for x in all {
        let ty = read_expr(alloc, constraints, scene, x)?;
        found.push(ty.is)?;
    }
    Ok(found)
}

#[cycle(reading)]
fn read_entries<'t>(
    alloc: Global,
    constraints: Sight<'_, 't>,
    scene: &mut Scene<'t>,
    all: &'t [Entry],
) -> Result<Items<NamedExpr<'t>>, AllocError>
    ensures { Does (map named_expr_of) (spec.entries_of (in_sight constraints.entry) (entries all.now)) scene.old result scene.new }
{
    let mut found = Items::new(alloc);
    for entry in all {
        found.push(read_entry(alloc, constraints, scene, entry)?)?;
    }
    Ok(found)
}

#[cycle(reading)]
fn read_entry<'t>(
    alloc: Global,
    constraints: Sight<'_, 't>,
    scene: &mut Scene<'t>,
    entry: &'t Entry,
) -> Result<NamedExpr<'t>, AllocError>
    ensures { Does named_expr_of (spec.entry_of (in_sight constraints.entry) entry.now) scene.old result scene.new }
{
    let value = read_value(alloc, constraints, scene, &entry.value, entry.at)?;
    Ok(NamedExpr {
        name: entry.name.as_slice(),
        value: value.is,
    })
}

/// Reads the value of an entry. One without a value is unit.
#[cycle(reading)]
fn read_value<'t>(
    alloc: Global,
    constraints: Sight<'_, 't>,
    scene: &mut Scene<'t>,
    value: &'t Option<Expr>,
    at: usize,
) -> Result<Meant, AllocError>
    ensures { Does meant_of (value_read (in_sight constraints.entry) (maybe_expr value.now) at) scene.old result scene.new }
{
    match value {
        None => scene.new_attr(at, Attr::unit()),
        Some(x) => read_expr(alloc, constraints, scene, x),
    }
}

/// Reads an expression, where there is one.
#[cycle(reading)]
fn read_given<'t>(
    alloc: Global,
    constraints: Sight<'_, 't>,
    scene: &mut Scene<'t>,
    x: &'t Option<Expr>,
) -> Result<Option<Term>, AllocError>
    ensures { Does (option_map expr_of) (spec.given (in_sight constraints.entry) (maybe_expr x.now)) scene.old result scene.new }
{
    match x {
        None => Ok(None),
        Some(x) => {
            let ty = read_expr(alloc, constraints, scene, x)?;
            Ok(Some(ty.is))
        }
    }
}

/// Reads the type that is written in the first ref that is a kind.
#[cycle(reading)]
pub fn read_ref_type<'t>(
    alloc: Global,
    constraints: Sight<'_, 't>,
    scene: &mut Scene<'t>,
    all: &'t [Ref],
) -> Result<Option<Term>, AllocError>
    ensures { Does (option_map expr_of) (spec.type_of_refs (in_sight constraints.entry) (refs all.now)) scene.old result scene.new }
{
    for one in all {
        if is_kind(one) {
            return read_type_in(alloc, constraints, scene, &one.form);
        }
    }
    Ok(None)
}

/// Reads the type that is written in a ref.
#[cycle(reading)]
fn read_type_in<'t>(
    alloc: Global,
    constraints: Sight<'_, 't>,
    scene: &mut Scene<'t>,
    form: &'t RefForm,
) -> Result<Option<Term>, AllocError>
    ensures { Does (option_map expr_of) (spec.type_of_form (in_sight constraints.entry) (ref_form form.now) (pure None)) scene.old result scene.new }
{
    match form {
        RefForm::Attr(ty) => read_given(alloc, constraints, scene, ty),
        RefForm::Value(ty) => read_given(alloc, constraints, scene, ty),
        RefForm::Values(ty) => read_given(alloc, constraints, scene, ty),
        _ => Ok(None),
    }
}
