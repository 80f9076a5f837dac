//! The way through the expressions and statements of a rewrite, and through the bodies that they call.

ghost use Rattle.std.specs.Prelude.{◌≡◌, ◌∷◌, [], map, option_map, IfOk};
ghost use Rattle.pdll_syntax.specs.ExprTree.{exprs, entries, maybe_expr, maybe_exprs};
ghost use Rattle.pdll_syntax.specs.ExprView.{expr_form};
ghost use Rattle.pdll_syntax.specs.StmtView.{stmt_form};
ghost use Rattle.rewrite_model.specs.RewritePart as spec;
ghost use Rattle.rewrite_model.specs.Expanding.{call_rewrite};
ghost use Rattle.pdll_patterns.specs.declared.names.Names.{Names as NamesNode};
ghost use Rattle.pdll_patterns.specs.View.{part_of, meant_part_of, named_part_of, parts_of};
ghost use Rattle.pdll_patterns.specs.Scripts.{Does};
ghost use Rattle.pdll_patterns.specs.InSight.{Means};
ghost use Rattle.pdll_patterns.specs.Evaluating as part;

use crate::action::{Action, Making, NamedPart, Part, Parts};
use crate::in_sight::InSight;
use crate::names::{MeantPart, Names};
use crate::natives::make_native;
use crate::script::Script;
use mlir_tree::attr::Attr;
use native_set::native::Kind;
use pdll_expand::literals::{literal_attr, literal_type};
use pdll_syntax::expr::{Entry, Expr, ExprForm, OpExpr};
use pdll_syntax::file::CallDecl;
use pdll_syntax::stmt::{Body, Stmt, StmtForm, Values};
use sqlite_items::Items;
use std::alloc::{AllocError, Global};

/// Evaluates the numbers behind an operation.
fn evaluate_members<'t>(
    script: &mut Script<'t>,
    x: MeantPart,
    members: &[u16],
) -> Result<MeantPart, AllocError>
    ensures { (names : NamesNode) → Does meant_part_of (part.members_made members.now (meant_part_of x)) (names, script.old) result (names, script.new) }
{
    let mut x = x;
    for member in members {
        x = script.make(Kind::Value, Making::ResultOf(x.is, *member))?;
    }
    Ok(x)
}

/// Evaluates an expression. The operation, where there is one, is that of the `replace` directly before.
#[cycle(doing)]
pub fn evaluate<'t>(
    alloc: Global,
    rewrites: &InSight<'_, 't>,
    names: &Names<'_, 't>,
    script: &mut Script<'t>,
    x: &'t Expr,
    replaced: Option<Part>,
) -> Result<MeantPart, AllocError>
    ensures { (w : spec.Rewrites) → Means rewrites.now w → Does meant_part_of (spec.evaluated w x.now (option_map part_of replaced)) (names.now, script.old) result (names.now, script.new) }
{
    let deeper = rewrites.deeper()?;
    let first = evaluate_form(alloc, &deeper, names, script, &x.form, replaced)?;
    evaluate_members(script, first, x.members.as_slice())
}

/// Evaluates an expression without numbers behind it.
#[cycle(doing)]
fn evaluate_form<'t>(
    alloc: Global,
    rewrites: &InSight<'_, 't>,
    names: &Names<'_, 't>,
    script: &mut Script<'t>,
    form: &'t ExprForm,
    replaced: Option<Part>,
) -> Result<MeantPart, AllocError>
    ensures { (w : spec.Rewrites) → Means rewrites.now w → Does meant_part_of (spec.form_evaluated w (expr_form form.now) (option_map part_of replaced)) (names.now, script.old) result (names.now, script.new) }
{
    match form {
        ExprForm::Name(name) => Ok(names.look_up(name.as_slice())),
        ExprForm::Call(name, all) => {
            evaluate_call(
                alloc,
                rewrites,
                names,
                script,
                name.as_slice(),
                all.as_slice(),
            )
        }
        ExprForm::Declare(_, _) => Ok(MeantPart::none()),
        ExprForm::AttrLit(literal) => {
            let value = literal_attr(alloc, literal.bytes.as_slice())?;
            script.make(Kind::Attr, Making::AttrLiteral(value))
        }
        ExprForm::TyLit(literal) => {
            let ty = literal_type(alloc, literal.bytes.as_slice())?;
            script.make(Kind::Ty, Making::TypeLiteral(ty))
        }
        ExprForm::Op(operation) => {
            evaluate_operation(alloc, rewrites, names, script, operation, replaced)
        }
    }
}

/// Evaluates the arguments of a call, and calls the rewrite on them.
#[cycle(doing)]
fn evaluate_call<'t>(
    alloc: Global,
    rewrites: &InSight<'_, 't>,
    names: &Names<'_, 't>,
    script: &mut Script<'t>,
    name: &'t [u8],
    all: &'t [Expr],
) -> Result<MeantPart, AllocError>
    ensures { (w : spec.Rewrites) → Means rewrites.now w → Does meant_part_of (part.call_evaluated w name.now (exprs all.now)) (names.now, script.old) result (names.now, script.new) }
{
    let arguments = evaluate_all(alloc, rewrites, names, script, all)?;
    call(alloc, rewrites, script, name, arguments.as_slice())
}

/// Evaluates the arguments of a call.
#[cycle(doing)]
fn evaluate_all<'t>(
    alloc: Global,
    rewrites: &InSight<'_, 't>,
    names: &Names<'_, 't>,
    script: &mut Script<'t>,
    all: &'t [Expr],
) -> Result<Items<MeantPart>, AllocError>
    ensures { (w : spec.Rewrites) → Means rewrites.now w → Does (map meant_part_of) (spec.all_evaluated w (exprs all.now)) (names.now, script.old) result (names.now, script.new) }
{
    let mut found = Items::new(alloc);
    for argument in all {
        found.push(evaluate(alloc, rewrites, names, script, argument, None)?)?;
    }
    Ok(found)
}

/// Evaluates an operation expression: its parts come before it.
#[cycle(doing)]
fn evaluate_operation<'t>(
    alloc: Global,
    rewrites: &InSight<'_, 't>,
    names: &Names<'_, 't>,
    script: &mut Script<'t>,
    operation: &'t OpExpr,
    replaced: Option<Part>,
) -> Result<MeantPart, AllocError>
    ensures { (w : spec.Rewrites) → Means rewrites.now w → Does meant_part_of (spec.operation_evaluated w operation.now (option_map part_of replaced)) (names.now, script.old) result (names.now, script.new) }
{
    let parts = evaluate_parts(alloc, rewrites, names, script, operation, replaced)?;
    script.make(
        Kind::Op,
        Making::NewOperation(operation.name.as_slice(), parts),
    )
}

/// Evaluates the parts of an operation expression: operands, attributes and types.
#[cycle(doing)]
fn evaluate_parts<'t>(
    alloc: Global,
    rewrites: &InSight<'_, 't>,
    names: &Names<'_, 't>,
    script: &mut Script<'t>,
    operation: &'t OpExpr,
    replaced: Option<Part>,
) -> Result<Parts<'t>, AllocError>
    ensures { (w : spec.Rewrites) → Means rewrites.now w → Does parts_of (part.parts_made w operation.now (option_map part_of replaced)) (names.now, script.old) result (names.now, script.new) }
{
    let operands = evaluate_operands(alloc, rewrites, names, script, &operation.operands)?;
    let entries = evaluate_entries(alloc, rewrites, names, script, operation.entries.as_slice())?;
    let types = evaluate_types(alloc, rewrites, names, script, &operation.types, replaced)?;
    Ok(Parts {
        operands,
        entries,
        types,
    })
}

/// Evaluates operands. Left-out ones are none.
#[cycle(doing)]
fn evaluate_operands<'t>(
    alloc: Global,
    rewrites: &InSight<'_, 't>,
    names: &Names<'_, 't>,
    script: &mut Script<'t>,
    all: &'t Option<Items<Expr>>,
) -> Result<Items<Part>, AllocError>
    ensures { (w : spec.Rewrites) → Means rewrites.now w → Does (map part_of) (spec.operands_evaluated w (maybe_exprs all.now)) (names.now, script.old) result (names.now, script.new) }
{
    match all {
        None => Ok(Items::new(alloc)),
        Some(all) => evaluate_operand_list(alloc, rewrites, names, script, all.as_slice()),
    }
}

#[cycle(doing)]
fn evaluate_operand_list<'t>(
    alloc: Global,
    rewrites: &InSight<'_, 't>,
    names: &Names<'_, 't>,
    script: &mut Script<'t>,
    all: &'t [Expr],
) -> Result<Items<Part>, AllocError>
    ensures { (w : spec.Rewrites) → Means rewrites.now w → Does (map part_of) (spec.operand_list w (exprs all.now)) (names.now, script.old) result (names.now, script.new) }
{
    let mut found = Items::new(alloc);
    for x in all {
        found.push(evaluate_operand(alloc, rewrites, names, script, x)?)?;
    }
    Ok(found)
}

#[cycle(doing)]
fn evaluate_operand<'t>(
    alloc: Global,
    rewrites: &InSight<'_, 't>,
    names: &Names<'_, 't>,
    script: &mut Script<'t>,
    x: &'t Expr,
) -> Result<Part, AllocError>
    ensures { (w : spec.Rewrites) → Means rewrites.now w → Does part_of (part.operand_made w x.now) (names.now, script.old) result (names.now, script.new) }
{
    let value = evaluate(alloc, rewrites, names, script, x, None)?;
    script.operand(value)
}

/// Evaluates types. Left-out ones are those of the operation that is replaced.
#[cycle(doing)]
fn evaluate_types<'t>(
    alloc: Global,
    rewrites: &InSight<'_, 't>,
    names: &Names<'_, 't>,
    script: &mut Script<'t>,
    all: &'t Option<Items<Expr>>,
    replaced: Option<Part>,
) -> Result<Items<Part>, AllocError>
    ensures { (w : spec.Rewrites) → Means rewrites.now w → Does (map part_of) (spec.types_evaluated w (maybe_exprs all.now) (option_map part_of replaced)) (names.now, script.old) result (names.now, script.new) }
{
    match all {
        None => script.replaced_types(alloc, replaced),
        Some(all) => evaluate_type_list(alloc, rewrites, names, script, all.as_slice()),
    }
}

#[cycle(doing)]
fn evaluate_type_list<'t>(
    alloc: Global,
    rewrites: &InSight<'_, 't>,
    names: &Names<'_, 't>,
    script: &mut Script<'t>,
    all: &'t [Expr],
) -> Result<Items<Part>, AllocError>
    ensures { (w : spec.Rewrites) → Means rewrites.now w → Does (map part_of) (spec.type_list w (exprs all.now)) (names.now, script.old) result (names.now, script.new) }
{
    let mut found = Items::new(alloc);
    for x in all {
        let ty = evaluate(alloc, rewrites, names, script, x, None)?;
        found.push(ty.is)?;
    }
    Ok(found)
}

#[cycle(doing)]
fn evaluate_entries<'t>(
    alloc: Global,
    rewrites: &InSight<'_, 't>,
    names: &Names<'_, 't>,
    script: &mut Script<'t>,
    all: &'t [Entry],
) -> Result<Items<NamedPart<'t>>, AllocError>
    ensures { (w : spec.Rewrites) → Means rewrites.now w → Does (map named_part_of) (spec.entries_evaluated w (entries all.now)) (names.now, script.old) result (names.now, script.new) }
{
    let mut found = Items::new(alloc);
    for entry in all {
        found.push(evaluate_entry(alloc, rewrites, names, script, entry)?)?;
    }
    Ok(found)
}

#[cycle(doing)]
fn evaluate_entry<'t>(
    alloc: Global,
    rewrites: &InSight<'_, 't>,
    names: &Names<'_, 't>,
    script: &mut Script<'t>,
    entry: &'t Entry,
) -> Result<NamedPart<'t>, AllocError>
    ensures { (w : spec.Rewrites) → Means rewrites.now w → Does named_part_of (spec.entry_evaluated w entry.now) (names.now, script.old) result (names.now, script.new) }
{
    let part = evaluate_value(alloc, rewrites, names, script, &entry.value)?;
    Ok(NamedPart {
        name: entry.name.as_slice(),
        part,
    })
}

/// Evaluates the value of an entry. One without a value is unit.
#[cycle(doing)]
fn evaluate_value<'t>(
    alloc: Global,
    rewrites: &InSight<'_, 't>,
    names: &Names<'_, 't>,
    script: &mut Script<'t>,
    value: &'t Option<Expr>,
) -> Result<Part, AllocError>
    ensures { (w : spec.Rewrites) → Means rewrites.now w → Does part_of (spec.value_evaluated w (maybe_expr value.now)) (names.now, script.old) result (names.now, script.new) }
{
    let x = match value {
        None => script.make(Kind::Attr, Making::AttrLiteral(Attr::unit()))?,
        Some(x) => evaluate(alloc, rewrites, names, script, x, None)?,
    };
    Ok(x.is)
}

/// Calls a rewrite on arguments that are evaluated.
#[cycle(doing)]
fn call<'t>(
    alloc: Global,
    rewrites: &InSight<'_, 't>,
    script: &mut Script<'t>,
    name: &'t [u8],
    arguments: &[MeantPart],
) -> Result<MeantPart, AllocError>
    ensures { (w : spec.Rewrites) → Means rewrites.now w → (names : NamesNode) → Does meant_part_of (part.call_made w name.now (map meant_part_of arguments.now)) (names, script.old) result (names, script.new) }
{
    match rewrites.find(name) {
        None => Ok(MeantPart::none()),
        Some(found) => run(alloc, &found.before, script, found.call, arguments),
    }
}

/// Runs the body of a rewrite. One without a body is native.
#[cycle(doing)]
fn run<'t>(
    alloc: Global,
    rewrites: &InSight<'_, 't>,
    script: &mut Script<'t>,
    call: &'t CallDecl,
    arguments: &[MeantPart],
) -> Result<MeantPart, AllocError>
    ensures { (w : spec.Rewrites) → Means rewrites.now w → (names : NamesNode) → Does meant_part_of (call_rewrite w call.now call.now.body (map meant_part_of arguments.now)) (names, script.old) result (names, script.new) }
{
    match &call.body {
        Body::Absent => make_native(alloc, script, call, arguments),
        Body::Braces(all, _) => {
            run_stmts(alloc, rewrites, script, call, arguments, all.as_slice())
        }
        Body::One(_) => Ok(MeantPart::none()),
        Body::Value(x) => run_value(alloc, rewrites, script, call, arguments, x),
    }
}

/// Evaluates the expression that is the body of a rewrite. Only the parameters are in sight.
#[cycle(doing)]
fn run_value<'t>(
    alloc: Global,
    rewrites: &InSight<'_, 't>,
    script: &mut Script<'t>,
    call: &'t CallDecl,
    arguments: &[MeantPart],
    x: &'t Expr,
) -> Result<MeantPart, AllocError>
    ensures { (w : spec.Rewrites) → Means rewrites.now w → (names : NamesNode) → Does meant_part_of (part.value_run w call.now (map meant_part_of arguments.now) x.now) (names, script.old) result (names, script.new) }
{
    let names = Names::of_params(alloc, call.params.as_slice(), arguments)?;
    evaluate(alloc, rewrites, &names, script, x, None)
}

/// Does the statements of a body of a rewrite. Only the parameters, and what the body names, are in sight.
#[cycle(doing)]
fn run_stmts<'t>(
    alloc: Global,
    rewrites: &InSight<'_, 't>,
    script: &mut Script<'t>,
    call: &'t CallDecl,
    arguments: &[MeantPart],
    all: &'t [Stmt],
) -> Result<MeantPart, AllocError>
    ensures { (w : spec.Rewrites) → Means rewrites.now w → (names : NamesNode) → Does meant_part_of (part.statements_run w call.now (map meant_part_of arguments.now) all.now) (names, script.old) result (names, script.new) }
{
    let mut names = Names::of_params(alloc, call.params.as_slice(), arguments)?;
    do_stmts(alloc, rewrites, &mut names, script, all)
}

/// Does statements in order. What the last one gives is given.
#[cycle(doing)]
pub fn do_stmts<'t>(
    alloc: Global,
    rewrites: &InSight<'_, 't>,
    names: &mut Names<'_, 't>,
    script: &mut Script<'t>,
    all: &'t [Stmt],
) -> Result<MeantPart, AllocError>
    ensures { (w : spec.Rewrites) → Means rewrites.now w → Does meant_part_of (spec.all_done w all.now) (names.old, script.old) result (names.new, script.new) }
{
    let mut given = MeantPart::none();
    for one in all {
        given = do_stmt(alloc, rewrites, names, script, one)?;
    }
    Ok(given)
}

#[cycle(doing)]
fn do_stmt<'t>(
    alloc: Global,
    rewrites: &InSight<'_, 't>,
    names: &mut Names<'_, 't>,
    script: &mut Script<'t>,
    one: &'t Stmt,
) -> Result<MeantPart, AllocError>
    ensures { (w : spec.Rewrites) → Means rewrites.now w → Does meant_part_of (spec.done w one.now) (names.old, script.old) result (names.new, script.new) }
{
    do_form(alloc, rewrites, names, script, &one.form)
}

#[cycle(doing)]
fn do_form<'t>(
    alloc: Global,
    rewrites: &InSight<'_, 't>,
    names: &mut Names<'_, 't>,
    script: &mut Script<'t>,
    form: &'t StmtForm,
) -> Result<MeantPart, AllocError>
    ensures { (w : spec.Rewrites) → Means rewrites.now w → Does meant_part_of (spec.form_done w (stmt_form form.now)) (names.old, script.old) result (names.new, script.new) }
{
    match form {
        StmtForm::Let(name, _, value) => {
            do_let(alloc, rewrites, names, script, name.text.as_slice(), value)
        }
        StmtForm::Erase(x) => do_erase(alloc, rewrites, names, script, x),
        StmtForm::Replace(x, values) => do_replace(alloc, rewrites, names, script, x, values),
        StmtForm::Return(x) => evaluate(alloc, rewrites, names, script, x, None),
        StmtForm::Plain(x) => do_plain(alloc, rewrites, names, script, x),
        StmtForm::Rewrite(_, _, _) => Ok(MeantPart::none()),
    }
}

#[cycle(doing)]
fn do_let<'t>(
    alloc: Global,
    rewrites: &InSight<'_, 't>,
    names: &mut Names<'_, 't>,
    script: &mut Script<'t>,
    name: &'t [u8],
    value: &'t Option<Expr>,
) -> Result<MeantPart, AllocError>
    ensures { (w : spec.Rewrites) → Means rewrites.now w → Does meant_part_of (part.let_done w name.now value.now) (names.old, script.old) result (names.new, script.new) }
{
    if let Some(x) = value {
        let x = evaluate(alloc, rewrites, names, script, x, None)?;
        names.see(name, x)?;
    }
    Ok(MeantPart::none())
}

#[cycle(doing)]
fn do_erase<'t>(
    alloc: Global,
    rewrites: &InSight<'_, 't>,
    names: &Names<'_, 't>,
    script: &mut Script<'t>,
    x: &'t Expr,
) -> Result<MeantPart, AllocError>
    ensures { (w : spec.Rewrites) → Means rewrites.now w → Does meant_part_of (part.erased w x.now) (names.now, script.old) result (names.now, script.new) }
{
    let x = evaluate(alloc, rewrites, names, script, x, None)?;
    script.act(Action::Erases(x.is))?;
    Ok(MeantPart::none())
}

#[cycle(doing)]
fn do_plain<'t>(
    alloc: Global,
    rewrites: &InSight<'_, 't>,
    names: &Names<'_, 't>,
    script: &mut Script<'t>,
    x: &'t Expr,
) -> Result<MeantPart, AllocError>
    ensures { (w : spec.Rewrites) → Means rewrites.now w → Does meant_part_of (part.plain_done w x.now) (names.now, script.old) result (names.now, script.new) }
{
    evaluate(alloc, rewrites, names, script, x, None)?;
    Ok(MeantPart::none())
}

#[cycle(doing)]
fn do_replace<'t>(
    alloc: Global,
    rewrites: &InSight<'_, 't>,
    names: &Names<'_, 't>,
    script: &mut Script<'t>,
    x: &'t Expr,
    values: &'t Values,
) -> Result<MeantPart, AllocError>
    ensures { (w : spec.Rewrites) → Means rewrites.now w → Does meant_part_of (part.replaced w x.now values.now) (names.now, script.old) result (names.now, script.new) }
{
    let old = evaluate(alloc, rewrites, names, script, x, None)?;
    replace_by(alloc, rewrites, names, script, old.is, values)?;
    Ok(MeantPart::none())
}

/// Replaces an operation.
#[cycle(doing)]
pub fn replace_by<'t>(
    alloc: Global,
    rewrites: &InSight<'_, 't>,
    names: &Names<'_, 't>,
    script: &mut Script<'t>,
    old: Part,
    values: &'t Values,
) -> Result<(), AllocError>
    ensures { (w : spec.Rewrites) → Means rewrites.now w → Does (λ u. u) (spec.replace_by w (part_of old) values.now) (names.now, script.old) result (names.now, script.new) }
{
    let parts = evaluate_values(alloc, rewrites, names, script, old, values)?;
    script.act(Action::Replaces(old, parts))
}

/// Evaluates what takes the place of an operation.
#[cycle(doing)]
fn evaluate_values<'t>(
    alloc: Global,
    rewrites: &InSight<'_, 't>,
    names: &Names<'_, 't>,
    script: &mut Script<'t>,
    old: Part,
    values: &'t Values,
) -> Result<Items<Part>, AllocError>
    ensures { (w : spec.Rewrites) → Means rewrites.now w → Does (map part_of) (spec.replacements w (part_of old) values.now) (names.now, script.old) result (names.now, script.new) }
{
    match values {
        Values::One(x) => {
            let part = evaluate_replacement(alloc, rewrites, names, script, x, Some(old))?;
            one_part(alloc, part)
        }
        Values::Several(all) => {
            evaluate_replacement_list(alloc, rewrites, names, script, all.as_slice())
        }
    }
}

fn one_part(alloc: Global, part: Part) -> Result<Items<Part>, AllocError>
    ensures { IfOk result (λ ps. ps ≡ part ∷ []) }
{
    let mut parts = Items::new(alloc);
    parts.push(part)?;
    Ok(parts)
}

#[cycle(doing)]
fn evaluate_replacement<'t>(
    alloc: Global,
    rewrites: &InSight<'_, 't>,
    names: &Names<'_, 't>,
    script: &mut Script<'t>,
    x: &'t Expr,
    replaced: Option<Part>,
) -> Result<Part, AllocError>
    ensures { (w : spec.Rewrites) → Means rewrites.now w → Does part_of (spec.replacement w (option_map part_of replaced) x.now) (names.now, script.old) result (names.now, script.new) }
{
    let value = evaluate(alloc, rewrites, names, script, x, replaced)?;
    script.replacement(value)
}

#[cycle(doing)]
fn evaluate_replacement_list<'t>(
    alloc: Global,
    rewrites: &InSight<'_, 't>,
    names: &Names<'_, 't>,
    script: &mut Script<'t>,
    all: &'t [Expr],
) -> Result<Items<Part>, AllocError>
    ensures { (w : spec.Rewrites) → Means rewrites.now w → Does (map part_of) (spec.replacement_list w all.now) (names.now, script.old) result (names.now, script.new) }
{
    let mut found = Items::new(alloc);
    for x in all {
        found.push(evaluate_replacement(alloc, rewrites, names, script, x, None)?)?;
    }
    Ok(found)
}
