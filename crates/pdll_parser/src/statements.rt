//! Statements.

ghost use Rattle.std.specs.Prelude.{◌≡◌, List, ℕ};
ghost use Rattle.pdll_syntax.specs.StmtView.{stmt_form};
ghost use Rattle.pdll_parser.specs.Input.{Reads, all_up_to};
ghost use Rattle.pdll_parser.specs.Reader.{ReadsAs};
ghost use Rattle.pdll_parser.specs.Expressions.{room_of};
ghost use Rattle.pdll_parser.specs.Statements as spec;
ghost use Rattle.pdll_parser.specs.declared.terminal.Terminal.TheVariants.{RightBrace};

use crate::expressions::{arguments, expression, maybe_value, references};
use crate::reader::Reader;
use crate::terminal::Terminal;
use mlir_tree::refusal::Refusal;
use pdll_syntax::expr::Ref;
use pdll_syntax::fault::PatFault;
use pdll_syntax::name::Name;
use pdll_syntax::stmt::{Stmt, StmtForm, Values};
use shared_text::SharedText;
use sqlite_items::Items;
use std::alloc::Global;

/// A name with its place.
#[tactic(auto, unfolding(crate::specs::Statements::declared_name))]
pub fn declared_name(alloc: Global, reader: &mut Reader<'_>) -> Result<Name, Refusal<PatFault>>
    ensures { Reads (spec.declared_name reader.old) result reader.new }
{
    let at = reader.start();
    let text = SharedText::from_slice(alloc, reader.name()?)?;
    Ok(Name { at, text })
}

/// `: refs`, where they are written.
#[tactic(auto, unfolding(crate::specs::Statements::maybe_references))]
fn maybe_references(
    alloc: Global,
    reader: &mut Reader<'_>,
    depth: usize,
) -> Result<Items<Ref>, Refusal<PatFault>>
    ensures { Reads (spec.maybe_references (room_of depth) reader.old) result reader.new }
{
    if !reader.eat(Terminal::Colon) {
        return Ok(Items::new(alloc));
    }
    references(alloc, reader, depth)
}

/// An expression, or a list in parentheses.
#[tactic(auto, unfolding(crate::specs::Statements::new_values))]
fn new_values(
    alloc: Global,
    reader: &mut Reader<'_>,
    depth: usize,
) -> Result<Values, Refusal<PatFault>>
    ensures { Reads (spec.new_values (room_of depth) (spec.inside_of depth) reader.old) result reader.new }
{
    match reader.peek() {
        Terminal::LeftParen => Ok(Values::Several(arguments(alloc, reader, depth)?)),
        _ => Ok(Values::One(expression(alloc, reader, depth)?)),
    }
}

/// What stands behind `let`.
#[tactic(auto, unfolding(crate::specs::Statements::a_let))]
fn let_form(
    alloc: Global,
    reader: &mut Reader<'_>,
    depth: usize,
) -> Result<StmtForm, Refusal<PatFault>>
    ensures { ReadsAs stmt_form (spec.a_let (room_of depth) (spec.inside_of depth) reader.old) result reader.new }
{
    let name = declared_name(alloc, reader)?;
    let written = maybe_references(alloc, reader, depth)?;
    let value = maybe_value(alloc, reader, depth)?;
    Ok(StmtForm::Let(name, written, value))
}

/// What stands behind `replace`.
#[tactic(auto, unfolding(crate::specs::Statements::a_replace))]
fn replace_form(
    alloc: Global,
    reader: &mut Reader<'_>,
    depth: usize,
) -> Result<StmtForm, Refusal<PatFault>>
    ensures { ReadsAs stmt_form (spec.a_replace (room_of depth) (spec.inside_of depth) reader.old) result reader.new }
{
    let root = expression(alloc, reader, depth)?;
    reader.expect(Terminal::With)?;
    let values = new_values(alloc, reader, depth)?;
    Ok(StmtForm::Replace(root, values))
}

/// Statements up to `}`.
#[cycle(statement)]
#[tactic(auto, unfolding(crate::specs::Input::many, crate::specs::Input::refuse))]
fn statements(
    alloc: Global,
    reader: &mut Reader<'_>,
    depth: usize,
) -> Result<Items<Stmt>, Refusal<PatFault>>
    ensures { Reads (all_up_to RightBrace (λ before. spec.statement depth) reader.old) result reader.new }
{
    let mut found = Items::new(alloc);
    for _turn in 0..reader.left() {
        if reader.sees(Terminal::RightBrace) {
            return Ok(found);
        }
        found.push(statement(alloc, reader, depth)?)?;
    }
    if !reader.sees(Terminal::RightBrace) {
        return Err(reader.refuse());
    }
    Ok(found)
}

/// Statements in braces, and the place of the closing one.
#[cycle(statement)]
#[tactic(auto, using(crate::proofs::Rules::braces_is))]
pub fn braces(
    alloc: Global,
    reader: &mut Reader<'_>,
    depth: usize,
) -> Result<(Items<Stmt>, usize), Refusal<PatFault>>
    ensures { Reads (spec.braces (spec.inside_of depth) reader.old) result reader.new }
{
    reader.opening(Terminal::LeftBrace, depth)?;
    let found = statements(alloc, reader, depth - 1)?;
    let at = reader.start();
    reader.expect(Terminal::RightBrace)?;
    Ok((found, at))
}

/// What stands behind `rewrite`.
#[cycle(statement)]
#[tactic(auto, unfolding(crate::specs::Statements::a_rewrite))]
fn rewrite_form(
    alloc: Global,
    reader: &mut Reader<'_>,
    depth: usize,
) -> Result<StmtForm, Refusal<PatFault>>
    ensures { ReadsAs stmt_form (spec.a_rewrite (room_of depth) (spec.inside_of depth) reader.old) result reader.new }
{
    let root = expression(alloc, reader, depth)?;
    reader.expect(Terminal::With)?;
    let (body, end) = braces(alloc, reader, depth)?;
    Ok(StmtForm::Rewrite(root, body, end))
}

#[cycle(statement)]
#[tactic(auto, unfolding(crate::specs::Statements::statement_form))]
fn statement_form(
    alloc: Global,
    reader: &mut Reader<'_>,
    depth: usize,
) -> Result<StmtForm, Refusal<PatFault>>
    ensures { ReadsAs stmt_form (spec.statement_form (room_of depth) (spec.inside_of depth) reader.old) result reader.new }
{
    match reader.peek() {
        Terminal::Let => {
            reader.take();
            let_form(alloc, reader, depth)
        }
        Terminal::Erase => {
            reader.take();
            Ok(StmtForm::Erase(expression(alloc, reader, depth)?))
        }
        Terminal::Return => {
            reader.take();
            Ok(StmtForm::Return(expression(alloc, reader, depth)?))
        }
        Terminal::Replace => {
            reader.take();
            replace_form(alloc, reader, depth)
        }
        Terminal::RewriteWith => {
            reader.take();
            rewrite_form(alloc, reader, depth)
        }
        _ => Ok(StmtForm::Plain(expression(alloc, reader, depth)?)),
    }
}

/// A statement and its `;`, where so many more brackets may be open.
#[cycle(statement)]
#[tactic(auto, using(crate::proofs::Rules::statement_is))]
pub fn statement(
    alloc: Global,
    reader: &mut Reader<'_>,
    depth: usize,
) -> Result<Stmt, Refusal<PatFault>>
    ensures { Reads (spec.statement depth reader.old) result reader.new }
{
    let at = reader.start();
    let form = statement_form(alloc, reader, depth)?;
    let found = Stmt { at, form };
    reader.expect(Terminal::Semicolon).and(Ok(found))
}
