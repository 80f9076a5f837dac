//! Expressions and refs.

ghost use Rattle.std.specs.Prelude.{◌≡◌, List, ℕ};
ghost use Rattle.pdll_syntax.specs.ExprTree.{expr};
ghost use Rattle.pdll_syntax.specs.ExprView.{expr_form, ref_form};
ghost use Rattle.pdll_parser.specs.Input.{Reads, items, list};
ghost use Rattle.pdll_parser.specs.Reader.{ReadsAs};
ghost use Rattle.pdll_parser.specs.Expressions as spec;
ghost use Rattle.pdll_parser.specs.declared.terminal.Terminal.TheVariants.{RightParen, RightBrace};

use crate::reader::Reader;
use crate::terminal::Terminal;
use mlir_tree::refusal::Refusal;
use pdll_syntax::expr::{Entry, Expr, ExprForm, OpExpr, Ref, RefForm};
use pdll_syntax::fault::PatFault;
use pdll_syntax::name::{Literal, Text};
use shared_text::SharedText;
use sqlite_items::Items;
use std::alloc::Global;
use text_scan::strings::read_string;

/// The number that decimal digits write, or 65,535 where it is above 65,534.
pub fn index_of(digits: &[u8]) -> u16
    ensures { result ≡ spec.index_of digits.now }
{
    let mut number: u32 = 0;
    for digit in digits {
        let next = 10 * number + u32::from(digit.saturating_sub(b'0'));
        number = if next <= 65534 { next } else { 65535 };
    }
    number as u16
}

/// The string of a literal.
#[tactic(auto, unfolding(crate::specs::Expressions::literal))]
fn literal(alloc: Global, reader: &mut Reader<'_>) -> Result<Literal, Refusal<PatFault>>
    ensures { Reads (spec.literal reader.old) result reader.new }
{
    let at = reader.start();
    let text = reader.text_of(Terminal::String)?;
    let bytes = SharedText::new(alloc, Items::from_vec(read_string(alloc, text)?))?;
    Ok(Literal { at, bytes })
}

/// Words with `.` between.
#[tactic(auto, unfolding(crate::specs::Expressions::dotted_name, crate::specs::Expressions::dotted, crate::specs::Input::refuse))]
fn dotted_name(alloc: Global, reader: &mut Reader<'_>) -> Result<Text, Refusal<PatFault>>
    ensures { Reads (spec.dotted_name reader.old) result reader.new }
{
    let mut found = Items::new(alloc);
    for _turn in 0..reader.left() {
        let mut word = Items::from_slice(alloc, reader.word()?)?;
        if !reader.eat(Terminal::Dot) {
            found.append(word)?;
            let all = SharedText::new(alloc, found)?;
            return Ok(all);
        }
        word.push(b'.')?;
        found.append(word)?;
    }
    Err(reader.refuse())
}

/// A word, or a string.
#[tactic(auto, unfolding(crate::specs::Expressions::entry_name))]
fn entry_name(alloc: Global, reader: &mut Reader<'_>) -> Result<Text, Refusal<PatFault>>
    ensures { Reads (spec.entry_name reader.old) result reader.new }
{
    match reader.peek() {
        Terminal::String => {
            let bytes = Items::from_vec(read_string(alloc, reader.take())?);
            Ok(SharedText::new(alloc, bytes)?)
        }
        _ => Ok(SharedText::from_slice(alloc, reader.word()?)?),
    }
}

/// `.` and numbers, behind an expression of this form that begins at a place.
#[tactic(auto, unfolding(crate::specs::Expressions::members, crate::specs::Input::refuse))]
fn members(
    alloc: Global,
    reader: &mut Reader<'_>,
    at: usize,
    form: ExprForm,
) -> Result<Expr, Refusal<PatFault>>
    ensures { Reads (spec.all_members at (expr at (expr_form form)) reader.old) result reader.new }
{
    let mut members = Items::new(alloc);
    for _turn in 0..reader.left() {
        if !reader.eat(Terminal::Dot) {
            return Ok(Expr { at, form, members });
        }
        members.push(index_of(reader.text_of(Terminal::Integer)?))?;
    }
    if reader.sees(Terminal::Dot) {
        return Err(reader.refuse());
    }
    Ok(Expr { at, form, members })
}

/// `<`, words with `.` between and `>`.
#[tactic(auto, using(crate::proofs::Rules::operation_name_is))]
fn operation_name(
    alloc: Global,
    reader: &mut Reader<'_>,
    depth: usize,
) -> Result<Text, Refusal<PatFault>>
    ensures { Reads (spec.operation_name (spec.room_of depth) reader.old) result reader.new }
{
    reader.opening(Terminal::Less, depth)?;
    let name = dotted_name(alloc, reader)?;
    reader.expect(Terminal::Greater).and(Ok(name))
}

#[tactic(auto, unfolding(crate::specs::Expressions::maybe_operation_name))]
fn maybe_operation_name(
    alloc: Global,
    reader: &mut Reader<'_>,
    depth: usize,
) -> Result<Option<Text>, Refusal<PatFault>>
    ensures { Reads (spec.maybe_operation_name (spec.room_of depth) reader.old) result reader.new }
{
    if !reader.sees(Terminal::Less) {
        return Ok(None);
    }
    Ok(Some(operation_name(alloc, reader, depth)?))
}

/// `<`, the string of a literal and `>`.
#[tactic(auto, using(crate::proofs::Rules::literal_in_angles_is))]
fn literal_in_angles(
    alloc: Global,
    reader: &mut Reader<'_>,
    depth: usize,
) -> Result<Literal, Refusal<PatFault>>
    ensures { Reads (spec.literal_in_angles (spec.room_of depth) reader.old) result reader.new }
{
    reader.opening(Terminal::Less, depth)?;
    let found = literal(alloc, reader)?;
    reader.expect(Terminal::Greater).and(Ok(found))
}

/// One or more expressions with commas between.
#[cycle(expression)]
#[tactic(auto, unfolding(crate::specs::Input::separated, crate::specs::Input::refuse))]
fn expression_items(
    alloc: Global,
    reader: &mut Reader<'_>,
    depth: usize,
) -> Result<Items<Expr>, Refusal<PatFault>>
    ensures { Reads (items (spec.expression (spec.room_of depth)) reader.old) result reader.new }
{
    let mut found = Items::new(alloc);
    for _turn in 0..reader.left() {
        found.push(expression(alloc, reader, depth)?)?;
        if !reader.eat(Terminal::Comma) {
            return Ok(found);
        }
    }
    Err(reader.refuse())
}

/// Expressions with commas between, up to `)`.
#[cycle(expression)]
#[tactic(auto, unfolding(crate::specs::Input::list))]
fn expression_list(
    alloc: Global,
    reader: &mut Reader<'_>,
    depth: usize,
) -> Result<Items<Expr>, Refusal<PatFault>>
    ensures { Reads (list RightParen (spec.expression (spec.room_of depth)) reader.old) result reader.new }
{
    if reader.sees(Terminal::RightParen) {
        return Ok(Items::new(alloc));
    }
    expression_items(alloc, reader, depth)
}

/// `(`, expressions and `)`.
#[cycle(expression)]
#[tactic(auto, using(crate::proofs::Rules::arguments_is))]
pub fn arguments(
    alloc: Global,
    reader: &mut Reader<'_>,
    depth: usize,
) -> Result<Items<Expr>, Refusal<PatFault>>
    ensures { Reads (spec.arguments (spec.room_of depth) reader.old) result reader.new }
{
    reader.opening(Terminal::LeftParen, depth)?;
    let found = expression_list(alloc, reader, depth - 1)?;
    reader.expect(Terminal::RightParen).and(Ok(found))
}

/// `<`, an expression and `>`.
#[cycle(expression)]
#[tactic(auto, using(crate::proofs::Rules::of_is))]
fn of(alloc: Global, reader: &mut Reader<'_>, depth: usize) -> Result<Expr, Refusal<PatFault>>
    ensures { Reads (spec.of (spec.room_of depth) reader.old) result reader.new }
{
    reader.opening(Terminal::Less, depth)?;
    let found = expression(alloc, reader, depth - 1)?;
    reader.expect(Terminal::Greater).and(Ok(found))
}

#[cycle(expression)]
#[tactic(auto, unfolding(crate::specs::Expressions::maybe_of))]
fn maybe_of(
    alloc: Global,
    reader: &mut Reader<'_>,
    depth: usize,
) -> Result<Option<Expr>, Refusal<PatFault>>
    ensures { Reads (spec.maybe_of (spec.room_of depth) reader.old) result reader.new }
{
    if !reader.sees(Terminal::Less) {
        return Ok(None);
    }
    Ok(Some(of(alloc, reader, depth)?))
}

#[cycle(expression)]
#[tactic(auto, unfolding(crate::specs::Expressions::reference_form))]
fn reference_form(
    alloc: Global,
    reader: &mut Reader<'_>,
    depth: usize,
) -> Result<RefForm, Refusal<PatFault>>
    ensures { ReadsAs ref_form (spec.reference_form (spec.room_of depth) reader.old) result reader.new }
{
    match reader.peek() {
        Terminal::Attr => {
            reader.take();
            Ok(RefForm::Attr(maybe_of(alloc, reader, depth)?))
        }
        Terminal::Op => {
            reader.take();
            Ok(RefForm::Op(maybe_operation_name(alloc, reader, depth)?))
        }
        Terminal::Type => {
            reader.take();
            Ok(RefForm::Ty)
        }
        Terminal::TypeRange => {
            reader.take();
            Ok(RefForm::Tys)
        }
        Terminal::Value => {
            reader.take();
            Ok(RefForm::Value(maybe_of(alloc, reader, depth)?))
        }
        Terminal::ValueRange => {
            reader.take();
            Ok(RefForm::Values(maybe_of(alloc, reader, depth)?))
        }
        _ => Ok(RefForm::Named(SharedText::from_slice(alloc, reader.name()?)?)),
    }
}

/// A kind, or the name of a constraint.
#[cycle(expression)]
#[tactic(auto, unfolding(crate::specs::Expressions::reference))]
pub fn reference(
    alloc: Global,
    reader: &mut Reader<'_>,
    depth: usize,
) -> Result<Ref, Refusal<PatFault>>
    ensures { Reads (spec.reference (spec.room_of depth) reader.old) result reader.new }
{
    let at = reader.start();
    let form = reference_form(alloc, reader, depth)?;
    Ok(Ref { at, form })
}

/// One or more refs with commas between.
#[cycle(expression)]
#[tactic(auto, unfolding(crate::specs::Input::separated, crate::specs::Input::refuse))]
fn reference_items(
    alloc: Global,
    reader: &mut Reader<'_>,
    depth: usize,
) -> Result<Items<Ref>, Refusal<PatFault>>
    ensures { Reads (items (spec.reference (spec.room_of depth)) reader.old) result reader.new }
{
    let mut found = Items::new(alloc);
    for _turn in 0..reader.left() {
        found.push(reference(alloc, reader, depth)?)?;
        if !reader.eat(Terminal::Comma) {
            return Ok(found);
        }
    }
    Err(reader.refuse())
}

/// One ref, or refs in square brackets.
#[cycle(expression)]
#[tactic(auto, using(crate::proofs::Rules::references_is))]
pub fn references(
    alloc: Global,
    reader: &mut Reader<'_>,
    depth: usize,
) -> Result<Items<Ref>, Refusal<PatFault>>
    ensures { Reads (spec.references (spec.room_of depth) reader.old) result reader.new }
{
    if !reader.sees(Terminal::LeftBracket) {
        let mut found = Items::new(alloc);
        found.push(reference(alloc, reader, depth)?)?;
        return Ok(found);
    }
    reader.opening(Terminal::LeftBracket, depth)?;
    let found = reference_items(alloc, reader, depth - 1)?;
    reader.expect(Terminal::RightBracket).and(Ok(found))
}

#[cycle(expression)]
#[tactic(auto, unfolding(crate::specs::Expressions::maybe_arguments))]
fn maybe_arguments(
    alloc: Global,
    reader: &mut Reader<'_>,
    depth: usize,
) -> Result<Option<Items<Expr>>, Refusal<PatFault>>
    ensures { Reads (spec.maybe_arguments (spec.room_of depth) reader.old) result reader.new }
{
    if !reader.sees(Terminal::LeftParen) {
        return Ok(None);
    }
    Ok(Some(arguments(alloc, reader, depth)?))
}

/// `= value`, where it is written.
#[cycle(expression)]
#[tactic(auto, unfolding(crate::specs::Expressions::maybe_value))]
pub fn maybe_value(
    alloc: Global,
    reader: &mut Reader<'_>,
    depth: usize,
) -> Result<Option<Expr>, Refusal<PatFault>>
    ensures { Reads (spec.maybe_value (spec.expression (spec.room_of depth)) reader.old) result reader.new }
{
    if !reader.eat(Terminal::Equal) {
        return Ok(None);
    }
    Ok(Some(expression(alloc, reader, depth)?))
}

/// A named attribute.
#[cycle(expression)]
#[tactic(auto, unfolding(crate::specs::Expressions::an_entry))]
fn entry(alloc: Global, reader: &mut Reader<'_>, depth: usize) -> Result<Entry, Refusal<PatFault>>
    ensures { Reads (spec.an_entry (spec.expression (spec.room_of depth)) reader.old) result reader.new }
{
    let at = reader.start();
    let name = entry_name(alloc, reader)?;
    let value = maybe_value(alloc, reader, depth)?;
    Ok(Entry { at, name, value })
}

/// One or more entries with commas between.
#[cycle(expression)]
#[tactic(auto, unfolding(crate::specs::Input::separated, crate::specs::Input::refuse))]
fn entry_items(
    alloc: Global,
    reader: &mut Reader<'_>,
    depth: usize,
) -> Result<Items<Entry>, Refusal<PatFault>>
    ensures { Reads (items (spec.an_entry (spec.expression (spec.room_of depth))) reader.old) result reader.new }
{
    let mut found = Items::new(alloc);
    for _turn in 0..reader.left() {
        found.push(entry(alloc, reader, depth)?)?;
        if !reader.eat(Terminal::Comma) {
            return Ok(found);
        }
    }
    Err(reader.refuse())
}

/// Entries with commas between, up to `}`.
#[cycle(expression)]
#[tactic(auto, unfolding(crate::specs::Input::list))]
fn entry_list(
    alloc: Global,
    reader: &mut Reader<'_>,
    depth: usize,
) -> Result<Items<Entry>, Refusal<PatFault>>
    ensures { Reads (list RightBrace (spec.an_entry (spec.expression (spec.room_of depth))) reader.old) result reader.new }
{
    if reader.sees(Terminal::RightBrace) {
        return Ok(Items::new(alloc));
    }
    entry_items(alloc, reader, depth)
}

/// `{`, entries and `}`.
#[cycle(expression)]
#[tactic(auto, using(crate::proofs::Rules::attributes_is))]
fn attributes(
    alloc: Global,
    reader: &mut Reader<'_>,
    depth: usize,
) -> Result<Items<Entry>, Refusal<PatFault>>
    ensures { Reads (spec.attributes (spec.room_of depth) reader.old) result reader.new }
{
    reader.opening(Terminal::LeftBrace, depth)?;
    let found = entry_list(alloc, reader, depth - 1)?;
    reader.expect(Terminal::RightBrace).and(Ok(found))
}

#[cycle(expression)]
#[tactic(auto, unfolding(crate::specs::Expressions::maybe_attributes))]
fn maybe_attributes(
    alloc: Global,
    reader: &mut Reader<'_>,
    depth: usize,
) -> Result<Items<Entry>, Refusal<PatFault>>
    ensures { Reads (spec.maybe_attributes (spec.room_of depth) reader.old) result reader.new }
{
    if !reader.sees(Terminal::LeftBrace) {
        return Ok(Items::new(alloc));
    }
    attributes(alloc, reader, depth)
}

#[cycle(expression)]
#[tactic(auto, unfolding(crate::specs::Expressions::maybe_types))]
fn maybe_types(
    alloc: Global,
    reader: &mut Reader<'_>,
    depth: usize,
) -> Result<Option<Items<Expr>>, Refusal<PatFault>>
    ensures { Reads (spec.maybe_types (spec.room_of depth) reader.old) result reader.new }
{
    if !reader.eat(Terminal::Arrow) {
        return Ok(None);
    }
    Ok(Some(arguments(alloc, reader, depth)?))
}

/// What stands behind the word `op`.
#[cycle(expression)]
#[tactic(auto, unfolding(crate::specs::Expressions::an_operation))]
fn operation(
    alloc: Global,
    reader: &mut Reader<'_>,
    depth: usize,
) -> Result<OpExpr, Refusal<PatFault>>
    ensures { Reads (spec.an_operation (spec.room_of depth) reader.old) result reader.new }
{
    let name = operation_name(alloc, reader, depth)?;
    let operands = maybe_arguments(alloc, reader, depth)?;
    let entries = maybe_attributes(alloc, reader, depth)?;
    let types = maybe_types(alloc, reader, depth)?;
    Ok(OpExpr {
        name,
        operands,
        entries,
        types,
    })
}

/// A name and what stands behind it: arguments, refs, or nothing.
#[cycle(expression)]
#[tactic(auto, unfolding(crate::specs::Expressions::named))]
fn named(
    alloc: Global,
    reader: &mut Reader<'_>,
    depth: usize,
    name: &[u8],
) -> Result<ExprForm, Refusal<PatFault>>
    ensures { ReadsAs expr_form (spec.named (spec.room_of depth) name.now reader.old) result reader.new }
{
    let name = SharedText::from_slice(alloc, name)?;
    match reader.peek() {
        Terminal::LeftParen => Ok(ExprForm::Call(name, arguments(alloc, reader, depth)?)),
        Terminal::Colon => {
            reader.take();
            Ok(ExprForm::Declare(name, references(alloc, reader, depth)?))
        }
        _ => Ok(ExprForm::Name(name)),
    }
}

/// An expression without its members. A word that is a name is one, unless `<` follows and it begins something else.
#[cycle(expression)]
#[tactic(auto, unfolding(crate::specs::Expressions::primary))]
fn primary(
    alloc: Global,
    reader: &mut Reader<'_>,
    depth: usize,
) -> Result<ExprForm, Refusal<PatFault>>
    ensures { ReadsAs expr_form (spec.primary (spec.room_of depth) reader.old) result reader.new }
{
    let first = reader.peek();
    if !first.begins_literal() {
        let name = reader.name()?;
        return named(alloc, reader, depth, name);
    }
    let name = reader.take();
    if !reader.sees(Terminal::Less) {
        return named(alloc, reader, depth, name);
    }
    match first {
        Terminal::AttrName => Ok(ExprForm::AttrLit(literal_in_angles(alloc, reader, depth)?)),
        Terminal::TypeName => Ok(ExprForm::TyLit(literal_in_angles(alloc, reader, depth)?)),
        _ => Ok(ExprForm::Op(operation(alloc, reader, depth)?)),
    }
}

/// An expression, where so many more brackets may be open.
#[cycle(expression)]
#[tactic(auto, unfolding(crate::specs::Expressions::expression))]
pub fn expression(
    alloc: Global,
    reader: &mut Reader<'_>,
    depth: usize,
) -> Result<Expr, Refusal<PatFault>>
    ensures { Reads (spec.expression (spec.room_of depth) reader.old) result reader.new }
{
    let at = reader.start();
    let form = primary(alloc, reader, depth)?;
    members(alloc, reader, at, form)
}
