//! Declarations and whole files.

ghost use Rattle.std.specs.Prelude.{◌≡◌, ◌≤◌, List, ℕ, length};
ghost use Rattle.pdll_syntax.specs.declared.fault.PatKind.TheVariants.{NotUtf8};
ghost use Rattle.pdll_parser.specs.Input.{Reads, Gives, items, list, bracket};
ghost use Rattle.pdll_parser.specs.Place as place;
ghost use Rattle.pdll_parser.specs.Expressions as expressions;
ghost use Rattle.pdll_parser.specs.Files as spec;
ghost use Rattle.pdll_parser.specs.declared.terminal.Terminal.TheVariants.{RightParen};

use crate::expressions::{expression, index_of, reference, references};
use crate::reader::Reader;
use crate::statements::{braces, declared_name, statement};
use crate::terminal::Terminal;
use mlir_tree::refusal::Refusal;
use pdll_syntax::expr::Ref;
use pdll_syntax::fault::{PatFault, PatKind};
use pdll_syntax::file::{CallDecl, Decl, Meta, MetaForm, PatFile, PatternDecl};
use pdll_syntax::name::Name;
use pdll_syntax::stmt::{Body, Param};
use sqlite_items::Items;
use std::alloc::Global;

/// How many brackets may be open at once.
#[tactic(auto, unfolding(crate::specs::Files::max_depth))]
fn max_depth() -> usize
    ensures { result ≡ spec.max_depth }
{
    256
}

/// How many patterns a file may have.
const MAX_PATTERNS: usize = 4096;

/// The number of a benefit.
#[tactic(auto, unfolding(crate::specs::Files::benefit))]
fn benefit(reader: &mut Reader<'_>) -> Result<u16, Refusal<PatFault>>
    ensures { Reads (spec.benefit reader.old) result reader.new }
{
    let at = reader.start();
    let number = index_of(reader.text_of(Terminal::Integer)?);
    if number > 65534 {
        return Err(Refusal::Fault(PatFault {
            kind: PatKind::BenefitRange,
            at,
        }));
    }
    Ok(number)
}

/// `(`, the number of a benefit and `)`.
#[tactic(auto, using(crate::proofs::Rules::benefit_in_parens_is))]
fn benefit_in_parens(reader: &mut Reader<'_>) -> Result<u16, Refusal<PatFault>>
    ensures { Reads (spec.benefit_in_parens reader.old) result reader.new }
{
    reader.opening(Terminal::LeftParen, max_depth())?;
    let number = benefit(reader)?;
    reader.expect(Terminal::RightParen).and(Ok(number))
}

#[tactic(auto, unfolding(crate::specs::Input::refuse))]
fn meta_form(reader: &mut Reader<'_>) -> Result<MetaForm, Refusal<PatFault>>
    ensures { Reads (spec.meta_by (place.terminal reader.old) reader.old) result reader.new }
{
    match reader.peek() {
        Terminal::BenefitName => {
            reader.take();
            Ok(MetaForm::Benefit(benefit_in_parens(reader)?))
        }
        Terminal::RecursionName => {
            reader.take();
            Ok(MetaForm::Recursion)
        }
        _ => Err(reader.refuse()),
    }
}

/// What is said of a pattern.
#[tactic(auto, unfolding(crate::specs::Files::a_meta))]
fn meta(reader: &mut Reader<'_>) -> Result<Meta, Refusal<PatFault>>
    ensures { Reads (spec.a_meta reader.old) result reader.new }
{
    let at = reader.start();
    let form = meta_form(reader)?;
    Ok(Meta { at, form })
}

/// One or more with commas between.
#[tactic(auto, unfolding(crate::specs::Input::separated, crate::specs::Input::refuse))]
fn meta_items(alloc: Global, reader: &mut Reader<'_>) -> Result<Items<Meta>, Refusal<PatFault>>
    ensures { Reads (items (spec.a_meta) reader.old) result reader.new }
{
    let mut found = Items::new(alloc);
    for _turn in 0..reader.left() {
        found.push(meta(reader)?)?;
        if !reader.eat(Terminal::Comma) {
            return Ok(found);
        }
    }
    Err(reader.refuse())
}

/// `with` and what is said of the pattern, where it is written.
#[tactic(auto, unfolding(crate::specs::Files::maybe_metas))]
fn maybe_metas(alloc: Global, reader: &mut Reader<'_>) -> Result<Items<Meta>, Refusal<PatFault>>
    ensures { Reads (spec.maybe_metas reader.old) result reader.new }
{
    if !reader.eat(Terminal::With) {
        return Ok(Items::new(alloc));
    }
    meta_items(alloc, reader)
}

#[tactic(auto, unfolding(crate::specs::Files::maybe_name))]
fn maybe_name(alloc: Global, reader: &mut Reader<'_>) -> Result<Option<Name>, Refusal<PatFault>>
    ensures { Reads (spec.maybe_name reader.old) result reader.new }
{
    if !reader.peek().is_name() {
        return Ok(None);
    }
    Ok(Some(declared_name(alloc, reader)?))
}

/// Statements in braces, or one behind `=>`.
#[tactic(auto, unfolding(crate::specs::Files::pattern_body, crate::specs::Input::refuse))]
fn pattern_body(alloc: Global, reader: &mut Reader<'_>) -> Result<Body, Refusal<PatFault>>
    ensures { Reads (spec.pattern_body reader.old) result reader.new }
{
    match reader.peek() {
        Terminal::LeftBrace => {
            let (statements, end) = braces(alloc, reader, max_depth())?;
            Ok(Body::Braces(statements, end))
        }
        Terminal::FatArrow => {
            reader.take();
            Ok(Body::One(statement(alloc, reader, max_depth())?))
        }
        _ => Err(reader.refuse()),
    }
}

/// No body, statements in braces, or an expression behind `=>`.
#[tactic(auto, unfolding(crate::specs::Files::call_body, crate::specs::Input::refuse))]
fn call_body(alloc: Global, reader: &mut Reader<'_>) -> Result<Body, Refusal<PatFault>>
    ensures { Reads (spec.call_body reader.old) result reader.new }
{
    match reader.peek() {
        Terminal::Semicolon => {
            reader.take();
            Ok(Body::Absent)
        }
        Terminal::LeftBrace => {
            let (statements, end) = braces(alloc, reader, max_depth())?;
            Ok(Body::Braces(statements, end))
        }
        Terminal::FatArrow => {
            reader.take();
            let value = expression(alloc, reader, max_depth())?;
            reader
                .expect(Terminal::Semicolon)
                .and(Ok(Body::Value(value)))
        }
        _ => Err(reader.refuse()),
    }
}

/// `name: refs`
#[tactic(auto, unfolding(crate::specs::Files::a_parameter))]
fn parameter(
    alloc: Global,
    reader: &mut Reader<'_>,
    depth: usize,
) -> Result<Param, Refusal<PatFault>>
    ensures { Reads (spec.a_parameter (expressions.references (expressions.room_of depth)) reader.old) result reader.new }
{
    let name = declared_name(alloc, reader)?;
    reader.expect(Terminal::Colon)?;
    let refs = references(alloc, reader, depth)?;
    Ok(Param { name, refs })
}

/// One or more parameters with commas between.
#[tactic(auto, unfolding(crate::specs::Input::separated, crate::specs::Input::refuse))]
fn parameter_items(
    alloc: Global,
    reader: &mut Reader<'_>,
    depth: usize,
) -> Result<Items<Param>, Refusal<PatFault>>
    ensures { Reads (items (spec.a_parameter (expressions.references (expressions.room_of depth))) reader.old) result reader.new }
{
    let mut found = Items::new(alloc);
    for _turn in 0..reader.left() {
        found.push(parameter(alloc, reader, depth)?)?;
        if !reader.eat(Terminal::Comma) {
            return Ok(found);
        }
    }
    Err(reader.refuse())
}

/// Parameters with commas between, up to `)`.
#[tactic(auto, unfolding(crate::specs::Input::list))]
fn parameter_list(
    alloc: Global,
    reader: &mut Reader<'_>,
    depth: usize,
) -> Result<Items<Param>, Refusal<PatFault>>
    ensures { Reads (list RightParen (spec.a_parameter (expressions.references (expressions.room_of depth))) reader.old) result reader.new }
{
    if reader.sees(Terminal::RightParen) {
        return Ok(Items::new(alloc));
    }
    parameter_items(alloc, reader, depth)
}

/// `(`, parameters and `)`.
#[tactic(auto, using(crate::proofs::Rules::parameters_is))]
fn parameters(alloc: Global, reader: &mut Reader<'_>) -> Result<Items<Param>, Refusal<PatFault>>
    ensures { Reads (spec.parameters reader.old) result reader.new }
{
    reader.opening(Terminal::LeftParen, max_depth())?;
    let found = parameter_list(alloc, reader, max_depth() - 1)?;
    reader.expect(Terminal::RightParen).and(Ok(found))
}

/// `->` and the kind of the result, where they are written.
#[tactic(auto, unfolding(crate::specs::Files::maybe_result, crate::specs::Files::a_kind, crate::specs::Input::refuse))]
fn maybe_result(alloc: Global, reader: &mut Reader<'_>) -> Result<Option<Ref>, Refusal<PatFault>>
    ensures { Reads (spec.maybe_result reader.old) result reader.new }
{
    if !reader.eat(Terminal::Arrow) {
        return Ok(None);
    }
    if !reader.peek().is_kind() {
        return Err(reader.refuse());
    }
    Ok(Some(reference(alloc, reader, max_depth())?))
}

#[tactic(auto, unfolding(crate::specs::Files::a_pattern))]
fn pattern(alloc: Global, reader: &mut Reader<'_>) -> Result<PatternDecl, Refusal<PatFault>>
    ensures { Reads (spec.a_pattern reader.old) result reader.new }
{
    let at = reader.start();
    reader.take();
    let name = maybe_name(alloc, reader)?;
    let metas = maybe_metas(alloc, reader)?;
    let body = pattern_body(alloc, reader)?;
    Ok(PatternDecl {
        at,
        name,
        metas,
        body,
    })
}

#[tactic(auto, unfolding(crate::specs::Files::a_constraint))]
fn constraint(alloc: Global, reader: &mut Reader<'_>) -> Result<CallDecl, Refusal<PatFault>>
    ensures { Reads (spec.a_constraint reader.old) result reader.new }
{
    let at = reader.start();
    reader.take();
    let name = declared_name(alloc, reader)?;
    let params = parameters(alloc, reader)?;
    let body = call_body(alloc, reader)?;
    Ok(CallDecl {
        at,
        name,
        params,
        gives: None,
        body,
    })
}

#[tactic(auto, unfolding(crate::specs::Files::a_rewrite_declaration))]
fn rewrite_declaration(
    alloc: Global,
    reader: &mut Reader<'_>,
) -> Result<CallDecl, Refusal<PatFault>>
    ensures { Reads (spec.a_rewrite_declaration reader.old) result reader.new }
{
    let at = reader.start();
    reader.take();
    let name = declared_name(alloc, reader)?;
    let params = parameters(alloc, reader)?;
    let gives = maybe_result(alloc, reader)?;
    let body = call_body(alloc, reader)?;
    Ok(CallDecl {
        at,
        name,
        params,
        gives,
        body,
    })
}

/// The declaration behind those before it, of which so many are patterns.
#[tactic(auto, unfolding(crate::specs::Files::declaration, crate::specs::Input::refuse))]
fn declaration(
    alloc: Global,
    reader: &mut Reader<'_>,
    patterns: usize,
) -> Result<Decl, Refusal<PatFault>>
    ensures { Reads (spec.declaration patterns reader.old) result reader.new }
{
    match reader.peek() {
        Terminal::Pattern => {
            if patterns >= MAX_PATTERNS {
                return Err(reader.too_many());
            }
            Ok(Decl::Pattern(pattern(alloc, reader)?))
        }
        Terminal::Constraint => Ok(Decl::Constraint(constraint(alloc, reader)?)),
        Terminal::Rewrite => Ok(Decl::Rewrite(rewrite_declaration(alloc, reader)?)),
        _ => Err(reader.refuse()),
    }
}

/// 1 for a pattern, else 0.
fn is_pattern(decl: &Decl) -> usize
    ensures value { result ≡ spec.is_pattern decl.now }
    ensures small { result ≤ 1 }
{
    match decl {
        Decl::Pattern(_) => 1,
        _ => 0,
    }
}

/// The declarations up to the end.
#[tactic(auto, unfolding(crate::specs::Files::declarations, crate::specs::Input::many, crate::specs::Input::refuse))]
fn declarations(alloc: Global, reader: &mut Reader<'_>) -> Result<Items<Decl>, Refusal<PatFault>>
    ensures { Reads (spec.declarations reader.old) result reader.new }
{
    let mut found = Items::new(alloc);
    let mut patterns = 0;
    for _turn in 0..reader.left() {
        if reader.sees(Terminal::End) {
            return Ok(found);
        }
        let next = declaration(alloc, reader, patterns)?;
        patterns += is_pattern(&next);
        found.push(next)?;
    }
    if !reader.sees(Terminal::End) {
        return Err(reader.refuse());
    }
    Ok(found)
}

/// The pattern file that bytes spell, which are UTF-8.
#[tactic(auto, unfolding(crate::specs::Files::file_in))]
pub fn file(alloc: Global, bytes: &[u8]) -> Result<PatFile, Refusal<PatFault>>
    ensures { Gives result (spec.file_in bytes.now) }
{
    let mut reader = Reader::new(bytes);
    let decls = declarations(alloc, &mut reader)?;
    Ok(PatFile { decls })
}
