//! Whether the tokens of a type are all there.

ghost use Rattle.std.specs.Prelude.{◌≡◌, ◌≤◌, ◌-◌, length, IfOk, IfSome, OnOk};
ghost use Rattle.mlir_lexer.specs.declared.body.Effect.TheVariants.{Opens};
ghost use Rattle.mlir_attributes.specs.Place.{kind};
ghost use Rattle.mlir_attributes.specs.Input.{Reads};
ghost use Rattle.mlir_attributes.specs.Complete as spec;

use crate::nesting::{byte_at, innermost, move_closers};
use crate::reader::{Reader, Refused};
use crate::types::is_other_word;
use mlir_lexer::TokenKind;
use mlir_lexer::body::{Effect, effect_of};
use sqlite_items::Items;
use std::alloc::{AllocError, Global};
use text_scan::strings::string_end;

/// What is known of a kept body behind a byte of it.
#[derive(Drop)]
pub struct Body {
    /// What closes each open bracket, the innermost last.
    pub closers: Items<u8>,
    /// Whether the byte is `-`, outside strings.
    pub dash: bool,
    /// The place behind it.
    pub at: usize,
    /// Whether the body breaks off.
    pub broken: bool,
}

/// A bracket of a function type.
#[derive(Clone, Copy, Debug, PartialEq, Eq)]
pub enum Bracket {
    /// Around the parameters.
    Parameters,
    /// Around the results.
    Results,
}

/// What may come next in a type.
#[derive(Clone, Copy, Debug, PartialEq, Eq)]
pub enum Phase {
    /// A type or the end of the list.
    First,
    /// A type.
    Item,
    /// The results of a function type.
    Results,
    /// A comma or the end of the list, behind a type.
    Behind,
    /// The arrow of a function type.
    Arrow,
    /// Nothing: the token didn't fit.
    Broken,
}

/// What is known of a type behind a token of it.
#[derive(Drop)]
pub struct Shape {
    pub phase: Phase,
    /// The open brackets, the innermost last.
    pub around: Items<Bracket>,
}

/// Goes behind a byte of this effect.
fn pass_byte(body: &mut Body, effect: Effect, b: u8) -> Result<(), AllocError>
    requires { effect ≡ Opens → b ≤ 123 }
    ensures { OnOk result (body.new ≡ spec.past_byte body.old effect b) }
{
    match effect {
        Effect::Fails => {
            body.broken = true;
            Ok(())
        }
        Effect::Opens | Effect::Closes | Effect::Passes => {
            move_closers(&mut body.closers, effect, b)
        }
    }
}

/// Goes behind a string or a byte.
#[tactic(auto, unfolding(crate::specs::Complete::body_step))]
fn body_step(bytes: &[u8], body: &mut Body) -> Result<(), AllocError>
    requires { body.old.at ≤ length bytes.now }
    ensures value { OnOk result (body.new ≡ spec.body_step bytes.now body.old) }
    ensures within { OnOk result (body.new.at ≤ length bytes.now) }
{
    let at = body.at;
    if at >= bytes.len() {
        body.broken = true;
        return Ok(());
    }
    let b = bytes[at];
    if b == b'"' {
        match string_end(bytes, at) {
            Some(end) => {
                body.at = end;
                body.dash = false;
            }
            None => body.broken = true,
        }
        return Ok(());
    }
    let effect = effect_of(
        b,
        byte_at(bytes, at + 1),
        body.dash,
        innermost(body.closers.as_slice()),
    );
    body.at = at + 1;
    body.dash = b == b'-';
    pass_byte(body, effect, b)
}

/// Whether the body breaks off, or all its brackets are closed.
fn is_over(body: &Body) -> bool
    ensures { result ≡ spec.is_over body.now }
{
    body.broken || body.closers.len() == 0
}

/// Where the body ends that begins with the `<` at `at`, however many brackets are open in it.
#[tactic(auto, unfolding(crate::specs::Complete::body_end))]
pub fn body_end(alloc: Global, bytes: &[u8], at: usize) -> Result<Option<usize>, AllocError>
    requires { at ≤ length bytes.now }
    ensures value { IfOk result (λ end. end ≡ spec.body_end (length bytes.now - at) bytes.now (spec.body_start at)) }
    ensures within { IfOk result (λ end. IfSome end (λ n. n ≤ length bytes.now)) }
{
    let mut body = Body {
        closers: Items::new(alloc),
        dash: false,
        at,
        broken: false,
    };
    for _turn in 0..bytes.len() - at {
        body_step(bytes, &mut body)?;
        if is_over(&body) {
            return Ok(if body.broken { None } else { Some(body.at) });
        }
    }
    Ok(None)
}

/// Takes a token and a kept body behind it.
#[tactic(auto, unfolding(crate::specs::Complete::past_name))]
fn pass_name(alloc: Global, reader: &mut Reader<'_>) -> Result<(), Refused>
    ensures { Reads (spec.past_name reader.old) result reader.new }
{
    reader.take();
    if reader.sees(TokenKind::Less) {
        return reader.pass_body(alloc);
    }
    Ok(())
}

/// Takes a token, where a word or a name counts as one with its body.
fn pass_token(alloc: Global, reader: &mut Reader<'_>) -> Result<(), Refused>
    ensures { Reads (spec.past_token reader.old) result reader.new }
{
    match reader.kind() {
        Some(TokenKind::Word) => {
            if is_other_word(reader.spelling()) {
                return Err(reader.refuse());
            }
            pass_name(alloc, reader)
        }
        Some(TokenKind::Bang) => pass_name(alloc, reader),
        _ => {
            reader.take();
            Ok(())
        }
    }
}

/// Goes behind `(`.
#[tactic(auto, unfolding(crate::specs::Complete::opened))]
fn open(shape: &mut Shape) -> Result<(), AllocError>
    ensures { OnOk result (shape.new ≡ spec.opened shape.old.phase shape.old.around) }
{
    match shape.phase {
        Phase::First | Phase::Item => {
            shape.phase = Phase::First;
            shape.around.push(Bracket::Parameters)
        }
        Phase::Results => {
            shape.phase = Phase::First;
            shape.around.push(Bracket::Results)
        }
        Phase::Behind | Phase::Arrow | Phase::Broken => {
            shape.phase = Phase::Broken;
            Ok(())
        }
    }
}

fn closed_phase(bracket: Option<Bracket>) -> Phase
    ensures { result ≡ spec.closed_phase bracket }
{
    match bracket {
        None => Phase::Broken,
        Some(Bracket::Parameters) => Phase::Arrow,
        Some(Bracket::Results) => Phase::Behind,
    }
}

fn may_close(phase: Phase) -> bool
    ensures { result ≡ spec.may_close phase }
{
    match phase {
        Phase::First | Phase::Behind => true,
        Phase::Item | Phase::Results | Phase::Arrow | Phase::Broken => false,
    }
}

/// Takes the last bracket off.
fn pop(around: &mut Items<Bracket>) -> Option<Bracket>
    ensures value { result ≡ spec.last around.old }
    ensures rest { around.new ≡ spec.without_last around.old }
{
    let last = around.get(around.len().saturating_sub(1)).copied();
    around.pop();
    last
}

/// Goes behind `)`.
#[tactic(auto, unfolding(crate::specs::Complete::closed))]
fn close(shape: &mut Shape)
    ensures { shape.new ≡ spec.closed shape.old.phase shape.old.around }
{
    if may_close(shape.phase) {
        shape.phase = closed_phase(pop(&mut shape.around));
    } else {
        shape.phase = Phase::Broken;
    }
}

fn behind_name(phase: Phase) -> Phase
    ensures { result ≡ spec.behind_name phase }
{
    match phase {
        Phase::First | Phase::Item | Phase::Results => Phase::Behind,
        Phase::Behind | Phase::Arrow | Phase::Broken => Phase::Broken,
    }
}

fn behind_comma(phase: Phase) -> Phase
    ensures { result ≡ spec.behind_comma phase }
{
    match phase {
        Phase::Behind => Phase::Item,
        _ => Phase::Broken,
    }
}

fn behind_arrow(phase: Phase) -> Phase
    ensures { result ≡ spec.behind_arrow phase }
{
    match phase {
        Phase::Arrow => Phase::Results,
        _ => Phase::Broken,
    }
}

/// Goes behind a token of this kind.
#[tactic(auto, unfolding(crate::specs::Complete::shape_step))]
fn shape_step(shape: &mut Shape, kind: Option<TokenKind>) -> Result<(), AllocError>
    ensures { OnOk result (shape.new ≡ spec.shape_step shape.old kind) }
{
    match kind {
        Some(TokenKind::LeftParen) => return open(shape),
        Some(TokenKind::RightParen) => close(shape),
        Some(TokenKind::Comma) => shape.phase = behind_comma(shape.phase),
        Some(TokenKind::Arrow) => shape.phase = behind_arrow(shape.phase),
        Some(TokenKind::Word) | Some(TokenKind::Bang) => shape.phase = behind_name(shape.phase),
        _ => shape.phase = Phase::Broken,
    }
    Ok(())
}

fn is_broken(phase: Phase) -> bool
    ensures { result ≡ spec.is_broken phase }
{
    matches!(phase, Phase::Broken)
}

fn is_behind(phase: Phase) -> bool
    ensures { result ≡ spec.is_behind phase }
{
    matches!(phase, Phase::Behind)
}

/// Whether it is all of a type.
fn is_whole(shape: &Shape) -> bool
    ensures { result ≡ spec.is_whole shape.now }
{
    is_behind(shape.phase) && shape.around.len() == 0
}

/// Takes the tokens of a type, whatever its widths, its aliases and its brackets are.
#[tactic(auto, unfolding(crate::specs::Complete::type_tokens))]
pub fn pass_type(alloc: Global, reader: &mut Reader<'_>) -> Result<(), Refused>
    ensures { Reads (spec.complete_type reader.old) result reader.new }
{
    let mut shape = Shape {
        phase: Phase::Item,
        around: Items::new(alloc),
    };
    for _turn in 0..reader.left() {
        shape_step(&mut shape, reader.kind())?;
        pass_token(alloc, reader)?;
        if is_broken(shape.phase) {
            return Err(reader.refuse());
        }
        if is_whole(&shape) {
            return Ok(());
        }
    }
    Err(reader.refuse())
}
