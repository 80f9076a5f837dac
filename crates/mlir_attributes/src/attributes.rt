//! Attributes.

ghost use Rattle.std.specs.Prelude.{◌≡◌, ◌<◌, ◌+◌, ◌-◌, ◌^◌, [], IfOk, Err};
ghost use Rattle.mlir_tree.specs.Tree.{attrs, entries};
ghost use Rattle.mlir_tree.specs.Range.{AreRising, entry_names};
ghost use Rattle.mlir_lexer.specs.declared.token.TokenKind.TheVariants.{RightBracket, Colon, ColonColon};
ghost use Rattle.mlir_attributes.specs.Place.{left, kind};
ghost use Rattle.mlir_attributes.specs.Input.{Reads, Fails, Gives, after, list, items, separated};
ghost use Rattle.mlir_attributes.specs.Attributes as spec;

use crate::aliases::{Aliases, Meaning, has_point};
use crate::complete::pass_type;
use crate::dictionary::{has_name, in_order, no_entries, put_entry};
use crate::fault::{ModFault, ModKind};
use crate::numbers::{is_hex, number_of};
use crate::reader::{MAX_OPEN, Reader, Refused, fail_at};
use crate::types::{bang_type, is_kept_word, ty, word_type};
use mlir_lexer::TokenKind;
use mlir_tree::attr::{Attr, AttrList, Dict};
use mlir_tree::number::Number;
use mlir_tree::refusal::Refusal;
use mlir_tree::sign::Sign;
use mlir_tree::text::{Text, TextList};
use mlir_tree::ty::Ty;
use shared_list::Shared;
use shared_text::SharedText;
use sqlite_items::Items;
use std::alloc::{AllocError, Global};
use text_scan::strings::read_string;

/// `true` is the value -1 of type `i1`, and `false` its value 0.
fn truth(value: bool) -> Attr
    ensures { result ≡ spec.truth value }
{
    Attr::int(
        Number {
            neg: value,
            mag: if value { 1 } else { 0 },
        },
        Ty::int(Sign::Signless, 1),
    )
}

/// The type of a number where none is written.
fn number_type(alloc: Global, float: bool) -> Result<Ty, AllocError>
    ensures { IfOk result (λ t. t ≡ spec.number_type float) }
{
    if float {
        Ok(Ty::word(SharedText::from_slice(alloc, b"f64")?))
    } else {
        Ok(Ty::int(Sign::Signless, 64))
    }
}

/// A type behind `:`, where one is written.
#[tactic(auto, unfolding(crate::specs::Attributes::typed))]
fn typed(
    alloc: Global,
    reader: &mut Reader<'_>,
    aliases: &Aliases,
    room: u32,
) -> Result<Option<Ty>, Refused>
    ensures { Reads (spec.typed aliases.now room reader.old) result reader.new }
{
    if reader.eat(TokenKind::Colon) {
        return Ok(Some(ty(alloc, reader, aliases, room)?));
    }
    Ok(None)
}

/// The type of a number, and where it begins.
#[tactic(auto, unfolding(crate::specs::Attributes::typed_number))]
fn typed_number(
    alloc: Global,
    reader: &mut Reader<'_>,
    aliases: &Aliases,
    room: u32,
    float: bool,
) -> Result<(usize, Ty), Refused>
    ensures { Reads (spec.typed_number aliases.now room float reader.old) result reader.new }
{
    let more = reader.eat(TokenKind::Colon);
    let at = reader.start();
    if more {
        return Ok((at, ty(alloc, reader, aliases, room)?));
    }
    Ok((at, number_type(alloc, float)?))
}

/// Whether the next token is a float and not an integer.
fn is_float(reader: &mut Reader<'_>) -> Result<bool, Refused>
    ensures { Reads (spec.number_kind reader.old) result reader.new }
{
    match reader.kind() {
        Some(TokenKind::Integer) => Ok(false),
        Some(TokenKind::Float) => Ok(true),
        _ => Err(reader.refuse()),
    }
}

fn is_inner(kind: ModKind) -> bool
    ensures { result ≡ spec.is_inner kind }
{
    matches!(
        kind,
        ModKind::WideInt | ModKind::AliasUnknown | ModKind::TooMany
    )
}

/// The fault of a decimal integer that begins at `at`, where the type that the reader is at has this fault.
#[tactic(auto, unfolding(crate::specs::Attributes::number_fault))]
fn number_fault(alloc: Global, reader: &mut Reader<'_>, at: usize, fault: ModFault) -> Refused
    ensures { Fails {A = Unit {0}} result (Err (spec.number_fault at reader.old fault)) }
{
    if !(is_inner(fault.kind) && reader.start() < fault.at) {
        return Refusal::Fault(fault);
    }
    match pass_type(alloc, reader) {
        Ok(()) => fail_at(ModKind::IntRange, at),
        Err(Refusal::Fault(_)) => Refusal::Fault(fault),
        Err(Refusal::NoMemory) => Refusal::NoMemory,
    }
}

/// The type of a number of this text, which begins at `at`.
#[tactic(auto, unfolding(crate::specs::Attributes::fitting_type))]
fn fitting_type(
    alloc: Global,
    reader: &mut Reader<'_>,
    aliases: &Aliases,
    room: u32,
    at: usize,
    float: bool,
    text: &[u8],
) -> Result<(usize, Ty), Refused>
    ensures { Reads (spec.fitting_type aliases.now room at float text.now reader.old) result reader.new }
{
    let mut again = reader.again(alloc);
    match typed_number(alloc, reader, aliases, room, float) {
        Ok(found) => Ok(found),
        Err(Refusal::NoMemory) => Err(Refusal::NoMemory),
        Err(Refusal::Fault(fault)) => {
            if float || is_hex(text) {
                return Err(Refusal::Fault(fault));
            }
            again.eat(TokenKind::Colon);
            Err(number_fault(alloc, &mut again, at, fault))
        }
    }
}

/// A number, behind its sign. The whole begins at `at`.
#[tactic(auto, using(crate::proofs::Steps::lifted), unfolding(crate::specs::Attributes::number))]
fn number(
    alloc: Global,
    reader: &mut Reader<'_>,
    aliases: &Aliases,
    room: u32,
    at: usize,
    neg: bool,
) -> Result<Attr, Refused>
    ensures { Reads (spec.number aliases.now room at neg reader.old) result reader.new }
{
    let float = is_float(reader)?;
    let text = reader.take();
    let (ty_at, ty) = fitting_type(alloc, reader, aliases, room, at, float, text)?;
    number_of(alloc, at, ty_at, neg, float, text, ty)
}

/// The bytes that a string stands for.
fn string_text(alloc: Global, text: &[u8]) -> Result<Text, AllocError>
    ensures { IfOk result (λ t. t ≡ spec.string_value text.now) }
{
    SharedText::new(alloc, Items::from_vec(read_string(alloc, text)?))
}

/// A string.
#[tactic(auto, unfolding(crate::specs::Attributes::string))]
fn string(
    alloc: Global,
    reader: &mut Reader<'_>,
    aliases: &Aliases,
    room: u32,
) -> Result<Attr, Refused>
    ensures { Reads (spec.string aliases.now room reader.old) result reader.new }
{
    let text = reader.take();
    let ty = typed(alloc, reader, aliases, room)?;
    Ok(Attr::str(string_text(alloc, text)?, ty))
}

/// A kept attribute that begins with this text, whose body is next.
#[tactic(auto, unfolding(crate::specs::Attributes::kept_attr))]
fn kept_attr(
    alloc: Global,
    reader: &mut Reader<'_>,
    aliases: &Aliases,
    room: u32,
    front: &[u8],
) -> Result<Attr, Refused>
    ensures { Reads (spec.kept_attr aliases.now front.now room reader.old) result reader.new }
{
    let text = reader.kept(alloc, aliases, front, room)?;
    let ty = typed(alloc, reader, aliases, room)?;
    Ok(Attr::kept(text, ty))
}

/// A kept attribute that begins with the next token, a word.
#[tactic(auto, unfolding(crate::specs::Attributes::kept_word))]
fn kept_word(
    alloc: Global,
    reader: &mut Reader<'_>,
    aliases: &Aliases,
    room: u32,
) -> Result<Attr, Refused>
    ensures { Reads (spec.kept_word aliases.now room reader.old) result reader.new }
{
    let word = reader.take();
    if !reader.sees(TokenKind::Less) {
        return Err(reader.refuse());
    }
    kept_attr(alloc, reader, aliases, room, word)
}

/// An attribute that begins with the next token, which is this word.
#[tactic(auto, unfolding(crate::specs::Attributes::word_attr))]
fn word_attr(
    alloc: Global,
    reader: &mut Reader<'_>,
    aliases: &Aliases,
    room: u32,
    word: &[u8],
) -> Result<Attr, Refused>
    ensures { Reads (spec.word_attr aliases.now room word.now reader.old) result reader.new }
{
    if word == b"unit".as_slice() {
        reader.take();
        return Ok(Attr::unit());
    }
    if word == b"true".as_slice() {
        reader.take();
        return Ok(truth(true));
    }
    if word == b"false".as_slice() {
        reader.take();
        return Ok(truth(false));
    }
    if is_kept_word(word) {
        return kept_word(alloc, reader, aliases, room);
    }
    Ok(Attr::of_ty(word_type(alloc, reader, aliases, room)?))
}

/// The attribute that an alias stands for, whose use is at `at`.
#[tactic(auto, unfolding(crate::specs::Attributes::alias_attr))]
fn alias_attr(
    alloc: Global,
    reader: &mut Reader<'_>,
    aliases: &Aliases,
    room: u32,
    at: usize,
    name: &[u8],
) -> Result<Attr, Refused>
    ensures { Reads (spec.alias_attr aliases.now room at name.now reader.old) result reader.new }
{
    let Some(alias) = aliases.find(name) else {
        return Err(fail_at(ModKind::AliasUnknown, at));
    };
    let Meaning::Attr(attr) = &alias.meaning else {
        return Err(fail_at(ModKind::AliasUnknown, at));
    };
    if !reader.put_in(alias, room) {
        return Err(fail_at(ModKind::TooMany, at));
    }
    Ok(attr.copy(alloc)?)
}

/// A kept attribute without a body.
#[tactic(auto, unfolding(crate::specs::Attributes::pointed))]
fn pointed(
    alloc: Global,
    reader: &mut Reader<'_>,
    aliases: &Aliases,
    room: u32,
    name: &[u8],
) -> Result<Attr, Refused>
    ensures { Reads (spec.pointed aliases.now room name.now reader.old) result reader.new }
{
    let ty = typed(alloc, reader, aliases, room)?;
    Ok(Attr::kept(SharedText::from_slice(alloc, name)?, ty))
}

/// An attribute that begins with `#` and a name.
#[tactic(auto, unfolding(crate::specs::Attributes::hash_attr))]
fn hash_attr(
    alloc: Global,
    reader: &mut Reader<'_>,
    aliases: &Aliases,
    room: u32,
) -> Result<Attr, Refused>
    ensures { Reads (spec.hash_attr aliases.now room reader.old) result reader.new }
{
    let at = reader.start();
    let name = reader.take();
    if reader.sees(TokenKind::Less) {
        return kept_attr(alloc, reader, aliases, room, name);
    }
    if has_point(name) {
        return pointed(alloc, reader, aliases, room, name);
    }
    alias_attr(alloc, reader, aliases, room, at, name)
}

/// The name of a symbol by its token.
fn symbol_name(alloc: Global, text: &[u8]) -> Result<Text, AllocError>
    ensures { IfOk result (λ t. t ≡ spec.symbol_name text.now) }
{
    match text {
        [_, b'"', ..] => string_text(alloc, &text[1..]),
        [_, name @ ..] => SharedText::from_slice(alloc, name),
        [] => Ok(SharedText::empty()),
    }
}

/// One name of a symbol reference.
#[tactic(auto, unfolding(crate::specs::Attributes::symbol))]
fn symbol(alloc: Global, reader: &mut Reader<'_>) -> Result<Text, Refused>
    ensures { Reads (spec.symbol reader.old) result reader.new }
{
    if !reader.sees(TokenKind::Symbol) {
        return Err(reader.refuse());
    }
    Ok(symbol_name(alloc, reader.take())?)
}

/// The names of a symbol reference, with `::` between.
#[tactic(auto, unfolding(crate::specs::Input::separated))]
fn symbols(alloc: Global, reader: &mut Reader<'_>) -> Result<TextList, Refused>
    ensures { Reads (separated ColonColon spec.symbol (left reader.old) [] reader.old) result reader.new }
{
    let mut found = Items::new(alloc);
    for _turn in 0..reader.left() {
        found.push(symbol(alloc, reader)?)?;
        if !reader.eat(TokenKind::ColonColon) {
            return Ok(Shared::new(alloc, found)?);
        }
    }
    Err(reader.refuse())
}

/// The name of an entry: a word or a string.
pub fn entry_name(alloc: Global, reader: &mut Reader<'_>) -> Result<Text, Refused>
    ensures { Reads (spec.entry_name reader.old) result reader.new }
{
    match reader.kind() {
        Some(TokenKind::Word) => {
            let word = reader.take();
            Ok(reader.text(alloc, word)?)
        }
        Some(TokenKind::String) => Ok(string_text(alloc, reader.take())?),
        _ => Err(reader.refuse()),
    }
}

/// An attribute that doesn't begin with a bracket of its own.
fn flat_attr(
    alloc: Global,
    reader: &mut Reader<'_>,
    aliases: &Aliases,
    room: u32,
) -> Result<Attr, Refused>
    ensures { Reads (spec.flat_by aliases.now room (kind reader.old) reader.old) result reader.new }
{
    match reader.kind() {
        Some(TokenKind::Word) => {
            let word = reader.spelling();
            word_attr(alloc, reader, aliases, room, word)
        }
        Some(TokenKind::Minus) => {
            let at = reader.start();
            reader.take();
            number(alloc, reader, aliases, room, at, true)
        }
        Some(TokenKind::Integer) | Some(TokenKind::Float) => {
            let at = reader.start();
            number(alloc, reader, aliases, room, at, false)
        }
        Some(TokenKind::String) => string(alloc, reader, aliases, room),
        Some(TokenKind::Symbol) => Ok(Attr::sym(symbols(alloc, reader)?)),
        Some(TokenKind::Hash) => hash_attr(alloc, reader, aliases, room),
        Some(TokenKind::Bang) => Ok(Attr::of_ty(bang_type(alloc, reader, aliases, room)?)),
        Some(TokenKind::LeftParen) => Ok(Attr::of_ty(ty(alloc, reader, aliases, room)?)),
        _ => Err(reader.refuse()),
    }
}

/// An attribute, where so many brackets may be opened.
#[cycle(attr)]
#[tactic(auto, using(crate::proofs::Steps::attr_is))]
pub fn attr(
    alloc: Global,
    reader: &mut Reader<'_>,
    aliases: &Aliases,
    room: u32,
) -> Result<Attr, Refused>
    ensures { Reads (spec.attr aliases.now room reader.old) result reader.new }
{
    match reader.kind() {
        Some(TokenKind::LeftBracket) => {
            if room == 0 {
                return Err(reader.fail(ModKind::TooMany));
            }
            reader.take();
            array_attr(alloc, reader, aliases, room - 1)
        }
        Some(TokenKind::LeftBrace) => {
            if room == 0 {
                return Err(reader.fail(ModKind::TooMany));
            }
            reader.take();
            dict_attr(alloc, reader, aliases, room - 1)
        }
        _ => flat_attr(alloc, reader, aliases, room),
    }
}

/// An array, behind its first bracket.
#[cycle(attr)]
#[tactic(auto, unfolding(crate::specs::Attributes::array_attr, crate::specs::Input::list))]
fn array_attr(
    alloc: Global,
    reader: &mut Reader<'_>,
    aliases: &Aliases,
    room: u32,
) -> Result<Attr, Refused>
    ensures { Reads (spec.array_attr (spec.attr aliases.now room) reader.old) result reader.new }
{
    if reader.eat(TokenKind::RightBracket) {
        return Ok(Attr::array(Shared::empty()));
    }
    let found = attr_items(alloc, reader, aliases, room)?;
    reader.expect(TokenKind::RightBracket)?;
    Ok(Attr::array(found))
}

/// Attributes with commas between.
#[cycle(attr)]
#[tactic(auto, unfolding(crate::specs::Input::separated))]
fn attr_items(
    alloc: Global,
    reader: &mut Reader<'_>,
    aliases: &Aliases,
    room: u32,
) -> Result<AttrList, Refused>
    ensures { Reads (items (spec.attr aliases.now room) reader.old) result reader.new }
{
    let mut found = Items::new(alloc);
    for _turn in 0..reader.left() {
        found.push(attr(alloc, reader, aliases, room)?)?;
        if !reader.eat(TokenKind::Comma) {
            return Ok(Shared::new(alloc, found)?);
        }
    }
    Err(reader.refuse())
}

/// A dictionary, behind its first bracket.
#[cycle(attr)]
#[tactic(auto, unfolding(crate::specs::Attributes::dict_attr, crate::specs::Attributes::dictionary))]
fn dict_attr(
    alloc: Global,
    reader: &mut Reader<'_>,
    aliases: &Aliases,
    room: u32,
) -> Result<Attr, Refused>
    ensures { Reads (spec.dict_attr (spec.attr aliases.now room) reader.old) result reader.new }
{
    if reader.eat(TokenKind::RightBrace) {
        return Ok(Attr::dict(Shared::empty()));
    }
    let found = dict_entries(alloc, reader, aliases, room)?;
    reader.expect(TokenKind::RightBrace)?;
    Ok(Attr::dict(found))
}

/// Entries with commas between.
#[cycle(attr)]
#[tactic(auto, unfolding(crate::specs::Attributes::entries))]
fn dict_entries(
    alloc: Global,
    reader: &mut Reader<'_>,
    aliases: &Aliases,
    room: u32,
) -> Result<Dict, Refused>
    ensures value { Reads (spec.all_entries (spec.attr aliases.now room) reader.old) result reader.new }
    ensures rising { IfOk result (λ d. AreRising (entry_names (entries d))) }
{
    let mut found = no_entries(alloc);
    for _turn in 0..reader.left() {
        let at = reader.start();
        let name = entry_name(alloc, reader)?;
        if has_name(&found, name.as_slice()) {
            return Err(fail_at(ModKind::DictTwice, at));
        }
        let value = entry_value(alloc, reader, aliases, room)?;
        put_entry(alloc, &mut found, name.as_slice(), value)?;
        if !reader.eat(TokenKind::Comma) {
            return Ok(in_order(alloc, found)?);
        }
    }
    Err(reader.refuse())
}

/// What stands behind an entry's name: `=` and an attribute, or nothing.
#[cycle(attr)]
#[tactic(auto, unfolding(crate::specs::Attributes::entry_value))]
pub fn entry_value(
    alloc: Global,
    reader: &mut Reader<'_>,
    aliases: &Aliases,
    room: u32,
) -> Result<Attr, Refused>
    ensures { Reads (spec.entry_value (spec.attr aliases.now room) reader.old) result reader.new }
{
    if reader.eat(TokenKind::Equal) {
        return attr(alloc, reader, aliases, room);
    }
    Ok(Attr::unit())
}

/// All of a text as one attribute, for which no alias is defined.
#[tactic(auto, unfolding(crate::specs::Attributes::attr_of))]
pub fn whole_attr(alloc: Global, bytes: &[u8]) -> Result<Attr, Refused>
    ensures { Gives result (spec.attr_of bytes.now) }
{
    let mut reader = Reader::new(alloc, bytes);
    let aliases = Aliases::new(alloc);
    let found = attr(alloc, &mut reader, &aliases, MAX_OPEN)?;
    if !reader.sees(TokenKind::End) {
        return Err(reader.refuse());
    }
    Ok(found)
}
