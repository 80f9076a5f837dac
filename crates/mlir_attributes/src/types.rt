//! Types.

ghost use Rattle.std.specs.Prelude.{◌≡◌, ◌≤◌, ◌<◌, ◌+◌, ◌-◌, ◌^◌, ◌∷◌, [], length, slice_index, IfOk, Ok, Some, true, option_map};
ghost use Rattle.std.specs.List.{list_all};
ghost use Rattle.text_scan.specs.Bytes as bytes;
ghost use Rattle.mlir_tree.specs.Tree.{tys};
ghost use Rattle.mlir_lexer.specs.declared.token.TokenKind.TheVariants.{RightParen};
ghost use Rattle.mlir_attributes.specs.Input.{Reads, Gives, list, items};
ghost use Rattle.mlir_attributes.specs.Types as spec;

use crate::aliases::{Aliases, Meaning, has_point};
use crate::fault::ModKind;
use crate::numbers::magnitude;
use crate::reader::{MAX_OPEN, Reader, Refused, fail_at, room_for_one};
use mlir_lexer::TokenKind;
use mlir_tree::sign::Sign;
use mlir_tree::ty::{Ty, TyList};
use shared_list::Shared;
use shared_text::SharedText;
use std::alloc::{AllocError, Global};
use text_scan::bytes::is_digit;

/// The widest integer type.
const MAX_WIDTH: u128 = 16_777_215;

pub fn is_kept_word(word: &[u8]) -> bool
    ensures { result ≡ spec.is_kept_word word.now }
{
    word == b"affine_map".as_slice()
        || word == b"affine_set".as_slice()
        || word == b"array".as_slice()
        || word == b"dense".as_slice()
        || word == b"dense_resource".as_slice()
        || word == b"opaque".as_slice()
        || word == b"sparse".as_slice()
        || word == b"strided".as_slice()
}

/// Whether the word begins no type.
pub fn is_other_word(word: &[u8]) -> bool
    ensures { result ≡ spec.is_other_word word.now }
{
    word == b"unit".as_slice()
        || word == b"true".as_slice()
        || word == b"false".as_slice()
        || word == b"loc".as_slice()
        || is_kept_word(word)
}

fn are_digits(text: &[u8]) -> bool
    ensures { result ≡ list_all bytes.is_digit text.now }
{
    text.iter().all(|b| is_digit(*b))
}

/// Whether the text is the width of an integer type: digits, with no leading zero.
fn is_width(text: &[u8]) -> bool
    ensures { result ≡ spec.is_width text.now }
{
    match text {
        [] => false,
        [first, rest @ ..] => are_digits(text) && (*first != b'0' || rest.len() <= 0),
    }
}

/// The sign of an integer type by its word, and the digits of its width.
fn int_word(word: &[u8]) -> Option<(Sign, &[u8])>
    ensures { option_map (λ i. (i.0, i.1.now)) result ≡ spec.int_word word.now }
{
    match word {
        [b'i', width @ ..] if is_width(width) => Some((Sign::Signless, width)),
        [b's', b'i', width @ ..] if is_width(width) => Some((Sign::Signed, width)),
        [b'u', b'i', width @ ..] if is_width(width) => Some((Sign::Unsigned, width)),
        _ => None,
    }
}

/// The type of a word without a body, which stands at `at`.
#[tactic(auto, unfolding(crate::specs::Types::leaf))]
fn leaf(alloc: Global, at: usize, word: &[u8]) -> Result<Ty, Refused>
    ensures { Gives result (spec.leaf at word.now) }
{
    if let Some((sign, width)) = int_word(word) {
        return match magnitude(10, width) {
            Some(width) if width <= MAX_WIDTH => Ok(Ty::int(sign, width as u32)),
            _ => Err(fail_at(ModKind::WideInt, at)),
        };
    }
    if word == b"index".as_slice() {
        return Ok(Ty::index());
    }
    Ok(Ty::word(SharedText::from_slice(alloc, word)?))
}

/// The type that an alias stands for, whose use is at `at`.
#[tactic(auto, unfolding(crate::specs::Types::alias_ty))]
fn alias_ty(
    alloc: Global,
    reader: &mut Reader<'_>,
    aliases: &Aliases,
    room: u32,
    at: usize,
    name: &[u8],
) -> Result<Ty, Refused>
    ensures { Reads (spec.alias_ty aliases.now room at name.now reader.old) result reader.new }
{
    let Some(alias) = aliases.find(name) else {
        return Err(fail_at(ModKind::AliasUnknown, at));
    };
    let Meaning::Ty(ty) = &alias.meaning else {
        return Err(fail_at(ModKind::AliasUnknown, at));
    };
    if !reader.put_in(alias, room) {
        return Err(fail_at(ModKind::TooMany, at));
    }
    Ok(ty.copy(alloc)?)
}

/// The type that begins with a word.
#[tactic(auto, using(crate::proofs::Steps::lifted), unfolding(crate::specs::Types::word_type))]
pub fn word_type(
    alloc: Global,
    reader: &mut Reader<'_>,
    aliases: &Aliases,
    room: u32,
) -> Result<Ty, Refused>
    ensures { Reads (spec.word_type aliases.now room reader.old) result reader.new }
{
    let at = reader.start();
    let word = reader.take();
    if is_other_word(word) {
        return Err(fail_at(ModKind::Syntax, at));
    }
    if reader.sees(TokenKind::Less) {
        return Ok(Ty::word(reader.kept(alloc, aliases, word, room)?));
    }
    leaf(alloc, at, word)
}

/// The type that begins with `!` and a name.
#[tactic(auto, unfolding(crate::specs::Types::bang_type))]
pub fn bang_type(
    alloc: Global,
    reader: &mut Reader<'_>,
    aliases: &Aliases,
    room: u32,
) -> Result<Ty, Refused>
    ensures { Reads (spec.bang_type aliases.now room reader.old) result reader.new }
{
    let at = reader.start();
    let name = reader.take();
    if reader.sees(TokenKind::Less) {
        return Ok(Ty::word(reader.kept(alloc, aliases, name, room)?));
    }
    if has_point(name) {
        return Ok(Ty::word(SharedText::from_slice(alloc, name)?));
    }
    alias_ty(alloc, reader, aliases, room, at, name)
}

fn one(alloc: Global, ty: Ty) -> Result<TyList, AllocError>
    ensures { IfOk result (λ all. all ≡ ty ∷ []) }
{
    let mut all = room_for_one(alloc)?;
    all.push(ty)?;
    Shared::new(alloc, all)
}

/// A type, where so many brackets may be opened.
#[cycle(ty)]
#[tactic(auto, using(crate::proofs::Steps::ty_is))]
pub fn ty(
    alloc: Global,
    reader: &mut Reader<'_>,
    aliases: &Aliases,
    room: u32,
) -> Result<Ty, Refused>
    ensures { Reads (spec.ty aliases.now room reader.old) result reader.new }
{
    match reader.kind() {
        Some(TokenKind::LeftParen) => {
            if room == 0 {
                return Err(reader.fail(ModKind::TooMany));
            }
            reader.take();
            function(alloc, reader, aliases, room - 1)
        }
        Some(TokenKind::Word) => word_type(alloc, reader, aliases, room),
        Some(TokenKind::Bang) => bang_type(alloc, reader, aliases, room),
        _ => Err(reader.refuse()),
    }
}

/// A function type, behind its first bracket, within which so many brackets may be opened.
#[cycle(ty)]
#[tactic(auto, unfolding(crate::specs::Types::function))]
fn function(
    alloc: Global,
    reader: &mut Reader<'_>,
    aliases: &Aliases,
    room: u32,
) -> Result<Ty, Refused>
    requires { room < 2 ^ 32 - 1 }
    ensures { Reads (spec.function aliases.now (room + 1) (spec.ty aliases.now room) reader.old) result reader.new }
{
    let from = ty_list(alloc, reader, aliases, room)?;
    reader.expect(TokenKind::Arrow)?;
    let to = match reader.kind() {
        Some(TokenKind::LeftParen) => {
            reader.take();
            ty_list(alloc, reader, aliases, room)?
        }
        Some(TokenKind::Word) => one(alloc, word_type(alloc, reader, aliases, room + 1)?)?,
        Some(TokenKind::Bang) => one(alloc, bang_type(alloc, reader, aliases, room + 1)?)?,
        _ => return Err(reader.refuse()),
    };
    Ok(Ty::func(from, to))
}

/// Types with commas between, and the closing bracket.
#[cycle(ty)]
#[tactic(auto, unfolding(crate::specs::Input::list))]
fn ty_list(
    alloc: Global,
    reader: &mut Reader<'_>,
    aliases: &Aliases,
    room: u32,
) -> Result<TyList, Refused>
    ensures { Reads (list RightParen (spec.ty aliases.now room) reader.old) result reader.new }
{
    if reader.eat(TokenKind::RightParen) {
        return Ok(Shared::empty());
    }
    let found = ty_items(alloc, reader, aliases, room)?;
    reader.expect(TokenKind::RightParen)?;
    Ok(found)
}

#[cycle(ty)]
#[tactic(auto, unfolding(crate::specs::Input::separated))]
fn ty_items(
    alloc: Global,
    reader: &mut Reader<'_>,
    aliases: &Aliases,
    room: u32,
) -> Result<TyList, Refused>
    ensures { Reads (items (spec.ty aliases.now room) reader.old) result reader.new }
{
    let mut found = room_for_one(alloc)?;
    for _turn in 0..reader.left() {
        found.push(ty(alloc, reader, aliases, room)?)?;
        if !reader.eat(TokenKind::Comma) {
            return Ok(reader.types(alloc, found)?);
        }
    }
    Err(reader.refuse())
}

/// All of a text as one type, for which no alias is defined.
#[tactic(auto, unfolding(crate::specs::Types::type_of))]
pub fn whole_ty(alloc: Global, bytes: &[u8]) -> Result<Ty, Refused>
    ensures { Gives result (spec.type_of bytes.now) }
{
    let mut reader = Reader::new(alloc, bytes);
    let aliases = Aliases::new(alloc);
    let found = ty(alloc, &mut reader, &aliases, MAX_OPEN)?;
    if !reader.sees(TokenKind::End) {
        return Err(reader.refuse());
    }
    Ok(found)
}
