//! The text of a kept body, in which aliases are replaced by their printed text.

ghost use Rattle.std.specs.Prelude.{◌≡◌, ◌≤◌, ◌++◌, ◌+◌, length, reverse, slice_index, drop, take, Some, false, IfOk, IfErr, OnOk, [], option_copied};
ghost use Rattle.mlir_lexer.specs.Body as bodies;
ghost use Rattle.mlir_lexer.specs.Scan as scan;
ghost use Rattle.mlir_attributes.specs.KeptText as spec;
ghost use Rattle.mlir_attributes.specs.Aliases as alias_spec;

use crate::aliases::{Alias, Aliases, Meaning, has_point};
use crate::reader::MAX_PUT;
use mlir_lexer::body::{Effect, closer_of, effect_of};
use std::alloc::{AllocError, Global};
use text_scan::bytes::{Class, is_digit, is_word_start, run_len};
use text_scan::strings::string_end;

fn byte_at(bytes: &[u8], at: usize) -> u8
    ensures { result ≡ slice_index bytes.now at }
{
    if at < bytes.len() { bytes[at] } else { 0 }
}

/// The length of the longest suffix at the front, or 0.
fn suffix_len(text: &[u8]) -> usize
    ensures value { result ≡ scan.suffix_len text.now }
    ensures within { result ≤ length text.now }
{
    let [first, ..] = text else {
        return 0;
    };
    let b = *first;
    if is_digit(b) {
        1 + run_len(text, 1, Class::Digit)
    } else if is_word_start(b) || b == b'$' || b == b'.' || b == b'-' {
        1 + run_len(text, 1, Class::Suffix)
    } else {
        0
    }
}

/// Whether a name of this length may be an alias that is used there.
fn may_be_used(text: &[u8], len: usize) -> bool
    requires { len ≤ length text.now }
    ensures { result ≡ spec.may_be_used text.now len }
{
    len > 0
        && !has_point(&text[..len])
        && !(byte_at(text, len - 1) == b'-')
        && !(byte_at(text, len) == b'<')
}

fn is_location(meaning: &Meaning) -> bool
    ensures { result ≡ spec.is_location meaning.now }
{
    matches!(meaning, Meaning::Location)
}

/// The definition of this name, unless it is a location.
fn find_text<'t>(aliases: &'t Aliases, name: &[u8]) -> Option<&'t Alias>
    ensures { option_copied result ≡ spec.unless_location (alias_spec.find name.now aliases.now) }
{
    let alias = aliases.find(name)?;
    if is_location(&alias.meaning) {
        None
    } else {
        Some(alias)
    }
}

fn is_mark(b: u8) -> bool
    ensures { result ≡ spec.is_mark b }
{
    b == b'#' || b == b'!'
}

/// The alias whose name stands at the front of this part of a body.
#[tactic(auto, unfolding(crate::specs::KeptText::used_at))]
fn used_at<'t>(aliases: &'t Aliases, text: &[u8]) -> Option<&'t Alias>
    ensures { option_copied result ≡ spec.used_at aliases.now text.now }
{
    let [mark, rest @ ..] = text else {
        return None;
    };
    if !is_mark(*mark) {
        return None;
    }
    let len = suffix_len(rest);
    if !may_be_used(rest, len) {
        return None;
    }
    find_text(aliases, &text[..1 + len])
}

/// Puts an alias's text, and a space behind one that ends in `-`.
fn put_alias(text: &mut Vec<u8>, alias: &Alias) -> Result<(), AllocError>
    ensures { OnOk result (text.new.items ≡ text.old.items ++ spec.put_text alias.now) }
{
    let bytes = alias.text.as_slice();
    text.extend_from_slice(bytes)?;
    if bytes.len() > 0 && bytes[bytes.len() - 1] == b'-' {
        text.push(b' ')?;
    }
    Ok(())
}

/// Whether an alias's text may stand where so many brackets may be opened, so many are open, and so much was put in.
fn fits(room: u32, alias: &Alias, count: usize, put: usize) -> bool
    requires { put ≤ 67108864 }
    ensures { result ≡ spec.fits room alias.now count put }
{
    count <= room as usize
        && alias.brackets <= room as usize - count
        && alias.text.len() <= MAX_PUT - put
}

/// What closes each open bracket, the innermost last, behind one more byte.
fn pass_byte(closers: &mut Vec<u8>, b: u8, next: u8, dash: bool) -> Result<(), AllocError>
    ensures { OnOk result (reverse closers.new.items ≡ spec.closers_after (bodies.effect_of b next dash (bodies.innermost (reverse closers.old.items))) b (reverse closers.old.items)) }
{
    let innermost = closers.last().copied().unwrap_or(0);
    match effect_of(b, next, dash, innermost) {
        Effect::Opens => closers.push(closer_of(b))?,
        Effect::Closes => {
            closers.pop();
        }
        Effect::Fails | Effect::Passes => {}
    }
    Ok(())
}

/// The text of a body with its aliases replaced, and how much was put in by then, or the place of the alias that passes a limit.
pub fn names(
    alloc: Global,
    aliases: &Aliases,
    body: &[u8],
    room: u32,
    put: usize,
) -> Result<Result<(Vec<u8>, usize), usize>, AllocError>
    requires { put ≤ 67108864 }
    ensures value { IfOk result (λ r. spec.seen r ≡ spec.names aliases.now room [] false 0 put 0 body.now) }
    ensures few { IfOk result (λ r. IfOk r (λ p. p.1 ≤ 67108864)) }
    ensures within { IfOk result (λ r. IfErr r (λ i. i ≤ length body.now)) }
{
    let mut text = Vec::new(alloc);
    let mut closers = Vec::new(alloc);
    let mut put = put;
    let mut dash = false;
    let mut i = 0;
    while i < body.len() {
        let b = body[i];
        if b == b'"' {
            let Some(end) = string_end(body, i) else {
                break;
            };
            text.extend_from_slice(&body[i..end])?;
            dash = false;
            i = end;
            continue;
        }
        if let Some(alias) = used_at(aliases, &body[i..]) {
            if !fits(room, alias, closers.len(), put) {
                return Ok(Err(i));
            }
            put_alias(&mut text, alias)?;
            put += alias.text.len();
            dash = false;
            i += 1 + suffix_len(&body[i + 1..]);
            continue;
        }
        pass_byte(&mut closers, b, byte_at(body, i + 1), dash)?;
        text.push(b)?;
        dash = b == b'-';
        i += 1;
    }
    Ok(Ok((text, put)))
}
