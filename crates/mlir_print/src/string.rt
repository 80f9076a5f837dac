// Strings between quotes, and names.
ghost use Rattle.std.specs.Prelude.{◌≡◌, ◌<◌, ◌≤◌, length, take, IfOk};
ghost use Rattle.std.specs.List.{flat_map, list_all};
ghost use Rattle.rw_outside.specs.Puts.{Puts};
ghost use Rattle.mlir_print.specs.Prints.{Prints};
ghost use Rattle.mlir_print.specs.Text as spec;
ghost use Rattle.text_scan.specs.Bytes as spec_bytes;

use crate::latch::{outcome, put};
use crate::text_sink::TextSink;
use mlir_tree::text::Text;
use rw_outside::{Failed, Sink};
use std::alloc::{AllocError, Global};
use text_scan::bytes::{is_word_byte, is_word_start};

// The upper case hexadecimal digit of this value.
fn hex_digit(value: u8) -> u8
    requires { value < 16 }
    ensures { result ≡ spec.hex_digit value }
{
    if value < 10 {
        b'0' + value
    } else {
        b'A' + (value - 10)
    }
}

fn put_byte<S: Sink>(sink: &mut S, ok: &mut bool, b: u8)
    ensures { Prints ok.old ok.new (S.state sink.old) (S.state sink.new) (spec.byte_text b) }
{
    if b == b'\\' {
        put(sink, ok, b"\\\\");
    } else if b' ' <= b && b <= b'~' && b != b'"' {
        put(sink, ok, &[b]);
    } else {
        put(sink, ok, &[b'\\', hex_digit(b / 16), hex_digit(b % 16)]);
    }
}

// Whether the byte is itself inside a string.
fn is_plain(b: u8) -> bool
    ensures { result ≡ spec.is_plain b }
{
    b != b'\\' && b' ' <= b && b <= b'~' && b != b'"'
}

// How many bytes at the front are themselves inside a string.
fn plain_len(bytes: &[u8]) -> usize
    ensures themselves { flat_map spec.byte_text (take result bytes.now) ≡ take result bytes.now }
    ensures within { result ≤ length bytes.now }
{
    let mut len = 0;
    while len < bytes.len() && is_plain(bytes[len]) {
        len += 1;
    }
    len
}

// Puts the bytes at the front that are themselves, and the byte behind them. It gives how many these are.
fn put_run<S: Sink>(sink: &mut S, ok: &mut bool, bytes: &[u8]) -> usize
    requires { 0 < length bytes.now }
    ensures text { Prints ok.old ok.new (S.state sink.old) (S.state sink.new) (flat_map spec.byte_text (take result bytes.now)) }
    ensures some { 0 < result }
    ensures within { result ≤ length bytes.now }
{
    let len = plain_len(bytes);
    put(sink, ok, &bytes[..len]);
    if len == bytes.len() {
        return len;
    }
    put_byte(sink, ok, bytes[len]);
    len + 1
}

fn put_bytes<S: Sink>(sink: &mut S, ok: &mut bool, bytes: &[u8])
    ensures { Prints ok.old ok.new (S.state sink.old) (S.state sink.new) (flat_map spec.byte_text bytes.now) }
{
    let mut at = 0;
    while at < bytes.len() {
        at += put_run(sink, ok, &bytes[at..]);
    }
}

pub fn put_string<S: Sink>(sink: &mut S, ok: &mut bool, bytes: &[u8])
    ensures { Prints ok.old ok.new (S.state sink.old) (S.state sink.new) (spec.string_text bytes.now) }
{
    put(sink, ok, b"\"");
    put_bytes(sink, ok, bytes);
    put(sink, ok, b"\"");
}

fn are_word_bytes(bytes: &[u8]) -> bool
    ensures { result ≡ list_all spec_bytes.is_word_byte bytes.now }
{
    for b in bytes {
        if !is_word_byte(*b) {
            return false;
        }
    }
    true
}

// Whether the name is a word.
fn is_bare(name: &[u8]) -> bool
    ensures { result ≡ spec.is_bare name.now }
{
    match name {
        [] => false,
        [first, rest @ ..] => is_word_start(*first) && are_word_bytes(rest),
    }
}

#[tactic(auto, unfolding(crate::specs::Text::name_text))]
pub fn put_name<S: Sink>(sink: &mut S, ok: &mut bool, name: &[u8])
    ensures { Prints ok.old ok.new (S.state sink.old) (S.state sink.new) (spec.name_text name.now) }
{
    if is_bare(name) {
        put(sink, ok, name);
    } else {
        put_string(sink, ok, name);
    }
}

/// Prints the bytes as a string between quotes: a printable byte as itself, a backslash as two, and each other byte as
/// a backslash and two hexadecimal digits (MLIR Language Reference, "Common syntax": `string-literal`). It fails only
/// where the sink's count of faults rises, and a front of the text was put then.
pub fn print_string<S: Sink>(bytes: &[u8], sink: &mut S) -> Result<(), Failed>
    ensures { Puts (S.state sink.old) (S.state sink.new) result (spec.string_text bytes.now) }
{
    let mut ok = true;
    put_string(sink, &mut ok, bytes);
    outcome(ok)
}

/// The text that `print_string` prints.
pub fn string_text(alloc: Global, bytes: &[u8]) -> Result<Text, AllocError>
    ensures { IfOk result (λ text. text ≡ spec.string_text bytes.now) }
{
    let mut sink = TextSink::new(alloc);
    let printed = print_string(bytes, &mut sink);
    sink.finish(alloc, printed)
}
