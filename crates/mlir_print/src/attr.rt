// Attributes.
ghost use Rattle.std.specs.Prelude.{◌≡◌, ◌++◌, codes, decimal, IfOk};
ghost use Rattle.mlir_tree.specs.Tree.{attrs, entries};
ghost use Rattle.rw_outside.specs.Puts.{Puts};
ghost use Rattle.mlir_print.specs.Prints.{Prints};
ghost use Rattle.mlir_print.specs.Text as spec;

use crate::latch::{outcome, put};
use crate::string::{put_name, put_string};
use crate::text_sink::TextSink;
use crate::ty::{put_number, put_ty};
use mlir_tree::attr::{Attr, AttrNode};
use mlir_tree::number::Number;
use mlir_tree::sign::Sign;
use mlir_tree::text::Text;
use mlir_tree::ty::{Ty, TyNode};
use rw_outside::{Failed, Sink};
use std::alloc::{AllocError, Global};

// Whether the type is `i1`.
fn is_bit(ty: &Ty) -> bool
    ensures { result ≡ spec.is_bit ty.now }
{
    match &ty.node {
        TyNode::Int(Sign::Signless, width) => *width == 1,
        _ => false,
    }
}

fn put_negative<S: Sink>(sink: &mut S, ok: &mut bool, magnitude: u128)
    ensures { Prints ok.old ok.new (S.state sink.old) (S.state sink.new) (codes "-" ++ decimal magnitude) }
{
    put(sink, ok, b"-");
    put_number(sink, ok, magnitude);
}

fn put_signed<S: Sink>(sink: &mut S, ok: &mut bool, number: Number)
    ensures { Prints ok.old ok.new (S.state sink.old) (S.state sink.new) (spec.number_text number) }
{
    if number.neg {
        put_negative(sink, ok, number.mag);
    } else {
        put_number(sink, ok, number.mag);
    }
}

fn put_colon_ty<S: Sink>(sink: &mut S, ok: &mut bool, ty: &Ty)
    ensures { Prints ok.old ok.new (S.state sink.old) (S.state sink.new) (spec.colon_type_text ty.now) }
{
    put(sink, ok, b" : ");
    put_ty(sink, ok, ty);
}

fn put_typed<S: Sink>(sink: &mut S, ok: &mut bool, ty: &Option<Ty>)
    ensures { Prints ok.old ok.new (S.state sink.old) (S.state sink.new) (spec.typed_text ty.now) }
{
    match ty {
        None => {}
        Some(ty) => put_colon_ty(sink, ok, ty),
    }
}

fn put_bit<S: Sink>(sink: &mut S, ok: &mut bool, number: Number)
    ensures { Prints ok.old ok.new (S.state sink.old) (S.state sink.new) (spec.bit_text number) }
{
    if number.neg {
        put(sink, ok, b"true");
    } else {
        put(sink, ok, b"false");
    }
}

fn put_int<S: Sink>(sink: &mut S, ok: &mut bool, number: Number, ty: &Ty)
    ensures { Prints ok.old ok.new (S.state sink.old) (S.state sink.new) (spec.int_text number ty.now) }
{
    if is_bit(ty) {
        put_bit(sink, ok, number);
        return;
    }
    put_signed(sink, ok, number);
    put_colon_ty(sink, ok, ty);
}

fn put_more_symbols<S: Sink>(sink: &mut S, ok: &mut bool, names: &[Text])
    ensures { Prints ok.old ok.new (S.state sink.old) (S.state sink.new) (spec.more_symbols_text names.now) }
{
    for name in names {
        put(sink, ok, b"::@");
        put_name(sink, ok, name.as_slice());
    }
}

fn put_symbols<S: Sink>(sink: &mut S, ok: &mut bool, names: &[Text])
    ensures { Prints ok.old ok.new (S.state sink.old) (S.state sink.new) (spec.symbols_text names.now) }
{
    if names.is_empty() {
        return;
    }
    put(sink, ok, b"@");
    put_name(sink, ok, names[0].as_slice());
    let (_, more) = names.split_at(1);
    put_more_symbols(sink, ok, more);
}

#[cycle(put_attr)]
#[tactic(auto, unfolding(crate::specs::Text::attr_text))]
pub fn put_attr<S: Sink>(sink: &mut S, ok: &mut bool, attr: &Attr)
    ensures { Prints ok.old ok.new (S.state sink.old) (S.state sink.new) (spec.attr_text attr.now) }
{
    match &attr.node {
        AttrNode::Unit => put(sink, ok, b"unit"),
        AttrNode::Int(number, ty) => put_int(sink, ok, *number, ty),
        AttrNode::Num(text, ty) => {
            put(sink, ok, text.as_slice());
            put_colon_ty(sink, ok, ty);
        }
        AttrNode::Str(bytes, ty) => {
            put_string(sink, ok, bytes.as_slice());
            put_typed(sink, ok, ty);
        }
        AttrNode::Sym(names) => put_symbols(sink, ok, names.as_slice()),
        AttrNode::OfTy(ty) => put_ty(sink, ok, ty),
        AttrNode::Array(items) => {
            put(sink, ok, b"[");
            put_attrs(sink, ok, items.as_slice());
            put(sink, ok, b"]");
        }
        AttrNode::Dict(items) => {
            put(sink, ok, b"{");
            put_entries(sink, ok, items.as_slice());
            put(sink, ok, b"}");
        }
        AttrNode::Kept(text, ty) => {
            put(sink, ok, text.as_slice());
            put_typed(sink, ok, ty);
        }
    }
}

#[cycle(put_attr)]
#[tactic(auto, unfolding(crate::specs::Text::attr_text))]
fn put_attrs<S: Sink>(sink: &mut S, ok: &mut bool, all: &[Attr])
    ensures { Prints ok.old ok.new (S.state sink.old) (S.state sink.new) (spec.attrs_text (attrs all.now)) }
{
    if all.is_empty() {
        return;
    }
    put_attr(sink, ok, &all[0]);
    let (_, more) = all.split_at(1);
    put_more_attrs(sink, ok, more);
}

#[cycle(put_attr)]
#[tactic(auto, unfolding(crate::specs::Text::attr_text))]
fn put_more_attrs<S: Sink>(sink: &mut S, ok: &mut bool, all: &[Attr])
    ensures { Prints ok.old ok.new (S.state sink.old) (S.state sink.new) (spec.more_attrs_text (attrs all.now)) }
{
    for attr in all {
        put(sink, ok, b", ");
        put_attr(sink, ok, attr);
    }
}

fn is_unit(attr: &Attr) -> bool
    ensures { result ≡ spec.is_unit attr.now }
{
    matches!(&attr.node, AttrNode::Unit)
}

#[cycle(put_attr)]
#[tactic(auto, unfolding(crate::specs::Text::attr_text))]
fn put_entry<S: Sink>(sink: &mut S, ok: &mut bool, name: &[u8], attr: &Attr)
    ensures { Prints ok.old ok.new (S.state sink.old) (S.state sink.new) (spec.entry_by (spec.is_unit attr.now) name.now (spec.attr_text attr.now)) }
{
    put_name(sink, ok, name);
    if is_unit(attr) {
        return;
    }
    put(sink, ok, b" = ");
    put_attr(sink, ok, attr);
}

#[cycle(put_attr)]
#[tactic(auto, unfolding(crate::specs::Text::attr_text))]
pub fn put_entries<S: Sink>(sink: &mut S, ok: &mut bool, all: &[(Text, Attr)])
    ensures { Prints ok.old ok.new (S.state sink.old) (S.state sink.new) (spec.entries_text (entries all.now)) }
{
    if all.is_empty() {
        return;
    }
    let first = &all[0];
    put_entry(sink, ok, first.0.as_slice(), &first.1);
    let (_, more) = all.split_at(1);
    put_more_entries(sink, ok, more);
}

#[cycle(put_attr)]
#[tactic(auto, unfolding(crate::specs::Text::attr_text))]
fn put_more_entries<S: Sink>(sink: &mut S, ok: &mut bool, all: &[(Text, Attr)])
    ensures { Prints ok.old ok.new (S.state sink.old) (S.state sink.new) (spec.more_entries_text (entries all.now)) }
{
    for entry in all {
        put(sink, ok, b", ");
        put_entry(sink, ok, entry.0.as_slice(), &entry.1);
    }
}

/// Prints an attribute (builtin dialect, "Attributes"): an integer of type `i1` as `true` or `false`, any other number
/// in decimal with its type behind it. It fails only where the sink's count of faults rises, and a front of the text
/// was put then.
pub fn print_attr<S: Sink>(attr: &Attr, sink: &mut S) -> Result<(), Failed>
    ensures { Puts (S.state sink.old) (S.state sink.new) result (spec.attr_text attr.now) }
{
    let mut ok = true;
    put_attr(sink, &mut ok, attr);
    outcome(ok)
}

/// The text that `print_attr` prints.
pub fn attr_text(alloc: Global, attr: &Attr) -> Result<Text, AllocError>
    ensures { IfOk result (λ text. text ≡ spec.attr_text attr.now) }
{
    let mut sink = TextSink::new(alloc);
    let printed = print_attr(attr, &mut sink);
    sink.finish(alloc, printed)
}
