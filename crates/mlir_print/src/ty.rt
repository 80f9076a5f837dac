// Types.
ghost use Rattle.std.specs.Prelude.{◌≡◌, decimal, IfOk};
ghost use Rattle.mlir_tree.specs.Tree.{tys};
ghost use Rattle.rw_outside.specs.Puts.{Puts};
ghost use Rattle.mlir_print.specs.Prints.{Prints};
ghost use Rattle.mlir_print.specs.Text as spec;

use crate::latch::{outcome, put};
use crate::text_sink::TextSink;
use itoa::Buffer;
use mlir_tree::sign::Sign;
use mlir_tree::text::Text;
use mlir_tree::ty::{Ty, TyNode};
use rw_outside::{Failed, Sink};
use std::alloc::{AllocError, Global};

fn sign_text(sign: Sign) -> &'static [u8]
    ensures { result.now ≡ spec.sign_text sign }
{
    match sign {
        Sign::Signless => b"i",
        Sign::Signed => b"si",
        Sign::Unsigned => b"ui",
    }
}

pub fn put_number<S: Sink>(sink: &mut S, ok: &mut bool, number: u128)
    ensures { Prints ok.old ok.new (S.state sink.old) (S.state sink.new) (decimal number) }
{
    let mut buffer = Buffer::new();
    put(sink, ok, buffer.format(number).as_bytes());
}

#[cycle(put_ty)]
#[tactic(auto, unfolding(crate::specs::Text::ty_text))]
pub fn put_ty<S: Sink>(sink: &mut S, ok: &mut bool, ty: &Ty)
    ensures { Prints ok.old ok.new (S.state sink.old) (S.state sink.new) (spec.ty_text ty.now) }
{
    match &ty.node {
        TyNode::Int(sign, width) => {
            put(sink, ok, sign_text(*sign));
            put_number(sink, ok, u128::from(*width));
        }
        TyNode::Index => put(sink, ok, b"index"),
        TyNode::Func(inputs, results) => {
            put(sink, ok, b"(");
            put_tys(sink, ok, inputs.as_slice());
            put(sink, ok, b") -> ");
            put_results(sink, ok, results.as_slice());
        }
        TyNode::Word(text) => put(sink, ok, text.as_slice()),
    }
}

#[cycle(put_ty)]
#[tactic(auto, unfolding(crate::specs::Text::ty_text))]
fn put_tys<S: Sink>(sink: &mut S, ok: &mut bool, all: &[Ty])
    ensures { Prints ok.old ok.new (S.state sink.old) (S.state sink.new) (spec.tys_text (tys all.now)) }
{
    if all.is_empty() {
        return;
    }
    put_ty(sink, ok, &all[0]);
    let (_, more) = all.split_at(1);
    put_more_tys(sink, ok, more);
}

#[cycle(put_ty)]
#[tactic(auto, unfolding(crate::specs::Text::ty_text))]
fn put_more_tys<S: Sink>(sink: &mut S, ok: &mut bool, all: &[Ty])
    ensures { Prints ok.old ok.new (S.state sink.old) (S.state sink.new) (spec.more_tys_text (tys all.now)) }
{
    for ty in all {
        put(sink, ok, b", ");
        put_ty(sink, ok, ty);
    }
}

#[cycle(put_ty)]
#[tactic(auto, unfolding(crate::specs::Text::ty_text))]
pub fn put_results<S: Sink>(sink: &mut S, ok: &mut bool, all: &[Ty])
    ensures { Prints ok.old ok.new (S.state sink.old) (S.state sink.new) (spec.results_by (spec.stands_bare (tys all.now)) (spec.tys_text (tys all.now))) }
{
    if stands_bare(all) {
        put_tys(sink, ok, all);
        return;
    }
    put(sink, ok, b"(");
    put_tys(sink, ok, all);
    put(sink, ok, b")");
}

// Whether the results of a function type stand without parentheses.
fn stands_bare(all: &[Ty]) -> bool
    ensures { result ≡ spec.stands_bare (tys all.now) }
{
    all.len() == 1 && !is_function(&all[0])
}

fn is_function(ty: &Ty) -> bool
    ensures { result ≡ spec.is_function ty.now }
{
    matches!(&ty.node, TyNode::Func(_, _))
}

/// Prints a type (MLIR Language Reference, "Type System"). The results of a function type are one type that is no
/// function type, or a list in parentheses. It fails only where the sink's count of faults rises, and a front of the
/// text was put then.
pub fn print_ty<S: Sink>(ty: &Ty, sink: &mut S) -> Result<(), Failed>
    ensures { Puts (S.state sink.old) (S.state sink.new) result (spec.ty_text ty.now) }
{
    let mut ok = true;
    put_ty(sink, &mut ok, ty);
    outcome(ok)
}

/// The text that `print_ty` prints.
pub fn ty_text(alloc: Global, ty: &Ty) -> Result<Text, AllocError>
    ensures { IfOk result (λ text. text ≡ spec.ty_text ty.now) }
{
    let mut sink = TextSink::new(alloc);
    let printed = print_ty(ty, &mut sink);
    sink.finish(alloc, printed)
}
