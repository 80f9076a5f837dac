//! Runs in either order.

ghost use Rattle.std.specs.Prelude.{IfOk};
ghost use Rattle.mlir_tree.specs.WellFormed.{IsWellFormed};

use crate::spelling::patterns;
use call_answers::Answers;
use greedy_driver::{Order, drive_rows};
use mlir_parse::parse_module;
use mlir_resolve::resolve;
use mlir_tree::rows::Rows;
use pdll_types::check;
use run_log::put_log;
use rw_outside::MemSink;
use std::alloc::{AllocError, Global};

const ERASE: &[u8] = b"Pattern A => erase op<t.a>;";

const TWO: &[u8] = b"\"t.a\"() : () -> ()\n\"t.a\"() : () -> ()\n";

const SEGMENTS: &[u8] = b"Pattern Seg {
  let root = op<t.s>(a: ValueRange, b: ValueRange);
  replace root with op<t.pair>(b, a);
}";

const ONE_AND_TWO: &[u8] = b"%0:3 = \"t.src\"() : () -> (i32, i32, i32)
%1 = \"t.s\"(%0#0, %0#1, %0#2) <{operandSegmentSizes = array<i32: 1, 2>}> : (i32, i32, i32) -> i32
";

// The module that the text spells. A text that spells none ends the program, as want of memory does.
fn rows(alloc: Global, text: &[u8]) -> Result<Rows, AllocError>
    ensures { IfOk result (λ m. IsWellFormed m) }
{
    if text.len() > 1000 {
        return Err(AllocError);
    }
    let Ok(file) = parse_module(alloc, text) else {
        return Err(AllocError);
    };
    match resolve(alloc, &file) {
        Ok(rows) => Ok(rows),
        Err(_) => Err(AllocError),
    }
}

fn tell_run(
    answers: &mut Answers,
    call: &str,
    texts: (&[u8], &[u8]),
    order: Order,
) -> Result<(), AllocError> {
    let file = patterns(answers.alloc, texts.0)?;
    let Ok(typed) = check(answers.alloc, &file) else {
        return Err(AllocError);
    };
    let mut rows = rows(answers.alloc, texts.1)?;
    let run = drive_rows(answers.alloc, &mut rows, &typed, order, 1)?;
    let mut sink = MemSink::new(answers.alloc, 1000)?;
    answers.tell_value(call, &put_log(&run, &mut sink))?;
    answers.tell("MemSink::bytes()", sink.bytes())
}

pub fn tell(answers: &mut Answers) -> Result<(), AllocError> {
    let erased = (ERASE, TWO);
    tell_run(
        answers,
        "put_log(drive_rows(two t.a, First, 1))",
        erased,
        Order::First,
    )?;
    tell_run(
        answers,
        "put_log(drive_rows(two t.a, Last, 1))",
        erased,
        Order::Last,
    )?;
    let parted = (SEGMENTS, ONE_AND_TWO);
    tell_run(
        answers,
        "put_log(drive_rows(t.s of 1 and 2, First, 1))",
        parted,
        Order::First,
    )
}
