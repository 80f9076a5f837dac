//! Calls of `mlir_parse` and `mlir_resolve`, which give the module that other calls are made on.

ghost use Rattle.std.specs.Prelude.{IfOk};
ghost use Rattle.mlir_tree.specs.WellFormed.{IsWellFormed};

use call_answers::Answers;
use mlir_parse::parse_module;
use mlir_resolve::resolve;
use mlir_tree::rows::Rows;
use std::alloc::{AllocError, Global};

const MODULE: &[u8] = b"#map = affine_map<(d0) -> (d0 + 1)>
\"builtin.module\"() ({
  \"func.func\"() <{function_type = (i32) -> i32, sym_name = \"f\", sym_visibility = \"private\"}> ({
  }) : () -> () loc(#loc1)
  %0 = \"arith.constant\"() <{value = dense<[1, 2]> : tensor<2xi32>}> : () -> tensor<2xi32>
  \"t.m\"(%0) {map = #map, t = memref<4xf32, #map>} : (tensor<2xi32>) -> ()
}) : () -> ()
#loc1 = loc(\"x.mlir\":1:1)
";

/// The rows of the module. They end the program where the text spells none, as want of memory does.
pub fn module(alloc: Global) -> Result<Rows, AllocError>
    ensures { IfOk result (λ m. IsWellFormed m) }
{
    let Ok(file) = parse_module(alloc, MODULE) else {
        return Err(AllocError);
    };
    match resolve(alloc, &file) {
        Ok(rows) => Ok(rows),
        Err(_) => Err(AllocError),
    }
}

fn tell_refused(answers: &mut Answers, call: &str, text: &[u8]) -> Result<(), AllocError> {
    match parse_module(answers.alloc, text) {
        Ok(file) => match resolve(answers.alloc, &file) {
            Ok(_) => answers.tell(call, b"rows"),
            Err(refusal) => answers.tell_value(call, &refusal),
        },
        Err(refusal) => answers.tell_value(call, &refusal),
    }
}

pub fn tell(answers: &mut Answers) -> Result<(), AllocError> {
    let rows = module(answers.alloc)?;
    answers.tell_value("resolve(the module), rows", &rows.rows.len())?;
    answers.tell_value("resolve(the module), next number", &rows.next)?;
    tell_refused(
        answers,
        "resolve(t.a uses %0)",
        b"\"t.a\"(%0) : (i32) -> ()",
    )
}
