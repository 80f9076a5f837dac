// The lines of the steps.
ghost use Rattle.std.specs.Prelude.{decimal, codes, ◌++◌};
ghost use Rattle.std.specs.List.{flat_map};
ghost use Rattle.mlir_print.specs.Prints.{Prints};
ghost use Rattle.run_model.specs.LogText.{numbers_text, step_line, step_lines};

use crate::latch::{put, put_number, put_string};
use run_model::run::StepRec;
use rw_outside::Sink;

// Puts each number behind a comma.
fn put_more_numbers<S: Sink>(sink: &mut S, ok: &mut bool, numbers: &[u32])
    ensures { Prints ok.old ok.new (S.state sink.old) (S.state sink.new) (flat_map (λ n. codes "," ++ decimal n) numbers.now) }
{
    for number in numbers {
        put(sink, ok, b",");
        put_number(sink, ok, u64::from(*number));
    }
}

fn put_numbers<S: Sink>(sink: &mut S, ok: &mut bool, numbers: &[u32])
    ensures { Prints ok.old ok.new (S.state sink.old) (S.state sink.new) (numbers_text numbers.now) }
{
    match numbers {
        [] => put(sink, ok, b"-"),
        [first, more @ ..] => {
            put_number(sink, ok, u64::from(*first));
            put_more_numbers(sink, ok, more);
        }
    }
}

fn put_step<S: Sink>(sink: &mut S, ok: &mut bool, count: usize, step: &StepRec)
    ensures { Prints ok.old ok.new (S.state sink.old) (S.state sink.new) (step_line count step.now) }
{
    put(sink, ok, b"step ");
    put_number(sink, ok, count as u64);
    put(sink, ok, b" pattern ");
    put_number(sink, ok, u64::from(step.pattern));
    put(sink, ok, b" ");
    put_string(sink, ok, step.name.as_slice());
    put(sink, ok, b" root ");
    put_number(sink, ok, u64::from(step.root));
    put(sink, ok, b" made ");
    put_numbers(sink, ok, step.made.as_slice());
    put(sink, ok, b" removed ");
    put_numbers(sink, ok, step.removed.as_slice());
    put(sink, ok, b"\n");
}

// Puts the lines of the steps, counted from 1.
pub fn put_steps<S: Sink>(sink: &mut S, ok: &mut bool, steps: &[StepRec])
    ensures { Prints ok.old ok.new (S.state sink.old) (S.state sink.new) (step_lines 1 steps.now) }
{
    for (i, step) in steps.iter().enumerate() {
        put_step(sink, ok, i + 1, step);
    }
}
