// The whole log.
ghost use Rattle.mlir_print.specs.Prints.{Prints};
ghost use Rattle.rw_outside.specs.Puts.{Puts};
ghost use Rattle.run_model.specs.LogText as spec;

use crate::ending::put_ending;
use crate::latch::{outcome, put};
use crate::step::put_steps;
use run_model::run::Run;
use rw_outside::{Failed, Sink};

fn put_header<S: Sink>(sink: &mut S, ok: &mut bool)
    ensures { Prints ok.old ok.new (S.state sink.old) (S.state sink.new) spec.header }
{
    put(sink, ok, b"pdllrw-log 1\n");
}

/// Puts the log of a run. It takes no memory. It fails only where the sink's count of faults rises, and a front of the
/// text was put then.
pub fn put_log<S: Sink>(run: &Run, sink: &mut S) -> Result<(), Failed>
    ensures { Puts (S.state sink.old) (S.state sink.new) result (spec.log_text run.now.taken run.now.ending) }
{
    let mut ok = true;
    put_header(sink, &mut ok);
    put_steps(sink, &mut ok, run.taken.as_slice());
    put_ending(sink, &mut ok, run.taken.len(), run.ending);
    outcome(ok)
}
