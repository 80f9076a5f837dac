// The line that says how a run ended.
ghost use Rattle.std.specs.Prelude.{◌≡◌};
ghost use Rattle.mlir_print.specs.Prints.{Prints};
ghost use Rattle.rewrite_model.specs.declared.run.Ending.TheVariants as endings;
ghost use Rattle.rewrite_model.specs.declared.run.Break.TheVariants.{BadUse};
ghost use Rattle.run_model.specs.LogText as spec;

use crate::latch::{put, put_number};
use rewrite_model::run::{BoundKind, Break, Broken, Ending, Hit};
use rw_outside::Sink;

fn put_bad_use<S: Sink>(sink: &mut S, ok: &mut bool, row: u32, place: u16)
    ensures { Prints ok.old ok.new (S.state sink.old) (S.state sink.new) (spec.break_text (BadUse row place)) }
{
    put(sink, ok, b"bad-use row ");
    put_number(sink, ok, u64::from(row));
    put(sink, ok, b" place ");
    put_number(sink, ok, u64::from(place));
}

fn put_break<S: Sink>(sink: &mut S, ok: &mut bool, why: Break)
    ensures { Prints ok.old ok.new (S.state sink.old) (S.state sink.new) (spec.break_text why) }
{
    match why {
        Break::Gone => put(sink, ok, b"gone"),
        Break::Count => put(sink, ok, b"count"),
        Break::Types => put(sink, ok, b"types"),
        Break::Top => put(sink, ok, b"top"),
        Break::NativeRefused => put(sink, ok, b"native-refused"),
        Break::BadUse(row, place) => put_bad_use(sink, ok, row, place),
    }
}

fn bound_text(kind: BoundKind) -> &'static [u8]
    ensures { result.now ≡ spec.bound_text kind }
{
    match kind {
        BoundKind::Rewrites => b"rewrites",
        BoundKind::RowLimit => b"rows",
        BoundKind::SlotLimit => b"slots",
    }
}

// Puts where the next step would be.
fn put_place<S: Sink>(sink: &mut S, ok: &mut bool, pattern: u32, root: u32)
    ensures { Prints ok.old ok.new (S.state sink.old) (S.state sink.new) (spec.place_text pattern root) }
{
    put(sink, ok, b" pattern ");
    put_number(sink, ok, u64::from(pattern));
    put(sink, ok, b" root ");
    put_number(sink, ok, u64::from(root));
}

fn put_converged<S: Sink>(sink: &mut S, ok: &mut bool, count: usize)
    ensures { Prints ok.old ok.new (S.state sink.old) (S.state sink.new) (spec.ending_line count endings.Converged) }
{
    put(sink, ok, b"end converged steps ");
    put_number(sink, ok, count as u64);
    put(sink, ok, b"\n");
}

fn put_bound<S: Sink>(sink: &mut S, ok: &mut bool, count: usize, kind: BoundKind, hit: Hit)
    ensures { Prints ok.old ok.new (S.state sink.old) (S.state sink.new) (spec.ending_line count (endings.Bound kind hit)) }
{
    put(sink, ok, b"end bound ");
    put(sink, ok, bound_text(kind));
    put(sink, ok, b" steps ");
    put_number(sink, ok, count as u64);
    put_place(sink, ok, hit.pattern, hit.row);
    put(sink, ok, b"\n");
}

fn put_broken<S: Sink>(sink: &mut S, ok: &mut bool, count: usize, broken: Broken)
    ensures { Prints ok.old ok.new (S.state sink.old) (S.state sink.new) (spec.ending_line count (endings.Broken broken)) }
{
    put(sink, ok, b"end broken steps ");
    put_number(sink, ok, count as u64);
    put_place(sink, ok, broken.pattern, broken.root);
    put(sink, ok, b" ");
    put_break(sink, ok, broken.why);
    put(sink, ok, b"\n");
}

// Puts how a run of so many steps ended.
pub fn put_ending<S: Sink>(sink: &mut S, ok: &mut bool, count: usize, ending: Ending)
    ensures { Prints ok.old ok.new (S.state sink.old) (S.state sink.new) (spec.ending_line count ending) }
{
    match ending {
        Ending::Converged => put_converged(sink, ok, count),
        Ending::Bound(kind, hit) => put_bound(sink, ok, count, kind, hit),
        Ending::Broken(broken) => put_broken(sink, ok, count, broken),
    }
}
