// Putting one piece behind another: nothing more is put once a call of the sink failed.
ghost use Rattle.std.specs.Prelude.{◌≡◌};
ghost use Rattle.mlir_print.specs.Prints.{Prints, outcome_of};

use rw_outside::{Failed, Sink, put_all};

// Puts the piece, unless a call failed before.
pub fn put<S: Sink>(sink: &mut S, ok: &mut bool, piece: &[u8])
    ensures { Prints ok.old ok.new (S.state sink.old) (S.state sink.new) piece.now }
{
    if *ok {
        *ok = put_all(sink, piece).is_ok();
    }
}

// What a call answers that has put its pieces.
pub fn outcome(ok: bool) -> Result<(), Failed>
    ensures { result ≡ outcome_of ok }
{
    if ok { Ok(()) } else { Err(Failed) }
}
