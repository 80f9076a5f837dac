// Putting one piece behind another: nothing more is put once a call of the sink failed.
ghost use Rattle.std.specs.Prelude.{◌≡◌, decimal};
ghost use Rattle.mlir_print.specs.Prints.{Prints, outcome_of};
ghost use Rattle.mlir_print.specs.Text.{string_text};

use itoa::Buffer;
use mlir_print::print_string;
use rw_outside::{Failed, Sink, put_all};

// Puts the piece, unless a call failed before.
pub fn put<S: Sink>(sink: &mut S, ok: &mut bool, piece: &[u8])
    ensures { Prints ok.old ok.new (S.state sink.old) (S.state sink.new) piece.now }
{
    if *ok {
        *ok = put_all(sink, piece).is_ok();
    }
}

// Puts the bytes as a string between quotes, unless a call failed before.
pub fn put_string<S: Sink>(sink: &mut S, ok: &mut bool, bytes: &[u8])
    ensures { Prints ok.old ok.new (S.state sink.old) (S.state sink.new) (string_text bytes.now) }
{
    if *ok {
        *ok = print_string(bytes, sink).is_ok();
    }
}

pub fn put_number<S: Sink>(sink: &mut S, ok: &mut bool, number: u64)
    ensures { Prints ok.old ok.new (S.state sink.old) (S.state sink.new) (decimal number) }
{
    let mut buffer = Buffer::new();
    put(sink, ok, buffer.format(number).as_bytes());
}

// What a call answers that has put its pieces.
pub fn outcome(ok: bool) -> Result<(), Failed>
    ensures { result ≡ outcome_of ok }
{
    if ok { Ok(()) } else { Err(Failed) }
}
