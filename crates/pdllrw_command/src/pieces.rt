// Writes pieces of a line.
ghost use Rattle.std.specs.Prelude.{map};
ghost use Rattle.std.specs.List.{concat};
ghost use Rattle.rw_outside.specs.Puts.{Puts};

use rw_outside::{Failed, Sink, put_all};

// Puts these pieces one behind another.
pub fn put_pieces<S: Sink>(sink: &mut S, pieces: &[&[u8]]) -> Result<(), Failed>
    ensures { Puts (S.state sink.old) (S.state sink.new) result (concat (map (λ p. p.now) pieces.now)) }
{
    for piece in pieces {
        put_all(sink, piece)?;
    }
    Ok(())
}
