// What takes bytes.
ghost use Rattle.std.specs.Prelude.{◌≡◌, ◌<◌, ◌≤◌, ℕ, List, Option, length, take, IfOk, IfErr, OnOk, OnErr, IsOk};
ghost use Rattle.rw_outside.specs.Outside.{Rose, appended, Grows, PutsFront};
ghost use Rattle.rw_outside.specs.Puts.{SinkState, Puts};

/// A call that did not do its work.
#[derive(Clone, Copy, Debug, PartialEq, Eq)]
pub struct Failed;

/// What takes bytes.
pub trait Sink {
    /// The bytes taken, where the sink tells them, and how often a call failed.
    ghost state: { Self → SinkState };

    /// Takes a front of the piece, and says how long it is. It fails, or takes nothing of a piece that is not empty,
    /// only where its count of faults rises.
    fn put(&mut self, piece: &[u8]) -> Result<usize, Failed>
        ensures within { IfOk result (λ n. n ≤ length piece.now) }
        ensures taken { IfOk result (λ n. (state self.new).bytes ≡ appended (state self.old).bytes (take n piece.now)) }
        ensures kept { OnErr result ((state self.new).bytes ≡ (state self.old).bytes) }
        ensures failed { OnErr result (Rose (state self.old).faults (state self.new).faults) }
        ensures refused { IfOk result (λ n. n ≡ 0 → 0 < length piece.now → Rose (state self.old).faults (state self.new).faults) }
        ensures never_falls { (state self.old).faults ≤ (state self.new).faults }
        ensures arrives { Grows (state self.old).arrived (state self.new).arrived }
        ensures same_way { (state self.new).way ≡ (state self.old).way };
}

/// Puts the whole piece. It fails only where the sink's count of faults rises, and a front of the piece was taken then.
pub fn put_all<S: Sink>(sink: &mut S, piece: &[u8]) -> Result<(), Failed>
    ensures { Puts (S.state sink.old) (S.state sink.new) result piece.now }
{
    let mut done = 0;
    while done < piece.len() {
        let count = sink.put(&piece[done..])?;
        if count == 0 {
            return Err(Failed);
        }
        done += count;
    }
    Ok(())
}
