// A sink that gathers pieces before another one takes them.
ghost use Rattle.std.specs.Prelude.{◌≡◌, ◌+◌, ◌<◌, ◌≤◌, ◌↔◌, ◌++◌, [], ℕ, List, Option, length, take, drop, IsTrue, IfOk, OnOk, OnErr, vec_len, vec_capacity};
ghost use Rattle.rw_outside.specs.Outside.{Rose, appended, Grows};
ghost use Rattle.rw_outside.specs.Puts.{gathered_state};

use crate::sink::{Failed, Sink};

/// Gathers pieces in a buffer, and hands them on to another sink in larger ones. It takes no memory: a piece for
/// which the buffer has no room goes straight to the other sink, behind all that was gathered before.
pub struct BufferedSink<'a, S: Sink> {
    pub sink: &'a mut S,
    pub held: &'a mut Vec<u8>,
    /// How many of the held bytes the other sink has already.
    pub done: usize,
    ghost within: { done ≤ length held.now.items },
}

impl<'a, S: Sink> Drop for BufferedSink<'a, S> {
    // What is still held is lost: call `flush` first.
    fn drop(self)
        ensures { self.exit.0.now ≡ self.entry.sink.now }
    {
        let BufferedSink {
            sink: _,
            held: _,
            done: _,
        } = self;
    }
}

impl<'a, S: Sink> BufferedSink<'a, S> {
    /// A sink round this one, which gathers in this buffer as much as the buffer has room for. What the buffer
    /// holds is dropped.
    pub fn new(sink: &'a mut S, held: &'a mut Vec<u8>) -> BufferedSink<'a, S>
        ensures same_sink { result.sink.ghost_name ≡ sink.entry.ghost_name }
        ensures same_buffer { result.held.ghost_name ≡ held.entry.ghost_name }
        ensures sink { result.sink.now ≡ sink.old }
        ensures empty { drop result.done result.held.now.items ≡ [] }
    {
        held.clear();
        BufferedSink {
            sink,
            held,
            done: 0,
        }
    }

    /// Hands on all that was gathered. It fails only where the other sink's count of faults rises, and what was not
    /// handed on is then still held.
    pub fn flush(&mut self) -> Result<(), Failed>
        ensures bytes { (gathered_state S.state self.new.sink self.new.held.now.items self.new.done).bytes ≡ (gathered_state S.state self.old.sink self.old.held.now.items self.old.done).bytes }
        ensures empty { OnOk result (drop self.new.done self.new.held.now.items ≡ []) }
        ensures failed { OnErr result (Rose (S.state self.old.sink.now).faults (S.state self.new.sink.now).faults) }
        ensures never_falls { (S.state self.old.sink.now).faults ≤ (S.state self.new.sink.now).faults }
        ensures arrives { Grows (S.state self.old.sink.now).bytes (S.state self.new.sink.now).bytes }
        ensures same_sink { self.new.sink.ghost_name ≡ self.old.sink.ghost_name }
        ensures same_buffer { self.new.held.ghost_name ≡ self.old.held.ghost_name }
    {
        while self.done < self.held.len() {
            let count = self.sink.put(&self.held[self.done..])?;
            if count == 0 {
                return Err(Failed);
            }
            self.done += count;
        }
        self.done = 0;
        self.held.clear();
        Ok(())
    }

    // Whether the buffer has room for so many bytes more.
    fn has_room(&self, count: usize) -> bool
        ensures { IsTrue result ↔ (vec_len self.now.held.now + count ≤ vec_capacity self.now.held.now) }
    {
        count <= self.held.capacity() - self.held.len()
    }

    // Gathers this piece.
    fn hold(&mut self, piece: &[u8])
        requires { vec_len self.old.held.now + length piece.now ≤ vec_capacity self.old.held.now }
        ensures sink { S.state self.new.sink.now ≡ S.state self.old.sink.now }
        ensures held { drop self.new.done self.new.held.now.items ≡ drop self.old.done self.old.held.now.items ++ piece.now }
        ensures same_sink { self.new.sink.ghost_name ≡ self.old.sink.ghost_name }
        ensures same_buffer { self.new.held.ghost_name ≡ self.old.held.ghost_name }
    {
        let Ok(()) = self.held.extend_from_slice(piece) else {
            unreachable!()
        };
    }
}

impl<'a, S: Sink> Sink for BufferedSink<'a, S> {
    ghost state = { λ b. gathered_state S.state b.sink b.held.now.items b.done };

    fn put(&mut self, piece: &[u8]) -> Result<usize, Failed> {
        if self.has_room(piece.len()) {
            self.hold(piece);
            return Ok(piece.len());
        }
        self.flush()?;
        if self.has_room(piece.len()) {
            self.hold(piece);
            return Ok(piece.len());
        }
        self.sink.put(piece)
    }
}
