// A sink in memory, with room for so many bytes.
ghost use Rattle.std.specs.Prelude.{◌≡◌, ◌+◌, ◌-◌, ◌^◌, ◌<◌, ◌≤◌, ◌↔◌, [], ◌++◌, Some, ℕ, length, take, min, IfOk, IfErr, OnOk, OnErr, IsErr};
ghost use Rattle.rw_outside.specs.Outside.{Rose, appended, Grows};
ghost use Rattle.rw_outside.specs.MemSink.{memory_state};

use crate::sink::{Failed, Sink};
use std::alloc::{AllocError, Global};
use std::marker::Model;

/// A sink in memory, for tests, with room for so many bytes.
#[derive(Drop)]
pub struct MemSink {
    bytes: Vec<u8>,
    room: usize,
    faults: u64,
}

impl Model for MemSink {
    ghost use Rattle.std.specs.Prelude.{◌+◌, ◌≤◌, vec_len, vec_capacity, length};
    ghost use Rattle.rw_outside.specs.MemSink.{Kept};

    ghost Value = { Kept };

    ghost view = { λ s. record { bytes = s.bytes.items; room = s.room; faults = s.faults } };

    ghost invariant = { λ s. vec_len s.bytes + s.room ≤ vec_capacity s.bytes };
}

impl MemSink {
    /// A sink with room for so many bytes. It takes all its memory here.
    pub fn new(alloc: Global, room: usize) -> Result<MemSink, AllocError>
        ensures { IfOk result (λ s. s ≡ record { bytes = []; room = room; faults = 0 }) }
    {
        Ok(MemSink {
            bytes: Vec::with_capacity(alloc, room)?,
            room,
            faults: 0,
        })
    }

    /// All bytes taken.
    pub fn bytes(&self) -> &[u8]
        ensures { result.now ≡ self.now.bytes }
    {
        &self.bytes
    }
}

impl Sink for MemSink {
    ghost state = { memory_state };

    fn put(&mut self, piece: &[u8]) -> Result<usize, Failed>
        ensures within { IfOk result (λ n. n ≤ length piece.now) }
        ensures taken { IfOk result (λ n. (memory_state self.new).bytes ≡ appended (memory_state self.old).bytes (take n piece.now)) }
        ensures kept { OnErr result ((memory_state self.new).bytes ≡ (memory_state self.old).bytes) }
        ensures failed { OnErr result (Rose (memory_state self.old).faults (memory_state self.new).faults) }
        ensures refused { IfOk result (λ n. n ≡ 0 → 0 < length piece.now → Rose (memory_state self.old).faults (memory_state self.new).faults) }
        ensures never_falls { (memory_state self.old).faults ≤ (memory_state self.new).faults }
        ensures arrives { Grows (memory_state self.old).arrived (memory_state self.new).arrived }
        ensures same_way { (memory_state self.new).way ≡ (memory_state self.old).way }

        // It takes as much as the piece and the room allow, and fails only where there is no room at all.
        ensures fills { IfOk result (λ n. (n ≡ min self.old.room (length piece.now)) × (self.new.room + n ≡ self.old.room)) }
        ensures full { IsErr result ↔ ((self.old.room ≡ 0) × (0 < length piece.now)) }
        // What it is left with.
        ensures after { IfOk result (λ n. self.new ≡ record { bytes = self.old.bytes ++ take n piece.now; room = self.old.room - n; faults = self.old.faults }) }
        ensures after_failure { OnErr result (self.new ≡ record self.old { faults = min (self.old.faults + 1) (2 ^ 64 - 1) }) }
    {
        let count = self.room.min(piece.len());
        if count == 0 && !piece.is_empty() {
            self.faults = self.faults.saturating_add(1);
            return Err(Failed);
        }
        let Ok(()) = self.bytes.extend_from_slice(&piece[..count]) else {
            unreachable!()
        };
        self.room -= count;
        Ok(count)
    }
}
