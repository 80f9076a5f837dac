// A host and a sink that never fail.
ghost use Rattle.std.specs.Prelude.{◌≡◌, ◌+◌, ◌%◌, ◌^◌, ◌≤◌, ◌<◌, [], Option, None, Some, ℕ, List, sum, length, take, drop, min, IfOk, OnOk, OnErr, IsOk, unwrap_or};
ghost use Rattle.rw_outside.specs.Outside.{Rose, appended, prepended, Grows};
ghost use Rattle.rw_outside.specs.MemSink.{silent_state};
ghost use Rattle.rw_outside.specs.MemHost.{file_of, seen_files, bytes_at};

use crate::host::Host;
use crate::memory_host::{bytes_of, copy_front, place_of};
use crate::sink::{Failed, Sink};
use std::marker::Model;

type File = (Vec<u8>, Vec<u8>);

/// Files in memory, whose calls never fail. A name that it does not have is an empty file.
#[derive(Drop)]
pub struct SureHost {
    files: Vec<File>,
    current: usize,
    at: usize,
}

impl Model for SureHost {
    ghost use Rattle.std.specs.Prelude.{◌≤◌, drop, length};
    ghost use Rattle.rw_outside.specs.MemHost.{Sure, seen_files, bytes_at};

    ghost Value = { Sure };

    ghost view = { λ h. record { files = seen_files h.files.items; rest = drop h.at (bytes_at h.files.items h.current) } };

    ghost invariant = { λ h. h.at ≤ length (bytes_at h.files.items h.current) };
}

impl SureHost {
    /// A host of these files, each a name and its bytes.
    pub fn new(files: Vec<File>) -> SureHost
        ensures { result ≡ record { files = seen_files files.items; rest = [] } }
    {
        let current = files.len();
        SureHost {
            files,
            current,
            at: 0,
        }
    }
}

impl Host for SureHost {
    ghost file = { λ h n. Some (unwrap_or (file_of h.files n) []) };

    ghost rest = { λ h. Some h.rest };

    ghost is_current = { λ h n. Unit {0} };

    ghost faults = { λ h n. 0 };

    fn start(&mut self, name: &str) -> Result<(), Failed>
        ensures sure { IsOk result }
        ensures whole { OnOk result (Some self.new.rest ≡ Some (unwrap_or (file_of self.old.files name.now) [])) }
        ensures current { OnOk result (Unit {0}) }
        ensures failed { OnErr result (Rose 0 0) }
        ensures kept { OnErr result (Some self.new.rest ≡ Some self.old.rest) }
        ensures never_falls { (n : List ℕ) → 0 ≤ 0 }
        ensures files { (n : List ℕ) → Some (unwrap_or (file_of self.new.files n) []) ≡ Some (unwrap_or (file_of self.old.files n) []) }

        // What it is left with.
        ensures after { self.new ≡ record self.old { rest = unwrap_or (file_of self.old.files name.now) [] } }
    {
        self.current = match place_of(&self.files, name.as_bytes()) {
            Some(place) => place,
            None => self.files.len(),
        };
        self.at = 0;
        Ok(())
    }

    fn take(&mut self, buf: &mut [u8]) -> Result<usize, Failed>
        ensures sure { IsOk result }
        ensures within { IfOk result (λ n. n ≤ length buf.old) }
        ensures next { IfOk result (λ n. Some self.old.rest ≡ prepended (take n buf.new) (Some self.new.rest)) }
        ensures end { IfOk result (λ n. n ≡ 0 → 0 < length buf.old → self.old.rest ≡ []) }
        ensures failed { OnErr result ((n : List ℕ) → Unit {0} → Rose 0 0) }
        ensures kept { OnErr result (Some self.new.rest ≡ Some self.old.rest) }
        ensures current { (n : List ℕ) → Unit {0} → Unit {0} }
        ensures never_falls { (n : List ℕ) → 0 ≤ 0 }
        ensures files { (n : List ℕ) → Some (unwrap_or (file_of self.new.files n) []) ≡ Some (unwrap_or (file_of self.old.files n) []) }

        // It gives as many bytes as the buffer and the file allow.
        ensures gives { IfOk result (λ n. n ≡ min (length buf.old) (length self.old.rest)) }
        // What it is left with.
        ensures after { IfOk result (λ n. self.new ≡ record self.old { rest = drop n self.old.rest }) }
    {
        let bytes = bytes_of(&self.files, self.current);
        let count = copy_front(&bytes[self.at..], buf, usize::MAX);
        self.at += count;
        Ok(count)
    }
}

// The sum of the bytes and of what was there before, modulo 2^64.
fn added(before: u64, piece: &[u8]) -> u64
    ensures { result ≡ (before + sum piece.now) % 2 ^ 64 }
{
    let mut total = before;
    for b in piece {
        total = total.wrapping_add(u64::from(*b));
    }
    total
}

/// A sink that never fails. It keeps how many bytes it took, and their sum, both modulo 2^64, and no byte.
#[derive(Drop)]
pub struct SureSink {
    count: u64,
    sum: u64,
}

impl SureSink {
    /// A sink that took nothing yet.
    pub fn new() -> SureSink
        ensures { (result.count ≡ 0) × (result.sum ≡ 0) }
    {
        SureSink { count: 0, sum: 0 }
    }

    /// How many bytes were taken, and their sum.
    pub fn totals(&self) -> (u64, u64)
        ensures { result ≡ (self.now.count, self.now.sum) }
    {
        (self.count, self.sum)
    }
}

impl Sink for SureSink {
    ghost state = { λ s. silent_state 0 };

    fn put(&mut self, piece: &[u8]) -> Result<usize, Failed>
        ensures within { IfOk result (λ n. n ≤ length piece.now) }
        ensures taken { IfOk result (λ n. (silent_state 0).bytes ≡ appended (silent_state 0).bytes (take n piece.now)) }
        ensures kept { OnErr result ((silent_state 0).bytes ≡ (silent_state 0).bytes) }
        ensures failed { OnErr result (Rose (silent_state 0).faults (silent_state 0).faults) }
        ensures refused { IfOk result (λ n. n ≡ 0 → 0 < length piece.now → Rose (silent_state 0).faults (silent_state 0).faults) }
        ensures never_falls { (silent_state 0).faults ≤ (silent_state 0).faults }
        ensures arrives { Grows (silent_state 0).arrived (silent_state 0).arrived }
        ensures same_way { (silent_state 0).way ≡ (silent_state 0).way }

        // It takes the whole piece, and adds it to both totals.
        ensures whole { IfOk result (λ n. n ≡ length piece.now) }
        ensures sure { IsOk result }
        ensures count { self.new.count ≡ (self.old.count + length piece.now) % 2 ^ 64 }
        ensures sum { self.new.sum ≡ (self.old.sum + sum piece.now) % 2 ^ 64 }
    {
        self.sum = added(self.sum, piece);
        self.count = self.count.wrapping_add(piece.len() as u64);
        Ok(piece.len())
    }
}
