// Files in memory. Calls fail as it is told.
ghost use Rattle.std.specs.Prelude.{◌≡◌, ◌+◌, ◌-◌, ◌^◌, ◌<◌, ◌≤◌, ◌↔◌, ◌⊎◌, [], Some, None, ℕ, List, Option, length, take, drop, min, Contains, IfOk, IfSome, unwrap_or, MatchOption, OnOk, OnErr, IsErr, IsTrue};
ghost use Rattle.rw_outside.specs.Outside.{Rose, prepended};
ghost use Rattle.rw_outside.specs.MemHost.{file_of, seen_files, bytes_at, called, failed};

use crate::host::Host;
use crate::sink::Failed;
use std::alloc::Global;
use std::marker::Model;

type File = (Vec<u8>, Vec<u8>);

/// Files in memory, for tests: its calls fail where it is told to, and at an unknown name. Of files with one
/// name the first counts.
#[derive(Drop)]
pub struct MemHost {
    files: Vec<File>,
    most: usize,
    fail: Vec<u32>,
    calls: u64,
    current: usize,
    at: usize,
    faults: u64,
}

impl Model for MemHost {
    ghost use Rattle.std.specs.Prelude.{◌≤◌, drop, length};
    ghost use Rattle.rw_outside.specs.MemHost.{Store, seen_files, bytes_at};

    ghost Value = { Store };

    ghost view = { λ h. record {
      files = seen_files h.files.items;
      most = h.most;
      fail = h.fail.items;
      calls = h.calls;
      rest = drop h.at (bytes_at h.files.items h.current);
      faults = h.faults;
    } };

    ghost invariant = { λ h. (1 ≤ h.most) × (h.at ≤ length (bytes_at h.files.items h.current)) };
}

// The place of the first file of this name.
pub(crate) fn place_of(files: &[File], name: &[u8]) -> Option<usize>
    ensures { MatchOption result (file_of (seen_files files.now) name.now ≡ None)
        (λ i. file_of (seen_files files.now) name.now ≡ Some (bytes_at files.now i)) }
{
    for (i, file) in files.iter().enumerate() {
        if file.0.as_slice() == name {
            return Some(i);
        }
    }
    None
}

pub(crate) fn bytes_of(files: &[File], place: usize) -> &[u8]
    ensures { result.now ≡ bytes_at files.now place }
{
    match files.get(place) {
        Some(file) => &file.1,
        None => &[],
    }
}

// Copies as many bytes as both sides have, and no more than `most`.
pub(crate) fn copy_front(from: &[u8], to: &mut [u8], most: usize) -> usize
    ensures count { result ≡ min most (min (length to.old) (length from.now)) }
    ensures copied { take result to.new ≡ take result from.now }
{
    let count = most.min(to.len().min(from.len()));
    to[..count].copy_from_slice(&from[..count]);
    count
}

impl MemHost {
    /// A host of these files, each a name and its bytes. A take gives at most `most` bytes, and the calls
    /// with the numbers in `fail` fail, `start` and `take` counted together from 0.
    pub fn new(files: Vec<File>, most: usize, fail: Vec<u32>) -> MemHost
        requires { 1 ≤ most }
        ensures files { result.files ≡ seen_files files.items }
        ensures most { result.most ≡ most }
        ensures fail { result.fail ≡ fail.items }
        ensures rest { result.rest ≡ [] }
        ensures counts { (result.calls ≡ 0) × (result.faults ≡ 0) }
    {
        let current = files.len();
        MemHost {
            files,
            most,
            fail,
            calls: 0,
            current,
            at: 0,
            faults: 0,
        }
    }

    // Counts a call, and says whether it is to fail.
    fn is_failing(&mut self) -> bool
        ensures result { IsTrue result ↔ Contains self.old.fail self.old.calls }
        ensures counts { self.old.calls ≤ self.new.calls }
        ensures after { self.new ≡ called self.old }
    {
        let call = self.calls;
        self.calls = self.calls.saturating_add(1);
        self.fail.iter().any(|n| u64::from(*n) == call)
    }

    fn fault(&mut self) -> Failed
        ensures counts { self.old.faults ≤ self.new.faults }
        ensures after { self.new ≡ failed self.old }
    {
        self.faults = self.faults.saturating_add(1);
        Failed
    }
}

impl Host for MemHost {
    ghost file = { λ h n. file_of h.files n };

    ghost rest = { λ h. Some h.rest };

    ghost is_current = { λ h n. Unit {0} };

    ghost faults = { λ h n. h.faults };

    fn start(&mut self, name: &str) -> Result<(), Failed>
        ensures current { OnOk result (Unit {0}) }
        ensures whole { OnOk result (Some self.new.rest ≡ file_of self.old.files name.now) }
        ensures failed { OnErr result (Rose self.old.faults self.new.faults) }
        ensures kept { OnErr result (Some self.new.rest ≡ Some self.old.rest) }
        ensures never_falls { (n : List ℕ) → self.old.faults ≤ self.new.faults }
        ensures files { (n : List ℕ) → file_of self.new.files n ≡ file_of self.old.files n }

        // It fails exactly where it is told to, and at an unknown name.
        ensures fails { IsErr result ↔ (Contains self.old.fail self.old.calls ⊎ (file_of self.old.files name.now ≡ None)) }
        ensures counts { self.new.calls ≡ min (self.old.calls + 1) (2 ^ 64 - 1) }
        // What it is left with.
        ensures after { OnOk result (self.new ≡ record (called self.old) { rest = unwrap_or (file_of self.old.files name.now) [] }) }
        ensures after_failure { OnErr result (self.new ≡ failed (called self.old)) }
    {
        if self.is_failing() {
            return Err(self.fault());
        }
        let Some(place) = place_of(&self.files, name.as_bytes()) else {
            return Err(self.fault());
        };
        self.current = place;
        self.at = 0;
        Ok(())
    }

    fn take(&mut self, buf: &mut [u8]) -> Result<usize, Failed>
        ensures within { IfOk result (λ n. n ≤ length buf.old) }
        ensures next { IfOk result (λ n. Some self.old.rest ≡ prepended (take n buf.new) (Some self.new.rest)) }
        ensures end { IfOk result (λ n. n ≡ 0 → 0 < length buf.old → self.old.rest ≡ []) }
        ensures failed { OnErr result ((n : List ℕ) → Unit {0} → Rose self.old.faults self.new.faults) }
        ensures kept { OnErr result (Some self.new.rest ≡ Some self.old.rest) }
        ensures current { (n : List ℕ) → Unit {0} → Unit {0} }
        ensures never_falls { (n : List ℕ) → self.old.faults ≤ self.new.faults }
        ensures files { (n : List ℕ) → file_of self.new.files n ≡ file_of self.old.files n }

        // It gives as many bytes as its own limit, the buffer and the file allow, and fails exactly where it is told to.
        ensures gives { IfOk result (λ n. n ≡ min self.old.most (min (length buf.old) (length self.old.rest))) }
        ensures fails { IsErr result ↔ Contains self.old.fail self.old.calls }
        ensures counts { self.new.calls ≡ min (self.old.calls + 1) (2 ^ 64 - 1) }
        // What it is left with.
        ensures after { IfOk result (λ n. self.new ≡ record (called self.old) { rest = drop n self.old.rest }) }
        ensures after_failure { OnErr result (self.new ≡ failed (called self.old)) }
    {
        if self.is_failing() {
            return Err(self.fault());
        }
        let bytes = bytes_of(&self.files, self.current);
        let count = copy_front(&bytes[self.at..], buf, self.most);
        self.at += count;
        Ok(count)
    }
}
