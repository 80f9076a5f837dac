// What gives files.
ghost use Rattle.std.specs.Prelude.{◌≡◌, ◌<◌, ◌≤◌, ◌⊎◌, [], ℕ, List, Option, length, take, drop, Some, ◌+◌, IfSome, IfOk, OnOk, OnErr, IsErrOf};
ghost use Rattle.rw_outside.specs.Outside.{Rose, prepended, TakesAtMost};
ghost use Rattle.rw_outside.specs.declared.host.TakeErr.TheVariants.{NoMemory};

use crate::sink::Failed;
use std::alloc::{AllocError, Global};

pub trait Host {
    /// The bytes of the file of a name, where the host tells them.
    ghost file: { Self → List ℕ → Option (List ℕ) };

    /// What is left of the file that was started last, where the host tells it.
    ghost rest: { Self → Option (List ℕ) };

    /// Whether a name is current.
    ghost is_current: { Self → List ℕ → Type 0 };

    /// How often a call failed on a name.
    ghost faults: { Self → List ℕ → ℕ };

    /// Begins the file of this name.
    fn start(&mut self, name: &str) -> Result<(), Failed>
        ensures current { OnOk result (is_current self.new name.now) }
        ensures whole { OnOk result (rest self.new ≡ file self.old name.now) }
        ensures failed { OnErr result (Rose (faults self.old name.now) (faults self.new name.now)) }
        ensures kept { OnErr result (rest self.new ≡ rest self.old) }
        ensures never_falls { (n : List ℕ) → faults self.old n ≤ faults self.new n }
        ensures files { (n : List ℕ) → file self.new n ≡ file self.old n };

    /// Gives the next bytes, at most as many as the buffer has. It gives none only at the end.
    fn take(&mut self, buf: &mut [u8]) -> Result<usize, Failed>
        ensures within { IfOk result (λ n. n ≤ length buf.old) }
        ensures next { IfOk result (λ n. rest self.old ≡ prepended (take n buf.new) (rest self.new)) }
        ensures end { IfOk result (λ n. n ≡ 0 → 0 < length buf.old → IfSome (rest self.old) (λ left. left ≡ [])) }
        ensures failed { OnErr result ((n : List ℕ) → is_current self.old n → Rose (faults self.old n) (faults self.new n)) }
        ensures kept { OnErr result (rest self.new ≡ rest self.old) }
        ensures current { (n : List ℕ) → is_current self.old n → is_current self.new n }
        ensures never_falls { (n : List ℕ) → faults self.old n ≤ faults self.new n }
        ensures files { (n : List ℕ) → file self.new n ≡ file self.old n };
}

/// Why a file was not read.
#[derive(Clone, Copy, Debug, PartialEq, Eq)]
pub enum TakeErr {
    ReadFault,
    TooLong,
    NoMemory,
}

impl From<AllocError> for TakeErr {
    ghost from_gives = { λ _ e. e ≡ NoMemory };

    fn from(_: AllocError) -> Self {
        TakeErr::NoMemory
    }
}

/// Reads the whole file, if it has at most this many bytes.
pub fn take_all<H: Host>(
    alloc: Global,
    host: &mut H,
    name: &str,
    limit: usize,
) -> Result<Vec<u8>, TakeErr>
    requires { limit ≤ 67108864 }
    ensures whole { IfOk result (λ bytes. IfSome (H.file host.old name.now) (λ file. bytes.items ≡ file)) }
    ensures within { IfOk result (λ bytes. length bytes.items ≤ limit) }
    ensures too_long { IsErrOf result TakeErr.TooLong → IfSome (H.file host.old name.now) (λ file. limit < length file) }
    ensures failed { IsErrOf result TakeErr.ReadFault → Rose (H.faults host.old name.now) (H.faults host.new name.now) }
    // Either no file was begun, or no more of it was taken than one byte past the limit.
    ensures takes_few { (H.rest host.new ≡ H.rest host.old) ⊎ IfSome (H.file host.old name.now) (λ file. TakesAtMost (limit + 1) file (H.rest host.new)) }
    ensures left { IsErrOf result TakeErr.TooLong → IfSome (H.file host.old name.now) (λ file. H.rest host.new ≡ Some (drop (limit + 1) file)) }
    ensures never_falls { (n : List ℕ) → H.faults host.old n ≤ H.faults host.new n }
    ensures files { (n : List ℕ) → H.file host.new n ≡ H.file host.old n }
{
    let Ok(()) = host.start(name) else {
        return Err(TakeErr::ReadFault);
    };
    let mut bytes = Vec::new(alloc);
    let mut buf = [0u8; 4096];
    loop {
        let want = buf.len().min(limit + 1 - bytes.len());
        let Ok(count) = host.take(&mut buf[..want]) else {
            return Err(TakeErr::ReadFault);
        };
        if count == 0 {
            return Ok(bytes);
        }
        bytes.extend_from_slice(&buf[..count])?;
        if bytes.len() > limit {
            return Err(TakeErr::TooLong);
        }
    }
}
