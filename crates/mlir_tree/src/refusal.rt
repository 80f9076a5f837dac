//! Why a call gave nothing.

ghost use Rattle.std.specs.Prelude.{◌≡◌};
ghost use Rattle.mlir_tree.specs.declared.refusal.Refusal.TheVariants.{NoMemory};

use std::alloc::{AllocError, AllocFailed};

/// Why a call gave nothing: for a fault of its input, or for want of memory.
#[derive(Debug, Drop)]
pub enum Refusal<F> {
    Fault(F),
    NoMemory,
}

impl<F> From<AllocError> for Refusal<F> {
    ghost from_gives = { λ _ e. e ≡ NoMemory };

    fn from(_: AllocError) -> Self {
        Refusal::NoMemory
    }
}

impl<F, T: Drop> From<AllocFailed<T>> for Refusal<F> {
    ghost from_gives = { λ _ e. e ≡ NoMemory };

    fn from(_: AllocFailed<T>) -> Self {
        Refusal::NoMemory
    }
}
