//! What a call answers that found no memory, so that every crate says it in one way.
use std::alloc::{AllocError, AllocFailed};

/// No memory was found.
#[derive(Clone, Copy, Debug, PartialEq, Eq)]
pub struct NoMemory;

/// What a call answers that is refused for want of memory alone.
pub type Mem<T> = Result<T, NoMemory>;

impl From<AllocError> for NoMemory {
    fn from(_error: AllocError) -> NoMemory {
        NoMemory
    }
}

impl<T: Drop> From<AllocFailed<T>> for NoMemory {
    fn from(_error: AllocFailed<T>) -> NoMemory {
        NoMemory
    }
}

/// The fault `F` of a call, or want of memory.
#[derive(Clone, Copy, Debug, PartialEq, Eq, Drop)]
pub enum OrMemory<F> {
    /// The call is refused for a reason of its own.
    Fault(F),
    /// No memory was found.
    NoMemory,
}

impl<F> From<NoMemory> for OrMemory<F> {
    ghost use Rattle.std.specs.Prelude.{◌≡◌};
    ghost use Rattle.base_text.specs.declared.memory.OrMemory.TheVariants.{NoMemory};

    ghost from_gives = { λ _ e. e ≡ NoMemory };

    fn from(_error: NoMemory) -> OrMemory<F> {
        OrMemory::NoMemory
    }
}

impl<F> From<AllocError> for OrMemory<F> {
    ghost use Rattle.std.specs.Prelude.{◌≡◌};
    ghost use Rattle.base_text.specs.declared.memory.OrMemory.TheVariants.{NoMemory};

    ghost from_gives = { λ _ e. e ≡ NoMemory };

    fn from(_error: AllocError) -> OrMemory<F> {
        OrMemory::NoMemory
    }
}

impl<F, T: Drop> From<AllocFailed<T>> for OrMemory<F> {
    ghost use Rattle.std.specs.Prelude.{◌≡◌};
    ghost use Rattle.base_text.specs.declared.memory.OrMemory.TheVariants.{NoMemory};

    ghost from_gives = { λ _ e. e ≡ NoMemory };

    fn from(_error: AllocFailed<T>) -> OrMemory<F> {
        OrMemory::NoMemory
    }
}
