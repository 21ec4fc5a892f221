// The answers of calls that reach outside.
ghost use Rattle.std.specs.Prelude.{◌≡◌};
ghost use Rattle.dr_outside.specs.declared.fault.Fault.TheVariants.{Failed as OutsideFailed, NoMemory as MemoryLacked};

use dr_memory::NoMemory;
use std::alloc::{AllocError, AllocFailed};

/// The outside refused: a read, a write or a look-up failed.
#[derive(Clone, Copy, Debug, PartialEq, Eq)]
pub struct Failed;

/// Why a call on a link or a keeper gave nothing.
#[derive(Clone, Copy, Debug, PartialEq, Eq)]
pub enum Fault {
    Failed,
    NoMemory,
}

impl From<Failed> for Fault {
    ghost from_gives = { λ _ e. e ≡ OutsideFailed };

    fn from(_: Failed) -> Self {
        Fault::Failed
    }
}

impl From<NoMemory> for Fault {
    ghost from_gives = { λ _ e. e ≡ MemoryLacked };

    fn from(_: NoMemory) -> Self {
        Fault::NoMemory
    }
}

impl From<AllocError> for Fault {
    ghost from_gives = { λ _ e. e ≡ MemoryLacked };

    fn from(_: AllocError) -> Self {
        Fault::NoMemory
    }
}

impl<T: Drop> From<AllocFailed<T>> for Fault {
    ghost from_gives = { λ _ e. e ≡ MemoryLacked };

    fn from(_: AllocFailed<T>) -> Self {
        Fault::NoMemory
    }
}
