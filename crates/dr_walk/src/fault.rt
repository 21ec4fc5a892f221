//! Why columns give no records.

use dr_nested::NoMemory as MemoryLacked;
use std::alloc::{AllocError, AllocFailed};

/// Why columns give no records: no records of the schema have them; or want of memory.
#[derive(Clone, Copy, PartialEq, Eq)]
pub enum AssembleFault {
    /// No list of as many records of the schema has these columns.
    BadData,
    /// Memory ran out. This says nothing of the columns.
    NoMemory,
}

impl From<AllocError> for AssembleFault {
    ghost use Rattle.std.specs.Prelude.{◌≡◌};
    ghost use Rattle.dr_walk.specs.declared.fault.AssembleFault.TheVariants.{NoMemory};

    ghost from_gives = { λ _ e. e ≡ NoMemory };

    fn from(_refused: AllocError) -> AssembleFault {
        AssembleFault::NoMemory
    }
}

impl<T: Drop> From<AllocFailed<T>> for AssembleFault {
    ghost use Rattle.std.specs.Prelude.{◌≡◌};
    ghost use Rattle.dr_walk.specs.declared.fault.AssembleFault.TheVariants.{NoMemory};

    ghost from_gives = { λ _ e. e ≡ NoMemory };

    fn from(_refused: AllocFailed<T>) -> AssembleFault {
        AssembleFault::NoMemory
    }
}

impl From<MemoryLacked> for AssembleFault {
    ghost use Rattle.std.specs.Prelude.{◌≡◌};
    ghost use Rattle.dr_walk.specs.declared.fault.AssembleFault.TheVariants.{NoMemory};

    ghost from_gives = { λ _ e. e ≡ NoMemory };

    fn from(_refused: MemoryLacked) -> AssembleFault {
        AssembleFault::NoMemory
    }
}
