//! Why bytes begin with no struct.

ghost use Rattle.std.specs.Prelude.{◌≡◌};
ghost use Rattle.dr_compact.specs.declared.fault.CompactFault.TheVariants.{Malformed as IsMalformed, NoMemory as WantOfMemory};

use dr_bytes::{Short, VarintFault};
use std::alloc::{AllocError, AllocFailed};

/// Why bytes begin with no struct: the fault at the lowest place.
#[derive(Clone, Copy, PartialEq, Eq)]
pub enum CompactFault {
    NoMemory,
    /// No front of the bytes spells a struct.
    Malformed,
    /// A struct, list, set or map stands inside 32 others.
    TooDeep,
}

impl From<Short> for CompactFault {
    ghost from_gives = { λ _ fault. fault ≡ IsMalformed };

    fn from(_: Short) -> CompactFault {
        CompactFault::Malformed
    }
}

impl From<VarintFault> for CompactFault {
    ghost from_gives = { λ _ fault. fault ≡ IsMalformed };

    fn from(_: VarintFault) -> CompactFault {
        CompactFault::Malformed
    }
}

impl From<AllocError> for CompactFault {
    ghost from_gives = { λ _ fault. fault ≡ WantOfMemory };

    fn from(_: AllocError) -> CompactFault {
        CompactFault::NoMemory
    }
}

impl<T: Drop> From<AllocFailed<T>> for CompactFault {
    ghost from_gives = { λ _ fault. fault ≡ WantOfMemory };

    fn from(_: AllocFailed<T>) -> CompactFault {
        CompactFault::NoMemory
    }
}
