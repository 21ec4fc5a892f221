//! Why a file isn't opened.

ghost use Rattle.std.specs.Prelude.{◌≡◌};
ghost use Rattle.dr_file.specs.declared.fault.OpenFault.TheVariants.{NoMemory as WantOfMemory};
ghost use Rattle.dr_file.specs.Faults.{footer_fault, compact_fault, meta_fault};

use crate::frame::FooterFault;
use dr_compact::CompactFault;
use dr_memory::NoMemory;
use dr_meta::MetaFault;
use std::alloc::{AllocError, AllocFailed};

/// Why a file isn't opened: the first of these that holds.
#[derive(Clone, Copy, PartialEq, Eq)]
pub(crate) enum OpenFault {
    NoMemory,
    /// The link failed.
    Failed,
    /// There is no footer.
    BadFooter,
    /// A leaf isn't an open leaf of the file.
    BadSchema,
    /// A chunk of a leaf is compressed.
    BadCodec,
    /// The footer's numbers of rows or of triplets disagree, or are too great.
    BadData,
}

impl From<NoMemory> for OpenFault {
    ghost from_gives = { λ _ fault. fault ≡ WantOfMemory };

    fn from(_: NoMemory) -> OpenFault {
        OpenFault::NoMemory
    }
}

impl From<AllocError> for OpenFault {
    ghost from_gives = { λ _ fault. fault ≡ WantOfMemory };

    fn from(_: AllocError) -> OpenFault {
        OpenFault::NoMemory
    }
}

impl<T: Drop> From<AllocFailed<T>> for OpenFault {
    ghost from_gives = { λ _ fault. fault ≡ WantOfMemory };

    fn from(_: AllocFailed<T>) -> OpenFault {
        OpenFault::NoMemory
    }
}

impl From<FooterFault> for OpenFault {
    ghost from_gives = { λ footer fault. fault ≡ footer_fault footer };

    fn from(fault: FooterFault) -> OpenFault {
        match fault {
            FooterFault::NoMemory => OpenFault::NoMemory,
            FooterFault::Failed => OpenFault::Failed,
            FooterFault::BadFooter => OpenFault::BadFooter,
        }
    }
}

impl From<CompactFault> for OpenFault {
    ghost from_gives = { λ compact fault. fault ≡ compact_fault compact };

    fn from(fault: CompactFault) -> OpenFault {
        match fault {
            CompactFault::NoMemory => OpenFault::NoMemory,
            CompactFault::Malformed | CompactFault::TooDeep => OpenFault::BadFooter,
        }
    }
}

impl From<MetaFault> for OpenFault {
    ghost from_gives = { λ meta fault. fault ≡ meta_fault meta };

    fn from(fault: MetaFault) -> OpenFault {
        match fault {
            MetaFault::NoMemory => OpenFault::NoMemory,
            MetaFault::Missing(_) | MetaFault::Range(_) => OpenFault::BadFooter,
        }
    }
}
