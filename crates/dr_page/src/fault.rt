//! Why a page gives no values.

ghost use Rattle.std.specs.Prelude.{◌≡◌};
ghost use Rattle.dr_page.specs.declared.fault.PageFault.TheVariants.{BadData as IsBadData, NoMemory as WantOfMemory};
ghost use Rattle.dr_page.specs.Faults.{page_fault};

use dr_memory::NoMemory;
use std::alloc::{AllocError, AllocFailed};

/// Why a page gives no triplets, or no dictionary.
#[derive(Clone, Copy, PartialEq, Eq)]
pub enum PageFault {
    NoMemory,
    /// The bytes spell none of the shape that is told.
    BadData,
}

impl From<dr_bytes::Short> for PageFault {
    ghost from_gives = { λ _ fault. fault ≡ IsBadData };

    fn from(_: dr_bytes::Short) -> PageFault {
        PageFault::BadData
    }
}

impl From<dr_hybrid::Short> for PageFault {
    ghost from_gives = { λ _ fault. fault ≡ IsBadData };

    fn from(_: dr_hybrid::Short) -> PageFault {
        PageFault::BadData
    }
}

impl From<NoMemory> for PageFault {
    ghost from_gives = { λ _ fault. fault ≡ WantOfMemory };

    fn from(_: NoMemory) -> PageFault {
        PageFault::NoMemory
    }
}

impl From<AllocError> for PageFault {
    ghost from_gives = { λ _ fault. fault ≡ WantOfMemory };

    fn from(_: AllocError) -> PageFault {
        PageFault::NoMemory
    }
}

impl<T: Drop> From<AllocFailed<T>> for PageFault {
    ghost from_gives = { λ _ fault. fault ≡ WantOfMemory };

    fn from(_: AllocFailed<T>) -> PageFault {
        PageFault::NoMemory
    }
}

impl From<dr_plain::PlainFault> for PageFault {
    ghost from_gives = { λ fault page. page ≡ page_fault fault };

    fn from(fault: dr_plain::PlainFault) -> PageFault {
        match fault {
            dr_plain::PlainFault::NoMemory => PageFault::NoMemory,
            dr_plain::PlainFault::Short | dr_plain::PlainFault::BadText => PageFault::BadData,
        }
    }
}
