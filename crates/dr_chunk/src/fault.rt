//! Why a chunk gives no triplets.

ghost use Rattle.std.specs.Prelude.{◌≡◌};
ghost use Rattle.dr_chunk.specs.declared.fault.ChunkFault.TheVariants.{NoMemory as WantOfMemory};
ghost use Rattle.dr_chunk.specs.Faults.{outside_fault, page_fault};

use dr_outside::Fault;
use dr_page::PageFault;
use std::alloc::AllocError;

/// Why a chunk gives no triplets.
#[derive(Clone, Copy, PartialEq, Eq)]
pub enum ChunkFault {
    NoMemory,
    /// The link failed.
    Failed,
    /// The bytes are no chunk of the wanted triplets.
    BadData,
}

impl From<AllocError> for ChunkFault {
    ghost from_gives = { λ _ fault. fault ≡ WantOfMemory };

    fn from(_: AllocError) -> ChunkFault {
        ChunkFault::NoMemory
    }
}

impl From<Fault> for ChunkFault {
    ghost from_gives = { λ outside fault. fault ≡ outside_fault outside };

    fn from(fault: Fault) -> ChunkFault {
        match fault {
            Fault::Failed => ChunkFault::Failed,
            Fault::NoMemory => ChunkFault::NoMemory,
        }
    }
}

impl From<PageFault> for ChunkFault {
    ghost from_gives = { λ page fault. fault ≡ page_fault page };

    fn from(fault: PageFault) -> ChunkFault {
        match fault {
            PageFault::NoMemory => ChunkFault::NoMemory,
            PageFault::BadData => ChunkFault::BadData,
        }
    }
}
