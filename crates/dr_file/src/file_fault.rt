//! Why a file gives nothing.

ghost use Rattle.std.specs.Prelude.{◌≡◌};
ghost use Rattle.dr_file.specs.declared.file_fault.FileFault.TheVariants.{NoMemory as WantOfMemory};

use dr_memory::NoMemory;
use dr_outside::Cause;

/// Why a file gives nothing.
#[derive(Clone, Copy, PartialEq, Eq)]
pub enum FileFault {
    NoMemory,
    /// The link failed, or the file is none of any records for the leaves: the first cause that holds.
    Why(Cause),
}

impl From<NoMemory> for FileFault {
    ghost from_gives = { λ _ fault. fault ≡ WantOfMemory };

    fn from(_: NoMemory) -> FileFault {
        FileFault::NoMemory
    }
}
