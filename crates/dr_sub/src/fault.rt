//! Why a query gives no records of a schema.

ghost use Rattle.std.specs.Prelude.{◌≡◌};
ghost use Rattle.dr_sub.specs.declared.fault.ResultFault.TheVariants.{NoMemory as WantOfMemory};

use dr_memory::NoMemory;
use std::alloc::AllocError;

/// Why a query has no result schema.
#[derive(Clone, Copy, PartialEq, Eq)]
pub enum SubFault {
    /// It is an aggregate query.
    NotRecords,
    /// The item of this number is the first that has a name that no field may have there.
    ResultName(usize),
}

/// Why there is no result schema: want of memory, or what the query has against it.
#[derive(Clone, Copy, PartialEq, Eq)]
pub enum ResultFault {
    NoMemory,
    Refused(SubFault),
}

impl From<NoMemory> for ResultFault {
    ghost from_gives = { λ _ fault. fault ≡ WantOfMemory };

    fn from(_: NoMemory) -> ResultFault {
        ResultFault::NoMemory
    }
}

impl From<AllocError> for ResultFault {
    ghost from_gives = { λ _ fault. fault ≡ WantOfMemory };

    fn from(_: AllocError) -> ResultFault {
        ResultFault::NoMemory
    }
}
