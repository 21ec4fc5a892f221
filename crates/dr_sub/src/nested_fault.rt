//! Why a query over the results of others is refused.

ghost use Rattle.std.specs.Prelude.{◌≡◌};
ghost use Rattle.dr_sub.specs.NestedPlans.{fault_of_bind};
ghost use Rattle.dr_sub.specs.declared.nested_fault.NestedFault.TheVariants.{NoMemory as WantOfMemory};

use dr_bind::{BindFault, BindProblem};
use dr_memory::NoMemory;
use std::alloc::{AllocError, AllocFailed};

/// What is wrong with a query over the results of others.
#[derive(Clone, Copy, PartialEq, Eq)]
pub enum NestedProblem {
    /// One of its SELECTs can't be bound.
    Query(BindProblem),
    /// No item of the outermost object has the name by which a result is to go.
    BadOrder,
    /// An inner query gives no records, or is put in order or cut.
    NotRecords,
    /// An item of an inner query has a name that no field may have there.
    ResultName,
}

/// Why there is no plan: the first problem, with its byte place, or want of memory.
#[derive(Clone, Copy, PartialEq, Eq)]
pub enum NestedFault {
    NoMemory,
    Refused {
        place: usize,
        problem: NestedProblem,
    },
}

impl From<BindFault> for NestedFault {
    ghost from_gives = { λ fault made. made ≡ fault_of_bind fault };

    fn from(fault: BindFault) -> NestedFault {
        match fault {
            BindFault::NoMemory => NestedFault::NoMemory,
            BindFault::Refused(fault) => NestedFault::Refused {
                place: fault.place,
                problem: NestedProblem::Query(fault.problem),
            },
        }
    }
}

impl From<NoMemory> for NestedFault {
    ghost from_gives = { λ _ fault. fault ≡ WantOfMemory };

    fn from(_: NoMemory) -> NestedFault {
        NestedFault::NoMemory
    }
}

impl From<AllocError> for NestedFault {
    ghost from_gives = { λ _ fault. fault ≡ WantOfMemory };

    fn from(_: AllocError) -> NestedFault {
        NestedFault::NoMemory
    }
}

impl<T: Drop> From<AllocFailed<T>> for NestedFault {
    ghost from_gives = { λ _ fault. fault ≡ WantOfMemory };

    fn from(_: AllocFailed<T>) -> NestedFault {
        NestedFault::NoMemory
    }
}
