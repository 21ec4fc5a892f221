//! Why a table is not loaded.

ghost use Rattle.std.specs.Prelude.{◌≡◌};
ghost use Rattle.dr_load.specs.declared.fault.LoadFault.TheVariants as stops;
ghost use Rattle.dr_load.specs.Faults.{of_outside, of_input};

use dr_input::{InputFault, LineProblem};
use dr_json::RecordProblem;
use dr_memory::NoMemory;
use dr_outside::Fault;
use std::alloc::{AllocError, AllocFailed};

/// Why a table is not loaded. Lines are counted from 1.
#[derive(Clone, Copy, PartialEq, Eq)]
pub enum LoadFault {
    NoMemory,
    /// This line is no record.
    BadLine { line: u64, problem: RecordProblem },
    /// This line has more than 1,048,576 bytes.
    LineTooLong { line: u64 },
    /// This line is the first past those that 4,096 tablets hold.
    TooManyRecords { line: u64 },
    /// The source failed.
    ReadFault,
    /// The keeper failed.
    KeepFault,
}

impl From<Fault> for LoadFault {
    ghost from_gives = { λ cause fault. fault ≡ of_outside cause };

    fn from(cause: Fault) -> LoadFault {
        match cause {
            Fault::Failed => LoadFault::KeepFault,
            Fault::NoMemory => LoadFault::NoMemory,
        }
    }
}

impl From<InputFault> for LoadFault {
    ghost from_gives = { λ cause fault. fault ≡ of_input cause };

    fn from(cause: InputFault) -> LoadFault {
        match cause {
            InputFault::NoMemory => LoadFault::NoMemory,
            InputFault::Source => LoadFault::ReadFault,
            InputFault::Refused { line, problem } => match problem {
                LineProblem::TooLong => LoadFault::LineTooLong { line },
                LineProblem::TooManyRecords => LoadFault::TooManyRecords { line },
                LineProblem::Record(problem) => LoadFault::BadLine { line, problem },
            },
        }
    }
}

impl From<NoMemory> for LoadFault {
    ghost from_gives = { λ _ fault. fault ≡ stops.NoMemory };

    fn from(_: NoMemory) -> LoadFault {
        LoadFault::NoMemory
    }
}

impl From<AllocError> for LoadFault {
    ghost from_gives = { λ _ fault. fault ≡ stops.NoMemory };

    fn from(_: AllocError) -> LoadFault {
        LoadFault::NoMemory
    }
}

impl<T: Drop> From<AllocFailed<T>> for LoadFault {
    ghost from_gives = { λ _ fault. fault ≡ stops.NoMemory };

    fn from(_: AllocFailed<T>) -> LoadFault {
        LoadFault::NoMemory
    }
}
