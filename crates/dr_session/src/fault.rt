//! Why a line isn't answered.

ghost use Rattle.std.specs.Prelude.{◌≡◌};
ghost use Rattle.dr_session.specs.declared.fault.HearFault.TheVariants as stops;
ghost use Rattle.dr_session.specs.Faults.{of_record, of_query};

use dr_json::{RecordFault, RecordProblem};
use dr_memory::NoMemory;
use dr_sub::{TextFault, TextProblem};
use std::alloc::AllocError;

/// What is wrong with a line of a session.
#[derive(Clone, Copy)]
pub enum SessionProblem {
    /// It has more than 1,048,576 bytes.
    TooLong,
    /// It is past the greatest number of lines.
    TooManyLines,
    /// It is past the greatest number of records that are published together.
    TooManyRecords,
    /// It is no record of the schema.
    Record(RecordProblem),
    /// As many tablets are published as there may be.
    Full,
    /// The query is refused, at a byte place behind the question mark.
    Query { place: usize, problem: TextProblem },
    /// It begins with no sign of a session.
    Command,
}

/// Why a line isn't answered.
#[derive(Clone, Copy)]
pub(crate) enum HearFault {
    NoMemory,
    Refused(SessionProblem),
}

impl From<NoMemory> for HearFault {
    ghost from_gives = { λ _ fault. fault ≡ stops.NoMemory };

    fn from(_: NoMemory) -> HearFault {
        HearFault::NoMemory
    }
}

impl From<AllocError> for HearFault {
    ghost from_gives = { λ _ fault. fault ≡ stops.NoMemory };

    fn from(_: AllocError) -> HearFault {
        HearFault::NoMemory
    }
}

impl From<RecordFault> for HearFault {
    ghost from_gives = { λ cause fault. fault ≡ of_record cause };

    fn from(cause: RecordFault) -> HearFault {
        match cause {
            RecordFault::NoMemory => HearFault::NoMemory,
            RecordFault::Refused(problem) => HearFault::Refused(SessionProblem::Record(problem)),
        }
    }
}

impl From<TextFault> for HearFault {
    ghost from_gives = { λ cause fault. fault ≡ of_query cause };

    fn from(cause: TextFault) -> HearFault {
        match cause {
            TextFault::NoMemory => HearFault::NoMemory,
            TextFault::Refused { place, problem } => {
                HearFault::Refused(SessionProblem::Query { place, problem })
            }
        }
    }
}
