//! Why an input gives no record.

ghost use Rattle.std.specs.Prelude.{◌≡◌};
ghost use Rattle.dr_input.specs.declared.fault.InputFault.TheVariants as stops;

use dr_json::RecordProblem;
use dr_memory::NoMemory;

/// What is wrong with an input line.
#[derive(Clone, Copy, PartialEq, Eq)]
pub enum LineProblem {
    /// It has more than 1,048,576 bytes.
    TooLong,
    /// It is past the greatest number of lines.
    TooManyRecords,
    /// It is no record of the schema.
    Record(RecordProblem),
}

/// Why an input gives no record.
#[derive(Clone, Copy, PartialEq, Eq)]
pub enum InputFault {
    NoMemory,
    /// The source failed.
    Source,
    /// This line, counted from 1, is the first that is refused.
    Refused { line: u64, problem: LineProblem },
}

impl From<NoMemory> for InputFault {
    ghost from_gives = { λ _ fault. fault ≡ stops.NoMemory };

    fn from(_: NoMemory) -> InputFault {
        InputFault::NoMemory
    }
}
