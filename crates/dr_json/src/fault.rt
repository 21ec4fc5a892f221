//! Why a line is no record.

ghost use Rattle.std.specs.Prelude.{◌≡◌};
ghost use Rattle.dr_json.specs.declared.fault.RecordFault.TheVariants.{NoMemory};

use dr_nested::NoMemory as WantOfMemory;
use std::alloc::{AllocError, AllocFailed};

/// What is wrong with a line that is no record of a schema.
#[derive(Clone, Copy, PartialEq, Eq)]
pub enum RecordProblem {
    /// The line isn't UTF-8, or `serde_json` doesn't read it as a value.
    NotJson,
    /// An object has a key that is no field of its group.
    UnknownField,
    /// A required field is missing or null.
    MissingField,
    /// A value is of another kind than its field, or no list where the field is repeated.
    WrongKind,
    /// A whole number doesn't fit its field's kind.
    OutOfRange,
    /// An element of a list is null.
    NullElement,
    /// The record has more than 1,048,575 instances of fields, or more than 2^30 bytes of texts.
    TooLarge,
}

/// Why a line gives no record: its first problem, or want of memory, which says nothing of the line.
#[derive(Clone, Copy, PartialEq, Eq)]
pub enum RecordFault {
    NoMemory,
    Refused(RecordProblem),
}

impl From<AllocError> for RecordFault {
    ghost from_gives = { λ _ e. e ≡ NoMemory };

    fn from(_refused: AllocError) -> RecordFault {
        RecordFault::NoMemory
    }
}

impl<T: Drop> From<AllocFailed<T>> for RecordFault {
    ghost from_gives = { λ _ e. e ≡ NoMemory };

    fn from(_refused: AllocFailed<T>) -> RecordFault {
        RecordFault::NoMemory
    }
}

impl From<WantOfMemory> for RecordFault {
    ghost from_gives = { λ _ e. e ≡ NoMemory };

    fn from(_refused: WantOfMemory) -> RecordFault {
        RecordFault::NoMemory
    }
}
