//! Why a schema text or a path is refused.

ghost use Rattle.std.specs.Prelude.{◌≡◌};
ghost use Rattle.dr_nested.specs.declared.fault.PathFault.TheVariants.{Refused, NoMemory as WantOfMemory};

use dr_memory::NoMemory;
use std::alloc::{AllocError, AllocFailed};

/// What is wrong with a schema text.
#[derive(Clone, Copy, PartialEq, Eq)]
pub enum SchemaProblem {
    /// The text has more than 1,048,576 bytes.
    TooLong,
    /// `float` or `double` where a kind may stand.
    FloatKind,
    /// A `}` directly after a `{`.
    EmptyGroup,
    /// The first token with which no schema text goes on, or the text's end where none ends there.
    Syntax,
    /// A name of more than 64 bytes.
    BadName,
    /// A field's name that an earlier field of its group has.
    DuplicateName,
    /// A name whose path has 33 parts.
    TooDeep,
    /// The name of the 1,025th leaf.
    TooManyLeaves,
}

/// Why a schema text gives no schema: its first problem, with its byte offset, or want of memory.
#[derive(Clone, Copy, PartialEq, Eq)]
pub enum SchemaFault {
    NoMemory,
    Refused {
        offset: usize,
        problem: SchemaProblem,
    },
}

/// What is wrong with the path of a leaf.
#[derive(Clone, Copy, PartialEq, Eq)]
pub enum PathProblem {
    /// It leads to no field.
    UnknownField,
    /// It leads to a group.
    NotALeaf,
}

/// Why a path gives no leaf: its problem, or want of memory.
#[derive(Clone, Copy, PartialEq, Eq)]
pub enum PathFault {
    NoMemory,
    Refused(PathProblem),
}

impl From<PathProblem> for PathFault {
    ghost from_gives = { λ problem fault. fault ≡ Refused problem };

    fn from(problem: PathProblem) -> PathFault {
        PathFault::Refused(problem)
    }
}

impl From<NoMemory> for PathFault {
    ghost from_gives = { λ _ fault. fault ≡ WantOfMemory };

    fn from(_: NoMemory) -> PathFault {
        PathFault::NoMemory
    }
}

impl From<AllocError> for PathFault {
    ghost from_gives = { λ _ fault. fault ≡ WantOfMemory };

    fn from(_: AllocError) -> PathFault {
        PathFault::NoMemory
    }
}

impl<T: Drop> From<AllocFailed<T>> for PathFault {
    ghost from_gives = { λ _ fault. fault ≡ WantOfMemory };

    fn from(_: AllocFailed<T>) -> PathFault {
        PathFault::NoMemory
    }
}
