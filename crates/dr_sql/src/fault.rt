//! Why a query's text is refused.

ghost use Rattle.std.specs.Prelude.{◌≡◌};
ghost use Rattle.dr_sql.specs.declared.fault.QueryFault.TheVariants.{NoMemory as WantOfMemory};

use dr_memory::NoMemory;
use std::alloc::{AllocError, AllocFailed};

/// What is wrong with a query's text.
#[derive(Clone, Copy, PartialEq, Eq)]
pub enum QueryProblem {
    /// The text has more than 65,536 bytes.
    TooLong,
    /// The first token with which the tokens so far begin no query, or the text's end where no query ends there.
    Syntax,
    /// The token that opens the 33rd nesting: a parenthesis, a NOT before an operand, a minus sign before one.
    TooDeep,
    /// The first token of the 257th item or key, or the 513th token among `+ - *` AND OR.
    TooMany,
}

/// Why a query's text gives no syntax tree: its first problem, with its byte place, or want of memory.
#[derive(Clone, Copy, PartialEq, Eq)]
pub enum QueryFault {
    NoMemory,
    Refused { place: usize, problem: QueryProblem },
}

impl From<NoMemory> for QueryFault {
    ghost from_gives = { λ _ fault. fault ≡ WantOfMemory };

    fn from(_: NoMemory) -> QueryFault {
        QueryFault::NoMemory
    }
}

impl From<AllocError> for QueryFault {
    ghost from_gives = { λ _ fault. fault ≡ WantOfMemory };

    fn from(_: AllocError) -> QueryFault {
        QueryFault::NoMemory
    }
}

impl<T: Drop> From<AllocFailed<T>> for QueryFault {
    ghost from_gives = { λ _ fault. fault ≡ WantOfMemory };

    fn from(_: AllocFailed<T>) -> QueryFault {
        QueryFault::NoMemory
    }
}
