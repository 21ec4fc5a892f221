//! Why a table file is refused.

ghost use Rattle.std.specs.Prelude.{◌≡◌};
ghost use Rattle.dr_table.specs.declared.fault.TableFault.TheVariants.{Refused, NoMemory as WantOfMemory};
ghost use Rattle.dr_table.specs.Faults.{of_schema};

use dr_memory::NoMemory;
use dr_nested::{SchemaFault, SchemaProblem};
use std::alloc::{AllocError, AllocFailed};

/// What is wrong with a table file: the first of these that is.
#[derive(Clone, Copy, PartialEq, Eq)]
pub enum TableProblem {
    /// The text has more than 2,097,152 bytes.
    TooLong,
    /// The text is not UTF-8, or its first line is not `dremel-table 1`.
    Head,
    /// The second line is not `tablets N`, with N from 1 to 4,096 in decimal.
    Tablets,
    /// The third line is not `copies N`, with N from 1 to 64 in decimal, or there are more copies than leaf lines.
    Copies,
    /// The line of this number, from 0, behind the third is neither a leaf line `leaf DIR` nor, behind a leaf line, the
    /// line `schema`; or it is a 65th leaf line.
    Leaf(usize),
    /// The text behind the line `schema` is no schema: its first problem, with its byte offset there.
    Schema {
        offset: usize,
        problem: SchemaProblem,
    },
}

/// Why a table file gives no table: its first problem, or want of memory.
#[derive(Clone, Copy, PartialEq, Eq)]
pub enum TableFault {
    NoMemory,
    Refused(TableProblem),
}

impl From<TableProblem> for TableFault {
    ghost from_gives = { λ problem fault. fault ≡ Refused problem };

    fn from(problem: TableProblem) -> TableFault {
        TableFault::Refused(problem)
    }
}

impl From<SchemaFault> for TableFault {
    ghost from_gives = { λ cause fault. fault ≡ of_schema cause };

    fn from(cause: SchemaFault) -> TableFault {
        match cause {
            SchemaFault::NoMemory => TableFault::NoMemory,
            SchemaFault::Refused { offset, problem } => {
                TableFault::Refused(TableProblem::Schema { offset, problem })
            }
        }
    }
}

impl From<NoMemory> for TableFault {
    ghost from_gives = { λ _ fault. fault ≡ WantOfMemory };

    fn from(_: NoMemory) -> TableFault {
        TableFault::NoMemory
    }
}

impl From<AllocError> for TableFault {
    ghost from_gives = { λ _ fault. fault ≡ WantOfMemory };

    fn from(_: AllocError) -> TableFault {
        TableFault::NoMemory
    }
}

impl<T: Drop> From<AllocFailed<T>> for TableFault {
    ghost from_gives = { λ _ fault. fault ≡ WantOfMemory };

    fn from(_: AllocFailed<T>) -> TableFault {
        TableFault::NoMemory
    }
}
