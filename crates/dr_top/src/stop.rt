//! What stops a command before its whole text.

ghost use Rattle.std.specs.Prelude.{◌≡◌};
ghost use Rattle.dr_top.specs.declared.stop.Stop.TheVariants as stops;
ghost use Rattle.dr_top.specs.Stops.{words_stop, schema_stop, table_stop, keeper_stop, words_problem_stop, field_stop, query_stop, input_stop, load_stop, file_stop};

use crate::field::FieldFault;
use crate::refusal::Refusal;
use dr_file::FileFault;
use dr_input::{InputFault, LineProblem};
use dr_load::{LoadFault, WordsProblem};
use dr_memory::NoMemory;
use dr_nested::SchemaFault;
use dr_outside::{Cause, Fault};
use dr_sub::TextFault;
use dr_table::{LeftTablet, TableFault};
use dr_words::WordsFault;
use std::alloc::AllocFailed;

/// Why a command doesn't give its whole text.
#[derive(Drop)]
pub enum Stop {
    /// The words ask for nothing.
    Usage,
    /// Memory ran out.
    NoMemory,
    /// The source failed.
    Source,
    /// The keeper failed.
    Keeper,
    Refused(Refusal),
    /// Tablets are left: none of their copies gave records.
    Left(Vec<LeftTablet>),
    /// Some tablets are left, and the text is that of the others, which are the share that was asked for.
    Most { text: String, left: Vec<LeftTablet> },
    /// A file gave no schema.
    LeftFile(Cause),
}

impl From<NoMemory> for Stop {
    ghost from_gives = { λ _ stop. stop ≡ stops.NoMemory };

    fn from(_: NoMemory) -> Stop {
        Stop::NoMemory
    }
}

impl<T: Drop> From<AllocFailed<T>> for Stop {
    ghost from_gives = { λ _ stop. stop ≡ stops.NoMemory };

    fn from(_: AllocFailed<T>) -> Stop {
        Stop::NoMemory
    }
}

impl From<WordsFault> for Stop {
    ghost from_gives = { λ fault stop. stop ≡ words_stop fault };

    fn from(fault: WordsFault) -> Stop {
        match fault {
            WordsFault::Usage => Stop::Usage,
            WordsFault::NoMemory => Stop::NoMemory,
        }
    }
}

impl From<SchemaFault> for Stop {
    ghost from_gives = { λ fault stop. stop ≡ schema_stop fault };

    fn from(fault: SchemaFault) -> Stop {
        match fault {
            SchemaFault::NoMemory => Stop::NoMemory,
            SchemaFault::Refused { offset, problem } => {
                Stop::Refused(Refusal::Schema { offset, problem })
            }
        }
    }
}

impl From<TableFault> for Stop {
    ghost from_gives = { λ fault stop. stop ≡ table_stop fault };

    fn from(fault: TableFault) -> Stop {
        match fault {
            TableFault::NoMemory => Stop::NoMemory,
            TableFault::Refused(problem) => Stop::Refused(Refusal::Table(problem)),
        }
    }
}

/// The fault of a call of the keeper.
impl From<Fault> for Stop {
    ghost from_gives = { λ fault stop. stop ≡ keeper_stop fault };

    fn from(fault: Fault) -> Stop {
        match fault {
            Fault::Failed => Stop::Keeper,
            Fault::NoMemory => Stop::NoMemory,
        }
    }
}

impl From<WordsProblem> for Stop {
    ghost from_gives = { λ problem stop. stop ≡ words_problem_stop problem };

    fn from(problem: WordsProblem) -> Stop {
        Stop::Refused(Refusal::Words(problem))
    }
}

impl From<LoadFault> for Stop {
    ghost from_gives = { λ fault stop. stop ≡ load_stop fault };

    fn from(fault: LoadFault) -> Stop {
        match fault {
            LoadFault::NoMemory => Stop::NoMemory,
            LoadFault::BadLine { line, problem } => Stop::Refused(Refusal::Line {
                number: line,
                problem: LineProblem::Record(problem),
            }),
            LoadFault::LineTooLong { line } => Stop::Refused(Refusal::Line {
                number: line,
                problem: LineProblem::TooLong,
            }),
            LoadFault::TooManyRecords { line } => Stop::Refused(Refusal::Line {
                number: line,
                problem: LineProblem::TooManyRecords,
            }),
            LoadFault::ReadFault => Stop::Source,
            LoadFault::KeepFault => Stop::Keeper,
        }
    }
}

impl From<FieldFault> for Stop {
    ghost from_gives = { λ fault stop. stop ≡ field_stop fault };

    fn from(fault: FieldFault) -> Stop {
        match fault {
            FieldFault::NoMemory => Stop::NoMemory,
            FieldFault::Refused { number, problem } => {
                Stop::Refused(Refusal::Field { number, problem })
            }
        }
    }
}

impl From<TextFault> for Stop {
    ghost from_gives = { λ fault stop. stop ≡ query_stop fault };

    fn from(fault: TextFault) -> Stop {
        match fault {
            TextFault::NoMemory => Stop::NoMemory,
            TextFault::Refused { place, problem } => {
                Stop::Refused(Refusal::Query { place, problem })
            }
        }
    }
}

impl From<InputFault> for Stop {
    ghost from_gives = { λ fault stop. stop ≡ input_stop fault };

    fn from(fault: InputFault) -> Stop {
        match fault {
            InputFault::NoMemory => Stop::NoMemory,
            InputFault::Source => Stop::Source,
            InputFault::Refused { line, problem } => Stop::Refused(Refusal::Line {
                number: line,
                problem,
            }),
        }
    }
}

impl From<FileFault> for Stop {
    ghost from_gives = { λ fault stop. stop ≡ file_stop fault };

    fn from(fault: FileFault) -> Stop {
        match fault {
            FileFault::NoMemory => Stop::NoMemory,
            FileFault::Why(cause) => Stop::LeftFile(cause),
        }
    }
}
