//! Why a text gives no plans of queries over the results of others.

ghost use Rattle.std.specs.Prelude.{◌≡◌, ◌≤◌, length};
ghost use Rattle.dr_sub.specs.Texts.{problem_name, text_fault, bound_fault};

use crate::nested_fault::{NestedFault, NestedProblem};
use dr_sql::{QueryFault, QueryProblem};

/// What is wrong with a text.
#[derive(Clone, Copy, PartialEq, Eq)]
pub enum TextProblem {
    /// It spells no query.
    Text(QueryProblem),
    /// The schema has no meaning for one of its SELECTs, or for how they stand together.
    Binding(NestedProblem),
}

impl TextProblem {
    /// Its name, as it is told on standard error.
    pub fn name(self) -> &'static str
        ensures word { result.now ≡ problem_name self }
        ensures short { length result.now ≤ 20 }
    {
        match self {
            TextProblem::Text(QueryProblem::TooLong) => "TooLong",
            TextProblem::Text(QueryProblem::Syntax) => "Syntax",
            TextProblem::Text(QueryProblem::TooDeep) => "TooDeep",
            TextProblem::Text(QueryProblem::TooMany) => "TooMany",
            TextProblem::Binding(NestedProblem::BadOrder) => "BadOrder",
            TextProblem::Binding(NestedProblem::NotRecords) => "NotRecords",
            TextProblem::Binding(NestedProblem::ResultName) => "ResultName",
            TextProblem::Binding(NestedProblem::Query(problem)) => {
                dr_bind::QueryProblem::Binding(problem).name()
            }
        }
    }
}

/// Why a text gives no plans: its first fault, or else the first of binding it to the schema, with its byte place; or
/// want of memory.
#[derive(Clone, Copy, PartialEq, Eq)]
pub enum TextFault {
    NoMemory,
    Refused { place: usize, problem: TextProblem },
}

impl From<QueryFault> for TextFault {
    ghost from_gives = { λ fault made. made ≡ text_fault fault };

    fn from(fault: QueryFault) -> TextFault {
        match fault {
            QueryFault::NoMemory => TextFault::NoMemory,
            QueryFault::Refused { place, problem } => TextFault::Refused {
                place,
                problem: TextProblem::Text(problem),
            },
        }
    }
}

impl From<NestedFault> for TextFault {
    ghost from_gives = { λ fault made. made ≡ bound_fault fault };

    fn from(fault: NestedFault) -> TextFault {
        match fault {
            NestedFault::NoMemory => TextFault::NoMemory,
            NestedFault::Refused { place, problem } => TextFault::Refused {
                place,
                problem: TextProblem::Binding(problem),
            },
        }
    }
}
