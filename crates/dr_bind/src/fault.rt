//! Why a query is refused.

ghost use Rattle.std.specs.Prelude.{◌≡◌, ◌≤◌, length};
ghost use Rattle.dr_bind.specs.Faults.{problem_name, text_fault, bind_fault};

use dr_resolve::{BindFault, BindProblem};
use dr_sql::{QueryFault as TextFault, QueryProblem as TextProblem};

/// What is wrong with a query.
#[derive(Clone, Copy, PartialEq, Eq)]
pub enum QueryProblem {
    /// Its text spells none.
    Text(TextProblem),
    /// The schema has no meaning for it.
    Binding(BindProblem),
}

impl QueryProblem {
    /// Its name, as it is told on standard error.
    pub fn name(self) -> &'static str
        ensures word { result.now ≡ problem_name self }
        ensures short { length result.now ≤ 20 }
    {
        match self {
            QueryProblem::Text(TextProblem::TooLong) => "TooLong",
            QueryProblem::Text(TextProblem::Syntax) => "Syntax",
            QueryProblem::Text(TextProblem::TooDeep) => "TooDeep",
            QueryProblem::Text(TextProblem::TooMany) => "TooMany",
            QueryProblem::Binding(BindProblem::UnknownTable) => "UnknownTable",
            QueryProblem::Binding(BindProblem::UnknownField) => "UnknownField",
            QueryProblem::Binding(BindProblem::NotALeaf) => "NotALeaf",
            QueryProblem::Binding(BindProblem::TypeMismatch) => "TypeMismatch",
            QueryProblem::Binding(BindProblem::Unrelated) => "Unrelated",
            QueryProblem::Binding(BindProblem::BadWithin) => "BadWithin",
            QueryProblem::Binding(BindProblem::NotGrouped) => "NotGrouped",
            QueryProblem::Binding(BindProblem::DuplicateName) => "DuplicateName",
        }
    }
}

/// Why a text gives no plan: the first fault of the text, or else the first of binding it to the schema, with its byte
/// place; or want of memory.
#[derive(Clone, Copy, PartialEq, Eq)]
pub enum QueryFault {
    NoMemory,
    Refused { place: usize, problem: QueryProblem },
}

impl From<TextFault> for QueryFault {
    ghost from_gives = { λ fault made. made ≡ text_fault fault };

    fn from(fault: TextFault) -> QueryFault {
        match fault {
            TextFault::NoMemory => QueryFault::NoMemory,
            TextFault::Refused { place, problem } => QueryFault::Refused {
                place,
                problem: QueryProblem::Text(problem),
            },
        }
    }
}

impl From<BindFault> for QueryFault {
    ghost from_gives = { λ fault made. made ≡ bind_fault fault };

    fn from(fault: BindFault) -> QueryFault {
        match fault {
            BindFault::NoMemory => QueryFault::NoMemory,
            BindFault::Refused(fault) => QueryFault::Refused {
                place: fault.place,
                problem: QueryProblem::Binding(fault.problem),
            },
        }
    }
}
