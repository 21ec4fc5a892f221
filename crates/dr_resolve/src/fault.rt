//! Why a query can't be bound to a schema, and which of several faults is the first.

ghost use Rattle.std.specs.Prelude.{◌≡◌, Some, None};
ghost use Rattle.dr_meaning.specs.Binding as binding;
ghost use Rattle.dr_resolve.specs.Faults.{problem_view, fault_view, first_view, earlier};
ghost use Rattle.dr_resolve.specs.declared.fault.BindFault.TheVariants.{NoMemory as WantOfMemory};

use dr_memory::NoMemory;
use std::alloc::{AllocError, AllocFailed};

/// What is wrong with a query, in the order in which problems at one place are told.
#[derive(Clone, Copy, PartialEq, Eq)]
pub enum BindProblem {
    /// The table's name isn't the message's.
    UnknownTable,
    /// No field has the path.
    UnknownField,
    /// The path leads to a group, where a value is wanted.
    NotALeaf,
    /// An operator, SUM or the condition has a value of a wrong type.
    TypeMismatch,
    /// The repeated fields on two paths aren't nested in one another.
    Unrelated,
    /// The node of WITHIN can't hold the rows of the aggregate's argument.
    BadWithin,
    /// An item of an aggregate query is neither a key nor an aggregate over the group.
    NotGrouped,
    /// An item has the name of what an earlier one puts into its object.
    DuplicateName,
}

impl BindProblem {
    /// Its place in this order.
    fn rank(self) -> u8
        ensures { result ≡ binding.rank (problem_view self) }
    {
        match self {
            BindProblem::UnknownTable => 0,
            BindProblem::UnknownField => 1,
            BindProblem::NotALeaf => 2,
            BindProblem::TypeMismatch => 3,
            BindProblem::Unrelated => 4,
            BindProblem::BadWithin => 5,
            BindProblem::NotGrouped => 6,
            BindProblem::DuplicateName => 7,
        }
    }
}

/// Why a query has no plan: its first problem, with its byte place, or want of memory.
#[derive(Clone, Copy, PartialEq, Eq)]
pub enum BindFault {
    NoMemory,
    Refused(Fault),
}

impl From<NoMemory> for BindFault {
    ghost from_gives = { λ _ fault. fault ≡ WantOfMemory };

    fn from(_: NoMemory) -> BindFault {
        BindFault::NoMemory
    }
}

impl From<AllocError> for BindFault {
    ghost from_gives = { λ _ fault. fault ≡ WantOfMemory };

    fn from(_: AllocError) -> BindFault {
        BindFault::NoMemory
    }
}

impl<T: Drop> From<AllocFailed<T>> for BindFault {
    ghost from_gives = { λ _ fault. fault ≡ WantOfMemory };

    fn from(_: AllocFailed<T>) -> BindFault {
        BindFault::NoMemory
    }
}

/// A problem at a byte place.
#[derive(Clone, Copy, PartialEq, Eq)]
pub struct Fault {
    pub place: usize,
    pub problem: BindProblem,
}

impl Fault {
    /// Whether it is told in place of another: it stands at a lower place, or at the same and its problem comes first.
    fn is_before(&self, other: &Fault) -> bool
        ensures { result ≡ binding.is_before (fault_view self.now) (fault_view other.now) }
    {
        self.place < other.place
            || (self.place == other.place && self.problem.rank() < other.problem.rank())
    }
}

/// The first of the faults so far, if there is one.
#[derive(Clone, Copy)]
pub struct FirstFault {
    pub fault: Option<Fault>,
}

impl FirstFault {
    /// No fault so far.
    pub fn none() -> FirstFault
        ensures { first_view result ≡ None }
    {
        FirstFault { fault: None }
    }

    /// One more fault, behind those so far.
    pub fn note(&mut self, place: usize, problem: BindProblem)
        ensures { first_view self.new ≡ earlier (first_view self.old)
            (Some (record { place = place; problem = problem_view problem })) }
    {
        let fault = Fault { place, problem };
        let first = match self.fault {
            Some(first) => {
                if fault.is_before(&first) {
                    fault
                } else {
                    first
                }
            }
            None => fault,
        };
        self.fault = Some(first);
    }
}
