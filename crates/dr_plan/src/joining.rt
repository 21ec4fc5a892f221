//! How conjuncts are joined.

ghost use Rattle.std.specs.Prelude.{◌≡◌, IfOk};
ghost use Rattle.dr_plan.specs.Conjuncts as meant;
ghost use Rattle.dr_plan.specs.Views.{joining_view};

use crate::building::both;
use dr_memory::NoMemory;
use std::alloc::Global;

/// How the conjuncts of a condition, by their numbers from 0 on, are joined by AND, as it was written. A number without
/// a conjunct stands for TRUE.
#[derive(Drop)]
pub enum Joining {
    Conjunct(usize),
    And(Box<Joining>, Box<Joining>),
}

impl Joining {
    /// One joined to another.
    ///
    /// Errors: want of memory alone.
    pub(crate) fn and(alloc: Global, left: Joining, right: Joining) -> Result<Joining, NoMemory>
        ensures { IfOk result (λ j. joining_view j ≡ meant.by_and (joining_view left) (joining_view right)) }
    {
        let (left, right) = both(alloc, left, right)?;
        Ok(Joining::And(left, right))
    }
}
