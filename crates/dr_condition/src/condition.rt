//! The condition of a plan along a walk.

ghost use Rattle.std.specs.Prelude.{◌≡◌, ◌<◌, ◌≤◌, ◌++◌, ◌∷◌, [], IfOk, OnOk, OnErr, IsErr, length, true, false, Some, None};
ghost use Rattle.dr_levels.specs.Views.{move_view};
ghost use Rattle.dr_condition.specs.Parted.{lent_tests, watch_parts};
ghost use Rattle.dr_condition.specs.Conditions.{watch_in, HasWatched, open_for, failed_for, OverWatched};
ghost use Rattle.dr_condition.specs.Watching.{TellsKept, dropped_at};

use crate::parts::Parts;
use crate::told::Told;
use crate::watched::Watched;
use dr_levels::{Move, ValueRef};
use dr_memory::NoMemory;
use std::alloc::Global;

/// The condition of a plan along a walk: its tests that are watched, none where each record is kept whole.
#[derive(Drop)]
pub struct Condition<'p> {
    pub(crate) watched: Option<Watched<'p>>,
    /// Whether a move was refused.
    pub(crate) failed: bool,
}

impl<'p> Condition<'p> {
    /// A condition that keeps all.
    pub(crate) fn none() -> Condition<'p>
        ensures watches { watch_in result ≡ None }
        ensures begins { HasWatched result [] }
    {
        Condition {
            watched: None,
            failed: false,
        }
    }

    /// Tests, each with its last leaf, of which this is the last that is read, with the numbers of the repeated fields
    /// on its path.
    ///
    /// Errors: want of memory alone.
    pub(crate) fn new(
        alloc: Global,
        parts: Parts<'p>,
        last: u32,
        chain: &[u32],
    ) -> Result<Condition<'p>, NoMemory>
        requires few { length chain.now ≤ 32 }
        requires each { length parts.tests.items ≡ length parts.lasts.items }
        ensures watches { IfOk result (λ c. watch_in c ≡ Some (watch_parts chain.now last
            (lent_tests parts.entry.tests.items) parts.entry.lasts.items)) }
        ensures begins { IfOk result (λ c. HasWatched c []) }
    {
        Ok(Condition {
            watched: Some(Watched::new(alloc, parts, last, chain)?),
            failed: false,
        })
    }

    /// What is known with the next move, where the slots hold what was read last of each leaf, with this move.
    ///
    /// Errors: want of memory alone. A condition refuses from then on.
    #[inline(always)]
    pub fn step(
        &mut self,
        alloc: Global,
        read: &Move<'_>,
        slots: &[Option<ValueRef<'_>>],
    ) -> Result<Told, NoMemory>
        requires { open_for self.old < 64 }
        ensures kept { IfOk result (λ t. OverWatched self.old (move_view read.now) slots.now (λ ms.
            TellsKept (watch_in self.old) ms (move_view read.now) t.is_kept)) }
        ensures dropped { IfOk result (λ t. OverWatched self.old (move_view read.now) slots.now (λ ms.
            t.is_dropped ≡ dropped_at (watch_in self.old) ms (move_view read.now))) }
        ensures watched { OnOk result (OverWatched self.old (move_view read.now) slots.now (λ ms.
            HasWatched self.new (ms ++ move_view read.now ∷ []))) }
        ensures watches { watch_in self.new ≡ watch_in self.old }
        ensures again { failed_for self.old ≡ true → IsErr result }
        ensures refused { OnErr result (failed_for self.new ≡ true) }
    {
        if self.failed {
            return Err(NoMemory);
        }
        match self.watch(alloc, read, slots) {
            Ok(told) => Ok(told),
            Err(NoMemory) => {
                self.failed = true;
                Err(NoMemory)
            }
        }
    }

    /// As `step`, for a condition that refused nothing, where a refusal isn't noted.
    #[inline(always)]
    fn watch(
        &mut self,
        alloc: Global,
        read: &Move<'_>,
        slots: &[Option<ValueRef<'_>>],
    ) -> Result<Told, NoMemory>
        requires { open_for self.old < 64 }
        ensures kept { IfOk result (λ t. OverWatched self.old (move_view read.now) slots.now (λ ms.
            TellsKept (watch_in self.old) ms (move_view read.now) t.is_kept)) }
        ensures dropped { IfOk result (λ t. OverWatched self.old (move_view read.now) slots.now (λ ms.
            t.is_dropped ≡ dropped_at (watch_in self.old) ms (move_view read.now))) }
        ensures watched { OnOk result (OverWatched self.old (move_view read.now) slots.now (λ ms.
            HasWatched self.new (ms ++ move_view read.now ∷ []))) }
        ensures watches { watch_in self.new ≡ watch_in self.old }
    {
        match &mut self.watched {
            Some(watched) => watched.step(alloc, read, slots),
            None => Ok(Told {
                is_kept: true,
                is_dropped: false,
            }),
        }
    }
}
