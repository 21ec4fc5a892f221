//! The tests of a plan with their answers, and the pruner that goes by them.

ghost use Rattle.std.specs.Prelude.{◌≡◌, ◌<◌, ◌≤◌, ◌++◌, ◌∷◌, [], List, IfOk, OnOk, length, Some};
ghost use Rattle.dr_levels.specs.Views.{move_view};
ghost use Rattle.dr_meaning.specs.Walk.{Move as MeantMove};
ghost use Rattle.dr_prune.specs.PartAnswers.{lasts_of, parts_of, tested_to};
ghost use Rattle.dr_prune.specs.Pruning.{open_in};
ghost use Rattle.dr_scalar.specs.Slots.{slot_value};
ghost use Rattle.dr_condition.specs.Parted.{lent_tests, test_at, watch_parts};
ghost use Rattle.dr_condition.specs.Watching.{TellsKept, dropped_at, HoldRead, HaveTested};

use crate::parts::{Parts, is_true};
use crate::told::{Told, is_all_kept, is_left_dropped};
use dr_levels::{Move, ValueRef};
use dr_memory::NoMemory;
use dr_plan::Truth;
use dr_prune::{Answers, Pruner};
use std::alloc::Global;

/// Tests, all of which must be true; whether each was true where the last of its own leaves was read last; and the
/// pruner that goes by these answers.
#[derive(Drop)]
pub(crate) struct Watched<'p> {
    pub(crate) tests: Vec<&'p Truth>,
    pub(crate) answers: Answers,
    pub(crate) pruner: Pruner,
    ghost answered: { length tests.items ≡ length (lasts_of answers) },
}

/// Tests each part whose last leaf is this one. The other answers stay.
#[inline(always)]
fn test_at_leaf(
    alloc: Global,
    leaf: u32,
    tests: &[&Truth],
    slots: &[Option<ValueRef<'_>>],
    answers: &mut Answers,
) -> Result<(), NoMemory>
    requires { length tests.now ≡ length (lasts_of answers.old) }
    ensures tested { OnOk result (parts_of (test_at (lent_tests tests.now)) answers.new
        ≡ tested_to (length (lasts_of answers.old)) leaf (slot_value slots.now)
        (parts_of (test_at (lent_tests tests.now)) answers.old)) }
    ensures lasts { lasts_of answers.new ≡ lasts_of answers.old }
{
    'tests: for (part, test) in tests.iter().enumerate() {
        if answers.is_tested_at(part, leaf) {
            let holds = is_true(alloc, test, slots)?;
            answers.set(part, holds);
        }
    }
    Ok(())
}

/// Tests each part whose last leaf is the one that a move reads, where the slots hold what was read last of each leaf,
/// with this move. The other answers stay.
///
/// Errors: want of memory alone.
#[inline(always)]
fn test_at_move(
    alloc: Global,
    read: &Move<'_>,
    tests: &[&Truth],
    slots: &[Option<ValueRef<'_>>],
    answers: &mut Answers,
) -> Result<(), NoMemory>
    requires { length tests.now ≡ length (lasts_of answers.old) }
    ensures answered { OnOk result ((ms : List MeantMove) → HaveTested tests.now ms answers.old
        → HoldRead slots.now (ms ++ move_view read.now ∷ [])
        → HaveTested tests.now (ms ++ move_view read.now ∷ []) answers.new) }
    ensures lasts { lasts_of answers.new ≡ lasts_of answers.old }
{
    match read {
        Move::Leaf(leaf, _) => test_at_leaf(alloc, *leaf, tests, slots, answers),
        Move::Enter(_) | Move::Leave(_) => Ok(()),
    }
}

impl<'p> Watched<'p> {
    ghost use Rattle.dr_condition.specs.Conditions.{watched_parts, HasSeen, OverSeen};

    /// Before any move: tests, each with its last leaf, of which this is the last that is read, with the numbers of the
    /// repeated fields on its path.
    ///
    /// Errors: want of memory alone.
    pub(crate) fn new(
        alloc: Global,
        parts: Parts<'p>,
        last: u32,
        chain: &[u32],
    ) -> Result<Watched<'p>, NoMemory>
        requires few { length chain.now ≤ 32 }
        requires each { length parts.tests.items ≡ length parts.lasts.items }
        ensures watches { IfOk result (λ w. watched_parts w
            ≡ watch_parts chain.now last (lent_tests parts.entry.tests.items) parts.entry.lasts.items) }
        ensures begins { IfOk result (λ w. HasSeen w []) }
    {
        let answers = Answers::new(alloc, &parts.lasts)?;
        let pruner = Pruner::new(alloc, chain, last)?;
        Ok(Watched {
            tests: parts.tests,
            answers,
            pruner,
        })
    }

    /// What is known with the next move, where the slots hold what was read last of each leaf, with this move.
    ///
    /// Errors: want of memory alone.
    #[inline(always)]
    pub(crate) fn step(
        &mut self,
        alloc: Global,
        read: &Move<'_>,
        slots: &[Option<ValueRef<'_>>],
    ) -> Result<Told, NoMemory>
        requires { open_in (self.old).pruner < 64 }
        ensures kept { IfOk result (λ t. OverSeen self.old (move_view read.now) slots.now (λ ms.
            TellsKept (Some (watched_parts self.old)) ms (move_view read.now) t.is_kept)) }
        ensures dropped { IfOk result (λ t. OverSeen self.old (move_view read.now) slots.now (λ ms.
            t.is_dropped ≡ dropped_at (Some (watched_parts self.old)) ms (move_view read.now))) }
        ensures watched { OnOk result (OverSeen self.old (move_view read.now) slots.now (λ ms.
            HasSeen self.new (ms ++ move_view read.now ∷ []))) }
        ensures watches { watched_parts self.new ≡ watched_parts self.old }
    {
        test_at_move(alloc, read, &self.tests, slots, &mut self.answers)?;
        let depth = self.pruner.open();
        let kept = self.pruner.step_with(read, &self.answers);
        Ok(Told {
            is_kept: is_all_kept(kept),
            is_dropped: is_left_dropped(kept, read, depth),
        })
    }
}
