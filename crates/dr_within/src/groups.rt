//! The groups of a plan, made along a walk.

ghost use Rattle.std.specs.Prelude.{◌≡◌, ◌<◌, ◌++◌, ◌∷◌, [], ℕ, List, IfOk, OnOk};
ghost use Rattle.dr_levels.specs.Views.{move_view};
ghost use Rattle.dr_meaning.specs.Path.{Leaf};
ghost use Rattle.dr_meaning.specs.Walk.{Move as MeantMove};
ghost use Rattle.dr_plan.specs.Planned.{Planned, plan_view, plan_leaves};
ghost use Rattle.dr_group.specs.Partials.{IsPartialOf, IsOfPuts};
ghost use Rattle.dr_condition.specs.Conditions.{open_for, watch_in, HasWatched};
ghost use Rattle.dr_within.specs.Takings.{Take, takings_of};
ghost use Rattle.dr_within.specs.Behind.{IsBehind, GoesBehind, puts_behind};
ghost use Rattle.dr_within.specs.Rows.{HasRead, IsOfLeaf};

use crate::firing::Firing;
use crate::frames::Frames;
use crate::row::Row;
use crate::taking::Taking;
use dr_condition::Condition;
use dr_group::Partial;
use dr_levels::Move;
use dr_memory::NoMemory;
use dr_plan::{Aggregate, Plan};
use std::alloc::Global;

/// The groups of a plan's records, made of the moves of their walk, one after another.
#[derive(Drop)]
pub struct GroupScan<'a> {
    /// The keys, by the numbers of their leaves.
    pub(crate) keys: &'a [u32],
    pub(crate) firing: Firing<'a>,
    pub(crate) condition: Condition<'a>,
    pub(crate) frames: Frames,
}

impl<'a> GroupScan<'a> {
    /// Before any move, for a plan with these keys, aggregates and condition.
    pub(crate) fn new(
        alloc: Global,
        plan: &Plan,
        keys: &'a [u32],
        aggregates: &'a [Aggregate],
        condition: Condition<'a>,
    ) -> Result<GroupScan<'a>, NoMemory>
        requires { HasWatched condition [] }
        ensures behind { IfOk result (IsBehind (plan_view plan.now) (plan_leaves plan.now)
            (takings_of aggregates.now) []) }
        ensures watches { IfOk result (λ g. watch_in g.condition ≡ watch_in condition.entry) }
        ensures keys { IfOk result (λ g. g.keys ≡ keys.entry) }
    {
        let firing = Firing::new(alloc, plan.leaves.len(), keys, aggregates)?;
        let frames = Frames::new(alloc, plan, keys.len())?;
        Ok(GroupScan {
            keys,
            firing,
            condition,
            frames,
        })
    }

    /// The next move of the walk, where the row holds what was read last of each leaf.
    ///
    /// Errors: want of memory, or of room for a count, a sum or a number of a group.
    #[inline(always)]
    pub fn step<'r>(
        &mut self,
        alloc: Global,
        read: &Move<'r>,
        row: &mut Row<'r>,
    ) -> Result<(), NoMemory>
        requires few { open_for (self.old).condition < 64 }
        ensures behind { OnOk result (GoesBehind row.old read.now self.old self.new) }
        ensures reads { (n : ℕ) (ms : List MeantMove) → HasRead n ms row.old → IsOfLeaf n (move_view read.now)
            → HasRead n (ms ++ move_view read.now ∷ []) row.new }
        ensures watches { watch_in (self.new).condition ≡ watch_in (self.old).condition }
        ensures keys { (self.new).keys ≡ (self.old).keys }
    {
        row.keep(read);
        let told = self.condition.step(alloc, read, &row.slots)?;
        match read {
            Move::Enter(_) => self.frames.enter(),
            Move::Leaf(leaf, _) => self.frames.fire(
                alloc,
                self.firing.at(*leaf),
                self.keys,
                &row.slots,
                &mut row.key,
                told.is_kept,
            ),
            Move::Leave(number) => self.frames.leave(
                alloc,
                self.firing.at_leave(*number),
                self.keys,
                &row.slots,
                &mut row.key,
                told.is_dropped,
            ),
        }
    }

    /// The partial of what the moves made.
    ///
    /// Errors: want of memory, or of room for a count, a sum or a number of a group.
    pub fn close(self, alloc: Global) -> Result<Partial, NoMemory>
        ensures partial { IfOk result (λ x. (p : Planned) (ls : List Leaf) (ts : List Take) (ms : List MeantMove)
            → IsBehind p ls ts ms self.entry → IsOfPuts p (puts_behind ls ts self.entry ms) x) }
        ensures of_plan { IfOk result (λ x. (p : Planned) (ls : List Leaf) (ts : List Take)
            (ms : List MeantMove) → IsBehind p ls ts ms self.entry → IsPartialOf p x) }
    {
        self.frames.close(alloc)
    }
}
