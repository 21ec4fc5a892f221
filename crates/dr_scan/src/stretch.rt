//! A stretch of a walk: its moves up to where a batch is at its end.

ghost use Rattle.std.specs.Prelude.{ℕ, List};
ghost use Rattle.dr_meaning.specs.Schema.{Schema as MeantSchema};
ghost use Rattle.dr_meaning.specs.Walk.{Move as MeantMove};
ghost use Rattle.dr_moves.specs.Leading.{Left};
ghost use Rattle.dr_plan.specs.Planned.{IsOfSchema};
ghost use Rattle.dr_plan.specs.declared.plan.Plan.{Plan as MeantPlan};
ghost use Rattle.dr_walk.specs.Checking.{rest_at};
ghost use Rattle.dr_walk.specs.Batches.{Shrinks};
ghost use Rattle.dr_scan.specs.Streamed.{IsScanned, MayScan, EndsStretch};

use crate::making::Making;
use dr_levels::Triplets;
use dr_walk::{AssembleFault, LevelWalk, Turned, step_over};
use dr_within::Row;
use std::alloc::Global;

/// Where a stretch of moves ends.
#[derive(Clone, Copy, PartialEq, Eq)]
pub(crate) enum Stretch {
    /// The batch of this leaf is at its end.
    Wants(u32),
    /// All moves were given.
    Ended,
}

/// Makes of the moves of a walk what a plan makes of them, up to where the batch of a leaf is at its end. This is left
/// of the batches, and behind some of them nothing comes.
///
/// Errors: `BadData` where no records have columns that begin so; want of memory, or of room for what is made.
pub(crate) fn make_stretch<'r>(
    alloc: Global,
    walk: &mut LevelWalk,
    rests: &mut [Triplets<'r>],
    ended: &[bool],
    making: &mut Making<'_>,
    row: &mut Row<'r>,
) -> Result<Stretch, AssembleFault>
    requires { MayScan ended.now walk.old (rest_at rests.old) making.old row.old }
    ensures ends { (s : MeantSchema) (p : MeantPlan) (rows : ℕ) (given : Left) (ms : List MeantMove) → IsOfSchema s p
        → IsScanned s p rows given ended.now ms walk.old (rest_at rests.old) making.old row.old
        → EndsStretch s p rows given ended.now walk.new (rest_at rests.new) making.new row.new result }
    ensures shrinks { Shrinks (rest_at rests.old) (rest_at rests.new) }
{
    // No memory holds what is made of more moves.
    'moves: for _ in 0..u64::MAX {
        match step_over(walk, rests, ended)? {
            Turned::Heard => {}
            Turned::Gave(read) => making.step(alloc, &read, row)?,
            Turned::Wants(leaf) => return Ok(Stretch::Wants(leaf)),
            Turned::Ended => return Ok(Stretch::Ended),
        }
    }
    Err(AssembleFault::NoMemory)
}
