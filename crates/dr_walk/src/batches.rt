//! A walk over batches of columns.

ghost use Rattle.std.specs.Prelude.{◌≡◌, ℕ, false, Some, None, Ok, Err, option_map};
ghost use Rattle.dr_meaning.specs.Path.{Leaf};
ghost use Rattle.dr_levels.specs.Views.{levels_pair, triplets_view};
ghost use Rattle.dr_walk.specs.Walking.{next_levels as meant_next, given_leaf, OverLeaves};
ghost use Rattle.dr_walk.specs.Checking.{rest_at, rest_behind};
ghost use Rattle.dr_walk.specs.declared.fault.AssembleFault.{AssembleFault};
ghost use Rattle.dr_walk.specs.declared.batches.Turned.{Turned as MeantTurned};
ghost use Rattle.dr_walk.specs.Batches.{is_last, IsGivenOf, GoesOver, Shrinks, NestsOver, OverBatches, OverComing};

use crate::fault::AssembleFault;
use crate::level_move::LevelMove;
use crate::level_walk::LevelWalk;
use crate::taking::take_next;
use crate::values::fits;
use dr_levels::{Levels, Move, Triplets};

/// What a call of a walk over batches brings.
#[derive(Clone, Copy, PartialEq, Eq)]
pub enum Turned<'a> {
    /// It took the levels of a triplet, or that there is none: no move yet.
    Heard,
    /// The next move.
    Gave(Move<'a>),
    /// The batch of this leaf is at its end, and its column isn't known to be.
    Wants(u32),
    /// All moves were given.
    Ended,
}

/// The levels of the first of some triplets.
#[inline(always)]
fn first_levels(triplets: Triplets<'_>) -> Option<Levels>
    ensures { option_map levels_pair result ≡ meant_next (triplets_view triplets.entry) }
{
    match triplets.levels() {
        [] => None,
        [first, ..] => Some(*first),
    }
}

/// The levels of the next triplet of a leaf's batch.
#[inline(always)]
fn next_levels(rests: &[Triplets<'_>], leaf: u32) -> Option<Levels>
    ensures { option_map levels_pair result ≡ meant_next (rest_at rests.now leaf) }
{
    match rests.get(leaf as usize) {
        Some(rest) => first_levels(*rest),
        None => None,
    }
}

/// Whether a leaf's column is at its end behind its batch.
#[inline(always)]
fn is_ended(ended: &[bool], leaf: u32) -> bool
    ensures { result ≡ is_last ended.now leaf }
{
    match ended.get(leaf as usize) {
        Some(last) => *last,
        None => false,
    }
}

/// A move by levels as a move: a leaf's triplet is taken from its batch. None where its value is another than the one
/// that is asked for.
#[inline(always)]
fn give<'a>(rests: &mut [Triplets<'a>], step: LevelMove) -> Option<Move<'a>>
    ensures gives { IsGivenOf (rest_at rests.old) step result }
    ensures rests { (i : ℕ) → rest_at rests.new i ≡ rest_behind (given_leaf step) i (rest_at rests.old i) }
{
    match step {
        LevelMove::Enter(number) => Some(Move::Enter(number)),
        LevelMove::Leave(number) => Some(Move::Leave(number)),
        LevelMove::Leaf(leaf, _, kind) => {
            let triplet = take_next(rests, Some(leaf))?;
            if fits(kind, triplet.value) {
                Some(Move::Leaf(leaf, triplet))
            } else {
                None
            }
        }
    }
}

/// One call of a walk, where this comes of the leaf that is wanted.
#[inline(always)]
fn go_on<'a>(
    walk: &mut LevelWalk,
    rests: &mut [Triplets<'a>],
    more: Option<Levels>,
) -> Result<Turned<'a>, AssembleFault>
    requires { walk.old.wanted ≡ None → more ≡ None }
    ensures goes { OverComing walk.old (rest_at rests.old) more (λ fs F C rows ms later.
        GoesOver fs F C rows ms later walk.new (rest_at rests.new) result) }
    ensures nests { OverComing walk.old (rest_at rests.old) more (λ fs F C rows ms later.
        OverLeaves fs F (λ L. NestsOver fs L ms result)) }
    ensures rests { Shrinks (rest_at rests.old) (rest_at rests.new) }
    ensures wants { (i : ℕ) → result ≡ Ok (MeantTurned.Wants i) → ⊥ }
    ensures again { (fault : AssembleFault) → walk.old.failed ≡ Some fault → result ≡ Err fault }
    ensures refused { (fault : AssembleFault) → result ≡ Err fault → walk.new.failed ≡ Some fault }
{
    match walk.next(more) {
        Ok(Some(step)) => match give(rests, step) {
            Some(given) => Ok(Turned::Gave(given)),
            None => {
                walk.refuse();
                Err(AssembleFault::BadData)
            }
        },
        Ok(None) => {
            if walk.wants().is_none() {
                Ok(Turned::Ended)
            } else {
                Ok(Turned::Heard)
            }
        }
        Err(fault) => Err(fault),
    }
}

/// One call of a walk by levels over batches: what is left of one of each column, and whether the column ends behind
/// it. Values are lent by the batches.
///
/// Errors: `BadData` where no records have columns that go on so; want of memory. A refusal is repeated.
#[inline(always)]
pub fn step_over<'a>(
    walk: &mut LevelWalk,
    rests: &mut [Triplets<'a>],
    ended: &[bool],
) -> Result<Turned<'a>, AssembleFault>
    // It goes on over whatever columns begin so; at its end records have them, and the moves were those of their walk;
    // a refusal says that none have them.
    ensures goes { OverBatches walk.old (rest_at rests.old) ended.now (λ fs F C rows ms later.
        GoesOver fs F C rows ms later walk.new (rest_at rests.new) result) }
    // Whatever the columns, a move nests on those before it.
    ensures nests { OverBatches walk.old (rest_at rests.old) ended.now (λ fs F C rows ms later.
        OverLeaves fs F (λ L. NestsOver fs L ms result)) }
    ensures rests { Shrinks (rest_at rests.old) (rest_at rests.new) }
    // More of a leaf is asked for only where more may come of it.
    ensures wants { (i : ℕ) → result ≡ Ok (MeantTurned.Wants i) → is_last ended.now i ≡ false }
    // It repeats its refusal, and a refusal is one from then on.
    ensures again { (fault : AssembleFault) → walk.old.failed ≡ Some fault → result ≡ Err fault }
    ensures refused { (fault : AssembleFault) → result ≡ Err fault → walk.new.failed ≡ Some fault }
{
    let Some(leaf) = walk.wants() else {
        return go_on(walk, rests, None);
    };
    let more = next_levels(rests, leaf);
    if more.is_none() && !is_ended(ended, leaf) {
        return match walk.failed {
            None => Ok(Turned::Wants(leaf)),
            Some(fault) => Err(fault),
        };
    }
    go_on(walk, rests, more)
}
