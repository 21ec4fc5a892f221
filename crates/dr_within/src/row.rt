//! What was read last of each leaf, lent for a stretch of moves.

ghost use Rattle.std.specs.Prelude.{◌≡◌, ◌<◌, ◌++◌, ◌∷◌, [], ℕ, List, length};
ghost use Rattle.dr_levels.specs.Views.{move_view};
ghost use Rattle.dr_meaning.specs.Column.{Triplet};
ghost use Rattle.dr_meaning.specs.Walk as meant;
ghost use Rattle.dr_moves.specs.Context.{with_value};
ghost use Rattle.dr_scalar.specs.Slots.{slot_value};
ghost use Rattle.dr_within.specs.Rows.{HasRead, IsOfLeaf};

use crate::slots::keep_value;
use dr_levels::{Move, ValueRef};

/// What was read last of each of a plan's leaves, lent: the moves of a stretch lend their values for its length.
#[derive(Drop)]
pub struct Row<'r> {
    pub(crate) slots: Vec<Option<ValueRef<'r>>>,
    /// Room for a key tuple.
    pub(crate) key: Vec<Option<ValueRef<'r>>>,
}

impl<'r> Row<'r> {
    /// Keeps the value of a leaf that a move reads.
    #[inline(always)]
    pub fn keep(&mut self, read: &Move<'r>)
        ensures here { (i : ℕ) (t : Triplet) → move_view read.now ≡ meant.value i t
            → i < length (self.old).slots.items
            → slot_value (self.new).slots.items ≡ with_value i t.value (slot_value (self.old).slots.items) }
        ensures enter { (k : ℕ) → move_view read.now ≡ meant.enter k → (self.new).slots.items
            ≡ (self.old).slots.items }
        ensures leave { (k : ℕ) → move_view read.now ≡ meant.leave k → (self.new).slots.items
            ≡ (self.old).slots.items }
        ensures reads { (n : ℕ) (ms : List meant.Move) → HasRead n ms self.old → IsOfLeaf n (move_view read.now)
            → HasRead n (ms ++ move_view read.now ∷ []) self.new }
    {
        keep_value(read, &mut self.slots);
    }
}
