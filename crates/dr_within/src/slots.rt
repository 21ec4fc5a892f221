//! What was read last of each leaf.

ghost use Rattle.std.specs.Prelude.{◌≡◌, ◌<◌, ℕ, length};
ghost use Rattle.dr_levels.specs.Views.{move_view};
ghost use Rattle.dr_meaning.specs.Column.{Triplet};
ghost use Rattle.dr_meaning.specs.Walk as meant;
ghost use Rattle.dr_moves.specs.Context.{with_value};
ghost use Rattle.dr_scalar.specs.Slots.{slot_value};

use dr_levels::{Move, ValueRef};

/// Keeps the value of a leaf that a move reads, in the leaf's slot.
#[inline(always)]
pub(crate) fn keep_value<'a>(read: &Move<'a>, slots: &mut Vec<Option<ValueRef<'a>>>)
    ensures here { (i : ℕ) (t : Triplet) → move_view read.now ≡ meant.value i t → i < length (slots.old).items
        → slot_value (slots.new).items ≡ with_value i t.value (slot_value (slots.old).items) }
    ensures enter { (k : ℕ) → move_view read.now ≡ meant.enter k → (slots.new).items ≡ (slots.old).items }
    ensures leave { (k : ℕ) → move_view read.now ≡ meant.leave k → (slots.new).items ≡ (slots.old).items }
    ensures as_many { length (slots.new).items ≡ length (slots.old).items }
{
    if let Move::Leaf(leaf, triplet) = read {
        let at = *leaf as usize;
        if at < slots.len() {
            slots[at] = triplet.value;
        }
    }
}
