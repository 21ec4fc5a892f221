//! Whose group is next where groups are merged.

ghost use Rattle.std.specs.Prelude.{◌≡◌, true, length, nat_lt};
ghost use Rattle.std.specs.List.{list_all};
ghost use Rattle.std.specs.Ordering.{match_ordering};
ghost use Rattle.dr_meaning.specs.Query.{tuple_order};
ghost use Rattle.dr_group.specs.Groups.{group_view, picked};
ghost use Rattle.dr_group.specs.Turns.{turn_of};

use crate::group::Group;
use crate::orders::held_order;
use std::cmp::Ordering;

/// Whose group is next: that of the one side or of the other, or both, of one key tuple; or neither is left.
#[derive(Clone, Copy, PartialEq, Eq)]
pub enum Turn {
    Mine,
    Theirs,
    Both,
    End,
}

/// Whose group is next, of groups by their numbers in order.
pub fn next_turn(mine: &[Group], my_order: &[u32], theirs: &[Group], their_order: &[u32]) -> Turn
    requires mine { list_all (λ i. nat_lt i (length mine.now)) my_order.now ≡ true }
    requires theirs { list_all (λ i. nat_lt i (length theirs.now)) their_order.now ≡ true }
    ensures { result ≡ turn_of (picked mine.now my_order.now) (picked theirs.now their_order.now) }
{
    match (my_order, their_order) {
        ([], []) => Turn::End,
        ([_, ..], []) => Turn::Mine,
        ([], [_, ..]) => Turn::Theirs,
        ([left, ..], [right, ..]) => { turn_by(&mine[*left as usize], &theirs[*right as usize]) }
    }
}

/// Whose group is next, of two.
fn turn_by(mine: &Group, theirs: &Group) -> Turn
    ensures { result ≡ match_ordering (tuple_order (group_view mine.now).keys (group_view theirs.now).keys) Turn.Mine
        Turn.Both Turn.Theirs }
{
    match held_order(&mine.keys, &theirs.keys) {
        Ordering::Less => Turn::Mine,
        Ordering::Equal => Turn::Both,
        Ordering::Greater => Turn::Theirs,
    }
}
