//! Groups that come one after another, merged so that each group is moved but a few times.

ghost use Rattle.std.specs.Prelude.{◌≡◌, ◌^◌, ◌<◌, ◌≤◌, ◌++◌, ◌∷◌, [], OnErr, OnOk, true, false, vec_len, vec_capacity};
ghost use Rattle.dr_partials.specs.Partials as meant;
ghost use Rattle.dr_partials.specs.PartialBounds.{GroupsCanBeOf};
ghost use Rattle.dr_group.specs.Maps.{groups_view, gatherings_view};
ghost use Rattle.dr_tree.specs.Piles.{CanMerge, StaysPile};

use dr_group::GroupMap;
use dr_memory::NoMemory;
use std::alloc::Global;
use std::mem;

/// Appends groups where there is room.
fn push_reserved(pile: &mut Vec<GroupMap>, groups: GroupMap)
    requires { vec_len pile.old < vec_capacity pile.old }
    ensures items { (pile.new).items ≡ (pile.old).items ++ groups ∷ [] }
    ensures capacity { vec_capacity pile.old ≤ vec_capacity pile.new }
{
    if pile.push(groups).is_err() {
        unreachable!()
    }
}

/// Merges the last groups into those before them, which become the last, unless these are more than twice as many, or
/// there is no memory.
fn merge_pair(alloc: Global, before: &mut GroupMap, last: &mut GroupMap) -> bool
    requires before { GroupsCanBeOf (2 ^ 60) (groups_view before.old) }
    requires last { GroupsCanBeOf (2 ^ 60) (groups_view last.old) }
    ensures groups { result ≡ true → groups_view last.new
        ≡ meant.merge_groups (groups_view before.old) (groups_view last.old) }
    ensures gatherings { result ≡ true → gatherings_view last.new ≡ gatherings_view before.old }
    ensures same_groups { result ≡ false → groups_view before.new ≡ groups_view before.old }
    ensures same_gatherings { result ≡ false → gatherings_view before.new ≡ gatherings_view before.old }
    ensures same_last { result ≡ false → last.new ≡ last.old }
{
    if before.len() / 2 > last.len() {
        return false;
    }
    let Ok(()) = before.merge_from(alloc, last) else {
        return false;
    };
    mem::swap(before, last);
    true
}

/// Merges the last two of a pile, unless the first are more than twice as many, or there is no memory.
fn merge_last(alloc: Global, pile: &mut Vec<GroupMap>) -> bool
    requires { CanMerge (pile.old).items }
    ensures { StaysPile (pile.old).items (pile.new).items }
{
    let Some(mut last) = pile.pop() else {
        return false;
    };
    let Some(mut earlier) = pile.pop() else {
        push_reserved(pile, last);
        return false;
    };
    if merge_pair(alloc, &mut earlier, &mut last) {
        push_reserved(pile, last);
        return true;
    }
    push_reserved(pile, earlier);
    push_reserved(pile, last);
    false
}

/// Merges the last two of a pile, as long as the first are at most twice as many and there is memory. So what comes
/// before is always more than twice what comes next, but where there was no memory.
fn merge_due(alloc: Global, pile: &mut Vec<GroupMap>)
    requires { CanMerge (pile.old).items }
    ensures { StaysPile (pile.old).items (pile.new).items }
{
    'merges: for _ in 0..pile.len() {
        if !merge_last(alloc, pile) {
            return;
        }
    }
}

/// Puts groups on a pile, and merges what is due.
///
/// Errors: want of memory alone. Nothing has changed then.
pub(crate) fn add_to_pile(
    alloc: Global,
    pile: &mut Vec<GroupMap>,
    groups: GroupMap,
) -> Result<(), NoMemory>
    requires { CanMerge ((pile.old).items ++ groups ∷ []) }
    ensures added { OnOk result (StaysPile ((pile.old).items ++ groups ∷ []) (pile.new).items) }
    ensures refused { OnErr result ((pile.new).items ≡ (pile.old).items) }
{
    pile.push(groups)?;
    merge_due(alloc, pile);
    Ok(())
}
