//! What is left of a pile of groups in the end, merged by halves.

ghost use Rattle.std.specs.Prelude.{◌<◌, ◌≤◌, ◌++◌, ◌∷◌, [], IfOk, length, option_to_list};
ghost use denote.Param.Send.{IsSync};
ghost use Rattle.dr_tree.specs.Piles.{CanMerge, StaysPile};

use dr_group::GroupMap;
use dr_memory::NoMemory;
use std::alloc::Global;
use std::thread::{Threads, join};

/// So many groups at least are merged by a thread of their own: to start one costs as much as to merge some thousands.
pub(crate) const WORTH_A_THREAD: usize = 1 << 14;

/// How many groups a pile has.
pub(crate) fn count_groups(pile: &[GroupMap]) -> usize {
    let mut count: usize = 0;
    'groups: for groups in pile {
        count = count.saturating_add(groups.len());
    }
    count
}

/// Whether to merge them is worth a thread.
fn is_worth_a_thread(before: &[GroupMap], last: &GroupMap) -> bool {
    !before.is_empty() && count_groups(before).saturating_add(last.len()) >= WORTH_A_THREAD
}

/// How many of them come first that have half of all together; the last isn't one of them.
fn first_half(before: &[GroupMap], last: &GroupMap) -> usize
    requires { 0 < length before.now }
    ensures some { 0 < result }
    ensures within { result ≤ length before.now }
{
    let half = count_groups(before).saturating_add(last.len()) / 2;
    let mut count: usize = 0;
    'firsts: for at in 1..before.len() {
        count = count.saturating_add(before[at - 1].len());
        if count >= half {
            return at;
        }
    }
    before.len()
}

/// Merges a pile. None where nothing came.
///
/// Errors: want of memory, or of room for the number of a group.
pub(crate) fn merge_pile<R: Threads + Sync>(
    rt: &R,
    alloc: Global,
    pile: Vec<GroupMap>,
) -> Result<Option<GroupMap>, NoMemory>
    requires { CanMerge pile.items }
    ensures { IfOk result (λ m. StaysPile pile.items (option_to_list m)) }
{
    let mut before = pile;
    match before.pop() {
        Some(last) => Ok(Some(merge_all(rt, alloc, before, last)?)),
        None => Ok(None),
    }
}

/// Merges all: the first that have half of the groups, the others, and then both. So none is moved often, whatever
/// their numbers, and where both halves are worth a thread, they are merged at the same time.
///
/// Errors: want of memory, or of room for the number of a group.
#[cycle(halving)]
fn merge_all<R: Threads + Sync>(
    rt: &R,
    alloc: Global,
    before: Vec<GroupMap>,
    last: GroupMap,
) -> Result<GroupMap, NoMemory>
    requires { CanMerge (before.items ++ last ∷ []) }
    ensures { IfOk result (λ m. StaysPile (before.items ++ last ∷ []) (m ∷ [])) }
{
    if before.is_empty() {
        return Ok(last);
    }
    let mut front = before;
    let at = first_half(&front, &last);
    let behind = front.split_off(at)?;
    match front.pop() {
        Some(middle) => merge_halves(rt, alloc, front, middle, behind, last),
        None => unreachable!(),
    }
}

/// Merges both halves, of which one ends in the middle.
#[cycle(halving)]
fn merge_halves<R: Threads + Sync>(
    rt: &R,
    alloc: Global,
    front: Vec<GroupMap>,
    middle: GroupMap,
    behind: Vec<GroupMap>,
    last: GroupMap,
) -> Result<GroupMap, NoMemory>
    requires { CanMerge ((front.items ++ middle ∷ []) ++ (behind.items ++ last ∷ [])) }
    ensures { IfOk result (λ m. StaysPile ((front.items ++ middle ∷ []) ++ (behind.items ++ last ∷ [])) (m ∷ [])) }
{
    if !is_worth_a_thread(&front, &middle) || !is_worth_a_thread(&behind, &last) {
        let mine = merge_all(rt, alloc, front, middle)?;
        let theirs = merge_all(rt, alloc, behind, last)?;
        return merged(alloc, mine, theirs);
    }
    let mine = move || -> Result<GroupMap, NoMemory>
        requires { IsSync R.row × CanMerge (front.items ++ middle ∷ []) }
        ensures { IfOk result (λ m. StaysPile (front.items ++ middle ∷ []) (m ∷ [])) }
    { merge_all(rt, alloc, front, middle) };
    let theirs = move || -> Result<GroupMap, NoMemory>
        requires { IsSync R.row × CanMerge (behind.items ++ last ∷ []) }
        ensures { IfOk result (λ m. StaysPile (behind.items ++ last ∷ []) (m ∷ [])) }
    { merge_all(rt, alloc, behind, last) };
    let (mine, theirs) = join(rt, mine, theirs);
    merged(alloc, mine?, theirs?)
}

/// Two, merged.
pub(crate) fn merged(alloc: Global, mine: GroupMap, theirs: GroupMap) -> Result<GroupMap, NoMemory>
    requires { CanMerge (mine ∷ theirs ∷ []) }
    ensures { IfOk result (λ m. StaysPile (mine ∷ theirs ∷ []) (m ∷ [])) }
{
    let mut mine = mine;
    mine.merge(alloc, theirs)?;
    Ok(mine)
}
