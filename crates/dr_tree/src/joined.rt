//! What came below the children of a tree's root, merged.

ghost use Rattle.std.specs.Prelude.{◌<◌, ◌++◌, IfOk, length, option_to_list};
ghost use denote.Param.Send.{IsSync};
ghost use Rattle.dr_tree.specs.Piles.{CanMerge, StaysPile};
ghost use Rattle.dr_tree.specs.Subtrees.{all_piled};

use crate::halved::{WORTH_A_THREAD, count_groups, merge_pile, merged};
use crate::subtree::Subtree;
use dr_group::GroupMap;
use dr_memory::NoMemory;
use std::alloc::Global;
use std::thread::{Threads, join};

/// Whether to merge what came below them is worth a thread.
fn are_worth_a_thread(subtrees: &[Subtree]) -> bool {
    let mut piled: usize = 0;
    let mut count: usize = 0;
    'subtrees: for subtree in subtrees {
        piled = piled.saturating_add(subtree.pile.len());
        count = count.saturating_add(count_groups(&subtree.pile));
    }
    piled > 1 && count >= WORTH_A_THREAD
}

/// Merges what came below each, and then what these are: half of the subtrees, the others, and then both. Where both
/// halves are worth a thread, they are merged at the same time. None where nothing came.
///
/// Errors: want of memory, or of room for the number of a group.
#[cycle(joining)]
pub(crate) fn merge_subtrees<R: Threads + Sync>(
    rt: &R,
    alloc: Global,
    subtrees: Vec<Subtree>,
) -> Result<Option<GroupMap>, NoMemory>
    requires { CanMerge (all_piled subtrees.items) }
    ensures { IfOk result (λ m. StaysPile (all_piled subtrees.items) (option_to_list m)) }
{
    let mut front = subtrees;
    if front.len() > 1 {
        let at = front.len() / 2;
        let behind = front.split_off(at)?;
        return merge_both(rt, alloc, front, behind);
    }
    match front.pop() {
        Some(Subtree { tablets: _, pile }) => merge_pile(rt, alloc, pile),
        None => Ok(None),
    }
}

/// Merges both halves of the subtrees, and then what they are.
#[cycle(joining)]
fn merge_both<R: Threads + Sync>(
    rt: &R,
    alloc: Global,
    front: Vec<Subtree>,
    behind: Vec<Subtree>,
) -> Result<Option<GroupMap>, NoMemory>
    requires front { 0 < length front.items }
    requires behind { 0 < length behind.items }
    requires can_merge { CanMerge (all_piled front.items ++ all_piled behind.items) }
    ensures { IfOk result (λ m. StaysPile (all_piled front.items ++ all_piled behind.items) (option_to_list m)) }
{
    if !are_worth_a_thread(&front) || !are_worth_a_thread(&behind) {
        let mine = merge_subtrees(rt, alloc, front)?;
        let theirs = merge_subtrees(rt, alloc, behind)?;
        return merged_if_some(alloc, mine, theirs);
    }
    let mine = move || -> Result<Option<GroupMap>, NoMemory>
        requires { IsSync R.row × CanMerge (all_piled front.items) }
        ensures { IfOk result (λ m. StaysPile (all_piled front.items) (option_to_list m)) }
    { merge_subtrees(rt, alloc, front) };
    let theirs = move || -> Result<Option<GroupMap>, NoMemory>
        requires { IsSync R.row × CanMerge (all_piled behind.items) }
        ensures { IfOk result (λ m. StaysPile (all_piled behind.items) (option_to_list m)) }
    { merge_subtrees(rt, alloc, behind) };
    let (mine, theirs) = join(rt, mine, theirs);
    merged_if_some(alloc, mine?, theirs?)
}

/// The two, merged, where there are two.
fn merged_if_some(
    alloc: Global,
    mine: Option<GroupMap>,
    theirs: Option<GroupMap>,
) -> Result<Option<GroupMap>, NoMemory>
    requires { CanMerge (option_to_list mine ++ option_to_list theirs) }
    ensures { IfOk result (λ m. StaysPile (option_to_list mine ++ option_to_list theirs) (option_to_list m)) }
{
    let Some(mine) = mine else {
        return Ok(theirs);
    };
    let Some(theirs) = theirs else {
        return Ok(Some(mine));
    };
    Ok(Some(merged(alloc, mine, theirs)?))
}
