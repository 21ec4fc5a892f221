//! Merging groups.

ghost use Rattle.std.specs.Prelude.{◌≡◌, ◌<◌, ◌≤◌, ◌+◌, ◌^◌, ◌++◌, ◌∷◌, [], true, IfOk, length, map, take, drop, slice_set, vec_len, vec_capacity};
ghost use Rattle.std.specs.List.{range_with_len};
ghost use Rattle.dr_partials.specs.Partials.{merge_groups};
ghost use Rattle.dr_partials.specs.PartialBounds.{GroupsCanBeOf};
ghost use Rattle.dr_group.specs.Groups.{group_at, group_view, picked};
ghost use Rattle.dr_group.specs.Merging.{AreAscending, are_numbers, join_firsts};

use crate::group::Group;
use crate::joining::join_each;
use crate::turn::{Turn, next_turn};
use dr_memory::NoMemory;
use smallvec::SmallVec;
use std::alloc::Global;
use std::mem;

/// The numbers from 0 on, so many.
pub fn first_numbers(alloc: Global, count: usize) -> Result<Vec<u32>, NoMemory>
    ensures { IfOk result (λ v. v.items ≡ range_with_len 0 count) }
{
    if count > u32::MAX as usize {
        return Err(NoMemory);
    }
    let mut numbers = Vec::with_capacity(alloc, count)?;
    'numbers: for number in 0..count {
        numbers.push(number as u32)?;
    }
    Ok(numbers)
}

/// Appends a group where there is room.
pub fn push_reserved(groups: &mut Vec<Group>, group: Group)
    requires { vec_len groups.old < vec_capacity groups.old }
    ensures items { (groups.new).items ≡ (groups.old).items ++ group ∷ [] }
    ensures capacity { vec_capacity groups.old ≤ vec_capacity groups.new }
{
    if groups.push(group).is_err() {
        unreachable!()
    }
}

/// Takes out the group of a number; an empty one stays in its place.
fn take_group(alloc: Global, groups: &mut Vec<Group>, number: usize) -> Group
    requires { number < length (groups.old).items }
    ensures group { group_view result ≡ group_at (groups.old).items number }
    ensures left { (g : Group) × ((groups.new).items ≡ slice_set (groups.old).items number g) }
{
    let empty = Group {
        keys: SmallVec::new(alloc),
        accumulators: SmallVec::new(alloc),
    };
    mem::replace(&mut groups[number], empty)
}

/// Moves the first group, by an order of groups, behind those that are merged.
fn move_first(alloc: Global, from: &mut Vec<Group>, order: &[u32], merged: &mut Vec<Group>)
    requires some { 0 < length order.now }
    requires numbers { are_numbers (from.old).items order.now ≡ true }
    requires ascending { AreAscending (picked (from.old).items order.now) }
    requires room { vec_len merged.old < vec_capacity merged.old }
    ensures merged { map group_view (merged.new).items
        ≡ map group_view (merged.old).items ++ take 1 (picked (from.old).items order.now) }
    ensures left { picked (from.new).items (drop 1 order.now) ≡ drop 1 (picked (from.old).items order.now) }
    ensures length { length (from.new).items ≡ length (from.old).items }
    ensures len { vec_len merged.new ≡ vec_len merged.old + 1 }
    ensures capacity { vec_capacity merged.old ≤ vec_capacity merged.new }
{
    let group = take_group(alloc, from, order[0] as usize);
    push_reserved(merged, group);
}

/// Moves the first groups of both, which have one key tuple, behind those that are merged, joined.
fn move_joined(
    alloc: Global,
    mine: &mut Vec<Group>,
    my_order: &[u32],
    theirs: &mut Vec<Group>,
    their_order: &[u32],
    merged: &mut Vec<Group>,
)
    requires mine { 0 < length my_order.now }
    requires my_numbers { are_numbers (mine.old).items my_order.now ≡ true }
    requires my_ascending { AreAscending (picked (mine.old).items my_order.now) }
    requires my_bound { GroupsCanBeOf (2 ^ 60) (picked (mine.old).items my_order.now) }
    requires theirs { 0 < length their_order.now }
    requires their_numbers { are_numbers (theirs.old).items their_order.now ≡ true }
    requires their_ascending { AreAscending (picked (theirs.old).items their_order.now) }
    requires their_bound { GroupsCanBeOf (2 ^ 60) (picked (theirs.old).items their_order.now) }
    requires room { vec_len merged.old < vec_capacity merged.old }
    ensures merged { map group_view (merged.new).items
        ≡ map group_view (merged.old).items ++ join_firsts (picked (mine.old).items my_order.now)
        (picked (theirs.old).items their_order.now) }
    ensures mine { picked (mine.new).items (drop 1 my_order.now) ≡ drop 1 (picked (mine.old).items my_order.now) }
    ensures theirs { picked (theirs.new).items (drop 1 their_order.now)
        ≡ drop 1 (picked (theirs.old).items their_order.now) }
    ensures my_length { length (mine.new).items ≡ length (mine.old).items }
    ensures their_length { length (theirs.new).items ≡ length (theirs.old).items }
    ensures len { vec_len merged.new ≡ vec_len merged.old + 1 }
    ensures capacity { vec_capacity merged.old ≤ vec_capacity merged.new }
{
    let mut group = take_group(alloc, mine, my_order[0] as usize);
    let mut other = take_group(alloc, theirs, their_order[0] as usize);
    join_each(&mut group.accumulators, &mut other.accumulators);
    push_reserved(merged, group);
}

/// Merges groups, by their orders, behind those that are merged.
pub fn merge_into(
    alloc: Global,
    mine: &mut Vec<Group>,
    my_order: &[u32],
    theirs: &mut Vec<Group>,
    their_order: &[u32],
    merged: &mut Vec<Group>,
)
    requires my_numbers { are_numbers (mine.old).items my_order.now ≡ true }
    requires my_ascending { AreAscending (picked (mine.old).items my_order.now) }
    requires my_bound { GroupsCanBeOf (2 ^ 60) (picked (mine.old).items my_order.now) }
    requires their_numbers { are_numbers (theirs.old).items their_order.now ≡ true }
    requires their_ascending { AreAscending (picked (theirs.old).items their_order.now) }
    requires their_bound { GroupsCanBeOf (2 ^ 60) (picked (theirs.old).items their_order.now) }
    requires room { vec_len merged.old + length my_order.now + length their_order.now ≤ vec_capacity merged.old }
    ensures merged { map group_view (merged.new).items
        ≡ map group_view (merged.old).items ++ merge_groups (picked (mine.old).items my_order.now)
        (picked (theirs.old).items their_order.now) }
    ensures len { vec_len merged.new ≤ vec_len merged.old + length my_order.now + length their_order.now }
{
    let mut my_rest = my_order;
    let mut their_rest = their_order;
    'turns: loop {
        match next_turn(mine, my_rest, theirs, their_rest) {
            Turn::Mine => {
                move_first(alloc, mine, my_rest, merged);
                my_rest = &my_rest[1..];
            }
            Turn::Theirs => {
                move_first(alloc, theirs, their_rest, merged);
                their_rest = &their_rest[1..];
            }
            Turn::Both => {
                move_joined(alloc, mine, my_rest, theirs, their_rest, merged);
                my_rest = &my_rest[1..];
                their_rest = &their_rest[1..];
            }
            Turn::End => return,
        }
    }
}
