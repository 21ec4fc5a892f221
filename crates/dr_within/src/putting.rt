//! What fires together.

ghost use Rattle.std.specs.Prelude.{◌≡◌, ◌++◌, ℕ, List, length, OnOk};
ghost use Rattle.dr_group.specs.Partials.{IsPartialOf, HasTaken, HasTakenOne, TakesPuts};
ghost use Rattle.dr_partials.specs.Putting.{put};
ghost use Rattle.dr_plan.specs.Planned.{Planned};
ghost use Rattle.dr_within.specs.Takings.{takings_view, needless as meant_needless, puts_with, IsKeyOf, put_with};
ghost use Rattle.dr_within.specs.Late.{IsWhole, rows_of};

use crate::keys::push_key;
use crate::late::LateRows;
use crate::taking::{Taking, aggregate_of, read_of, taken_as, taken_for, value_of};
use dr_group::Partial;
use dr_levels::ValueRef;
use dr_memory::NoMemory;
use std::alloc::Global;

/// Puts a row into the group of a key tuple, with the value that an expression has in it.
fn put_computed<'a>(
    alloc: Global,
    taking: Taking<'_>,
    slots: &[Option<ValueRef<'a>>],
    key: &[Option<ValueRef<'a>>],
    partial: &mut Partial,
) -> Result<(), NoMemory>
    ensures puts { OnOk result ((p : Planned) (keys : List ℕ) → IsKeyOf key.now slots.now keys
        → IsPartialOf p partial.old → HasTakenOne p (put_with keys taking.entry slots.now) partial.old partial.new) }
    ensures of_plan { (p : Planned) → IsPartialOf p partial.old → IsPartialOf p partial.new }
{
    let value = value_of(alloc, taking, slots)?;
    partial.put(alloc, key, taken_as(taking, &value))
}

/// Puts a row into the group of a key tuple: what was read last of each leaf.
#[inline(always)]
fn put_one<'a>(
    alloc: Global,
    taking: Taking<'_>,
    slots: &[Option<ValueRef<'a>>],
    key: &[Option<ValueRef<'a>>],
    partial: &mut Partial,
) -> Result<(), NoMemory>
    ensures puts { OnOk result ((p : Planned) (keys : List ℕ) → IsKeyOf key.now slots.now keys
        → IsPartialOf p partial.old → HasTakenOne p (put_with keys taking.entry slots.now) partial.old partial.new) }
    ensures of_plan { (p : Planned) → IsPartialOf p partial.old → IsPartialOf p partial.new }
{
    match read_of(taking, slots) {
        Some(value) => partial.put(alloc, key, taken_for(aggregate_of(taking), value)),
        None => put_computed(alloc, taking, slots, key, partial),
    }
}

/// How many takings needn't be put: one of nothing before others, since what these put makes the group as well.
#[inline(always)]
fn needless(takings: &[Taking<'_>]) -> usize
    ensures { result ≡ meant_needless (takings_view takings.now) }
{
    match takings {
        [Taking::Nothing, _, ..] => 1,
        _ => 0,
    }
}

/// Puts a row of a key tuple for each of some takings, in order.
#[inline(always)]
fn put_in_order<'a>(
    alloc: Global,
    takings: &[Taking<'_>],
    slots: &[Option<ValueRef<'a>>],
    key: &[Option<ValueRef<'a>>],
    partial: &mut Partial,
) -> Result<(), NoMemory>
    ensures puts { OnOk result ((p : Planned) (keys : List ℕ) → IsKeyOf key.now slots.now keys
        → IsPartialOf p partial.old → HasTaken p (puts_with keys takings.now slots.now) partial.old partial.new) }
    ensures of_plan { (p : Planned) → IsPartialOf p partial.old → IsPartialOf p partial.new }
{
    'takings: for taking in takings {
        put_one(alloc, *taking, slots, key, partial)?;
    }
    Ok(())
}

/// Puts a row for each of some takings, in order. Their key tuple is made in a buffer, once.
///
/// Errors: want of memory, or of room for a count, a sum or a number of a group.
#[inline(always)]
pub(crate) fn put_each<'a>(
    alloc: Global,
    takings: &[Taking<'_>],
    keys: &[u32],
    slots: &[Option<ValueRef<'a>>],
    key: &mut Vec<Option<ValueRef<'a>>>,
    partial: &mut Partial,
) -> Result<(), NoMemory>
    ensures puts { OnOk result (TakesPuts (puts_with keys.now takings.now slots.now) partial.old partial.new) }
    ensures of_plan { (p : Planned) → IsPartialOf p partial.old → IsPartialOf p partial.new }
{
    if takings.is_empty() {
        return Ok(());
    }
    key.clear();
    push_key(keys, slots, key)?;
    let (_, needed) = takings.split_at(needless(takings));
    put_in_order(alloc, needed, slots, key, partial)
}

/// Keeps a row for each of some takings, in order.
///
/// Errors: want of memory alone.
#[inline(always)]
pub(crate) fn keep_each(
    alloc: Global,
    takings: &[Taking<'_>],
    keys: &[u32],
    slots: &[Option<ValueRef<'_>>],
    late: &mut LateRows,
) -> Result<(), NoMemory>
    ensures rows { OnOk result (IsWhole late.old → (late.old).width ≡ length keys.now
        → rows_of late.new ≡ rows_of late.old ++ puts_with keys.now takings.now slots.now) }
    ensures whole { OnOk result (IsWhole late.old → (late.old).width ≡ length keys.now → IsWhole late.new) }
    ensures width { (late.new).width ≡ (late.old).width }
{
    'takings: for taking in takings {
        late.push(alloc, keys, slots, *taking)?;
    }
    Ok(())
}
