//! The groups of rows, by their numbers.

ghost use Rattle.std.specs.Prelude.{◌≡◌, ◌<◌, [], ◌∷◌, length, map, true, None, Some, IfOk, IfSome};
ghost use Rattle.std.specs.List.{list_all, slice_get};
ghost use Rattle.dr_levels.specs.Views.{triplets_view};
ghost use Rattle.dr_beside.specs.Neighbours.{column_at};
ghost use Rattle.dr_group.specs.Groups.{put_of};
ghost use Rattle.dr_group.specs.Maps.{gatherings_view, tuples_view};
ghost use Rattle.dr_scalar.specs.Slots.{slot_value};
ghost use Rattle.dr_columns.specs.LeafRows.{cell_tuples};
ghost use Rattle.dr_columns.specs.LeafRowsView.{leaf_left};
ghost use Rattle.dr_rows_beside.specs.RecordRows.{rows_of};
ghost use Rattle.dr_rows_beside.specs.Rows.{source_view, is_fed, is_apart, all_apart};
ghost use Rattle.dr_rows_beside.specs.RowsView.{rows_view};
ghost use Rattle.dr_columns.specs.RowPuts.{keys_in, groups_in};
ghost use Rattle.dr_columns.specs.Numbers.{tuples_at, are_among, Stay, HasPut};
ghost use Rattle.dr_columns.specs.Takings.{fired_view, fired_rows, CanFire};

use crate::firing::Fired;
use crate::keys::{push_key, slot};
use crate::leaf_groups::put_leaf_numbers;
use crate::leaf_rows::LeafRows;
use dr_group::GroupMap;
use dr_levels::{Triplets, ValueRef};
use dr_memory::NoMemory;
use dr_rows_beside::{Rows, Source};
use std::alloc::Global;

/// A number of a group in 32 bits.
///
/// Errors: want of room for it.
#[inline(always)]
pub(crate) fn short_number(number: usize) -> Result<u32, NoMemory>
    ensures { IfOk result (λ n. n ≡ number) }
{
    match u32::try_from(number) {
        Ok(short) => Ok(short),
        Err(_) => Err(NoMemory),
    }
}

/// The number of a row's group, which is made where there is none. Its key tuple is made in a buffer.
///
/// Errors: want of memory, or of room for the number.
#[inline(always)]
fn number_of<'a>(
    alloc: Global,
    keys: &[u32],
    slots: &[Option<ValueRef<'a>>],
    key: &mut Vec<Option<ValueRef<'a>>>,
    groups: &mut GroupMap,
) -> Result<u32, NoMemory>
    ensures put { IfOk result (λ n. HasPut groups.old
        (put_of (map (slot_value slots.now) keys.now) None ∷ []) groups.new) }
    ensures gatherings { gatherings_view groups.new ≡ gatherings_view groups.old }
    ensures found { IfOk result (λ n. slice_get (tuples_view groups.new) n
        ≡ Some (map (slot_value slots.now) keys.now)) }
    ensures stay { IfOk result (λ n. Stay (tuples_view groups.old) (tuples_view groups.new)) }
{
    if let [only] = keys {
        return short_number(groups.group_of(alloc, &[slot(slots, *only)])?);
    }
    key.clear();
    push_key(keys, slots, key)?;
    short_number(groups.group_of(alloc, key)?)
}

/// Puts the number of the group of each row. The groups that aren't there are made.
///
/// Errors: want of memory, or of room for a number.
pub(crate) fn put_numbers<'r>(
    alloc: Global,
    keys: &[u32],
    rows: &mut Rows<'r, '_>,
    groups: &mut GroupMap,
    out: &mut Vec<u32>,
) -> Result<(), NoMemory>
    ensures put { IfOk result (λ done. HasPut groups.old (groups_in keys.now (rows_view rows.old)) groups.new) }
    ensures gatherings { gatherings_view groups.new ≡ gatherings_view groups.old }
    ensures numbers { IfOk result (λ done. tuples_at (tuples_view groups.new) (out.new).items
        ≡ map (keys_in keys.now) (rows_view rows.old)) }
    ensures among { IfOk result (λ done. are_among (length (tuples_view groups.new)) (out.new).items ≡ true) }
{
    let mut key: Vec<Option<ValueRef<'r>>> = Vec::with_capacity(alloc, keys.len())?;
    out.clear();
    'rows: while let Some(_) = rows.next() {
        out.push(number_of(alloc, keys, &rows.slots, &mut key, groups)?)?;
    }
    Ok(())
}

/// The only key's values in the rows of a source; none where the keys are several, or the leaf isn't read there.
fn key_rows<'r>(keys: &[u32], source: &Source, columns: &[Triplets<'r>]) -> Option<LeafRows<'r>>
    requires leaf { (source.now).leaf < length columns.now }
    requires apart { is_apart (source.now).leaf
        (map (source_view (map triplets_view columns.now)) ((source.now).beside).items) ≡ true }
    requires different { all_apart
        (map (source_view (map triplets_view columns.now)) ((source.now).beside).items) ≡ true }
    requires fed { list_all (is_fed (column_at (map triplets_view columns.now) (source.now).leaf) (length columns.now))
        (map (source_view (map triplets_view columns.now)) ((source.now).beside).items) ≡ true }
    ensures { IfSome result (λ r. cell_tuples (leaf_left r) ≡ map (keys_in keys.now)
        (rows_of (source.now).leaf ((source.now).beside).items (map triplets_view columns.now))) }
{
    match keys {
        [only] => LeafRows::of(*only, source, columns),
        _ => None,
    }
}

/// Puts the number of the group of each of a leaf's rows. Where there is one key, its leaf's values alone
/// are read.
///
/// Errors: want of memory, or of room for a number.
pub(crate) fn number_rows<'r>(
    alloc: Global,
    keys: &[u32],
    fired: &Fired<'r>,
    columns: &[Triplets<'r>],
    groups: &mut GroupMap,
    out: &mut Vec<u32>,
) -> Result<(), NoMemory>
    requires { CanFire (map triplets_view columns.now) (fired_view fired.now) }
    ensures put { IfOk result (λ done. HasPut groups.old
        (groups_in keys.now (fired_rows (map triplets_view columns.now) (fired_view fired.now))) groups.new) }
    ensures gatherings { gatherings_view groups.new ≡ gatherings_view groups.old }
    ensures numbers { IfOk result (λ done. tuples_at (tuples_view groups.new) (out.new).items
        ≡ map (keys_in keys.now) (fired_rows (map triplets_view columns.now) (fired_view fired.now))) }
    ensures among { IfOk result (λ done. are_among (length (tuples_view groups.new)) (out.new).items ≡ true) }
{
    if let Some(rows) = key_rows(keys, &fired.source, columns) {
        return put_leaf_numbers(alloc, rows, groups, out);
    }
    let mut rows = Rows::new(alloc, &fired.source, columns)?;
    put_numbers(alloc, keys, &mut rows, groups, out)
}
