//! What is put of the rows of leaves.

ghost use Rattle.std.specs.Prelude.{◌≡◌, ◌<◌, ℕ, List, length, map, true, IfOk};
ghost use Rattle.std.specs.List.{list_all, flat_map};
ghost use Rattle.dr_levels.specs.Views.{triplets_view};
ghost use Rattle.dr_beside.specs.Neighbours.{column_at};
ghost use Rattle.dr_group.specs.Maps.{gatherings_view, tuples_view};
ghost use Rattle.dr_rows_beside.specs.Rows.{source_view, is_fed, is_apart, all_apart};
ghost use Rattle.dr_rows_beside.specs.RecordRows.{rows_of};
ghost use Rattle.dr_columns.specs.RowPuts.{keys_in};
ghost use Rattle.dr_columns.specs.Numbers.{tuples_at, are_among, HasPut};
ghost use Rattle.dr_columns.specs.Takings.{
  taking_view,
  takings_view,
  fired_view,
  taking_puts,
  source_puts,
  fired_puts,
  CanFire,
  CanFireEach,
};

use crate::firing::Fired;
use crate::keyless::take_keyless;
use crate::leaf_groups::take_leaf;
use crate::numbering::number_rows;
use crate::own::own_rows;
use crate::taking::{Taking, take_rows, take_values};
use dr_group::GroupMap;
use dr_levels::Triplets;
use dr_memory::NoMemory;
use dr_plan::Aggregate;
use dr_rows_beside::{Rows, Source};
use std::alloc::Global;

/// Takes the rows of a source for an aggregate, by the numbers of their groups.
///
/// Errors: want of memory, or of room for a count or a sum.
fn take_one<'r>(
    alloc: Global,
    source: &Source,
    taking: Taking<'r>,
    columns: &[Triplets<'r>],
    numbers: &[u32],
    groups: &mut GroupMap,
) -> Result<(), NoMemory>
    requires leaf { (source.now).leaf < length columns.now }
    requires apart { is_apart (source.now).leaf
        (map (source_view (map triplets_view columns.now)) ((source.now).beside).items) ≡ true }
    requires different { all_apart
        (map (source_view (map triplets_view columns.now)) ((source.now).beside).items) ≡ true }
    requires fed { list_all (is_fed (column_at (map triplets_view columns.now) (source.now).leaf) (length columns.now))
        (map (source_view (map triplets_view columns.now)) ((source.now).beside).items) ≡ true }
    requires among { are_among (length (tuples_view groups.old)) numbers.now ≡ true }
    ensures put { IfOk result (λ done. (ks : List ℕ) → tuples_at (tuples_view groups.old) numbers.now ≡ map (keys_in ks)
        (rows_of (source.now).leaf ((source.now).beside).items (map triplets_view columns.now))
        → HasPut groups.old (taking_puts ks
        (rows_of (source.now).leaf ((source.now).beside).items (map triplets_view columns.now))
        (taking_view taking.entry)) groups.new) }
    ensures gatherings { gatherings_view groups.new ≡ gatherings_view groups.old }
    ensures tuples { tuples_view groups.new ≡ tuples_view groups.old }
{
    match taking.aggregate {
        Aggregate::Rows => take_rows(alloc, taking.number, numbers, groups),
        Aggregate::Of(_, expression) => {
            if let Some(rows) = own_rows(expression, source, columns) {
                return take_leaf(alloc, taking.number, rows, numbers, groups);
            }
            let mut rows = Rows::new(alloc, source, columns)?;
            take_values(alloc, taking.number, expression, &mut rows, numbers, groups)
        }
    }
}

/// Takes the rows of a source for several aggregates.
///
/// Errors: want of memory, or of room for a count or a sum.
fn take_each<'r>(
    alloc: Global,
    source: &Source,
    takings: &[Taking<'r>],
    columns: &[Triplets<'r>],
    numbers: &[u32],
    groups: &mut GroupMap,
) -> Result<(), NoMemory>
    requires leaf { (source.now).leaf < length columns.now }
    requires apart { is_apart (source.now).leaf
        (map (source_view (map triplets_view columns.now)) ((source.now).beside).items) ≡ true }
    requires different { all_apart
        (map (source_view (map triplets_view columns.now)) ((source.now).beside).items) ≡ true }
    requires fed { list_all (is_fed (column_at (map triplets_view columns.now) (source.now).leaf) (length columns.now))
        (map (source_view (map triplets_view columns.now)) ((source.now).beside).items) ≡ true }
    requires among { are_among (length (tuples_view groups.old)) numbers.now ≡ true }
    ensures put { IfOk result (λ done. (ks : List ℕ) → tuples_at (tuples_view groups.old) numbers.now ≡ map (keys_in ks)
        (rows_of (source.now).leaf ((source.now).beside).items (map triplets_view columns.now))
        → HasPut groups.old (flat_map (taking_puts ks
        (rows_of (source.now).leaf ((source.now).beside).items (map triplets_view columns.now)))
        (takings_view takings.now)) groups.new) }
    ensures gatherings { gatherings_view groups.new ≡ gatherings_view groups.old }
    ensures tuples { tuples_view groups.new ≡ tuples_view groups.old }
{
    'takings: for taking in takings {
        take_one(alloc, source, *taking, columns, numbers, groups)?;
    }
    Ok(())
}

/// Takes the rows of a leaf: into their groups, then for each aggregate. The groups' numbers are put into a buffer.
///
/// Errors: want of memory, or of room for a count, a sum or a number of a group.
fn take_source<'r>(
    alloc: Global,
    keys: &[u32],
    fired: &Fired<'r>,
    columns: &[Triplets<'r>],
    groups: &mut GroupMap,
    numbers: &mut Vec<u32>,
) -> Result<(), NoMemory>
    requires { CanFire (map triplets_view columns.now) (fired_view fired.now) }
    ensures put { IfOk result (λ done. HasPut groups.old
        (source_puts keys.now (map triplets_view columns.now) (fired_view fired.now)) groups.new) }
    ensures gatherings { gatherings_view groups.new ≡ gatherings_view groups.old }
{
    number_rows(alloc, keys, fired, columns, groups, numbers)?;
    take_each(
        alloc,
        &fired.source,
        &fired.takings,
        columns,
        numbers,
        groups,
    )
}

/// Takes the rows of a leaf, if they are of use.
fn take_fired<'r>(
    alloc: Global,
    keys: &[u32],
    fired: &Fired<'r>,
    columns: &[Triplets<'r>],
    groups: &mut GroupMap,
    numbers: &mut Vec<u32>,
) -> Result<(), NoMemory>
    requires { (fired_view fired.now).needed ≡ true → CanFire (map triplets_view columns.now) (fired_view fired.now) }
    ensures put { IfOk result (λ done. HasPut groups.old
        (fired_puts keys.now (map triplets_view columns.now) (fired_view fired.now)) groups.new) }
    ensures gatherings { gatherings_view groups.new ≡ gatherings_view groups.old }
{
    if !fired.is_needed {
        return Ok(());
    }
    if keys.is_empty() {
        return take_keyless(alloc, fired, columns, groups);
    }
    take_source(alloc, keys, fired, columns, groups, numbers)
}

/// Takes the rows of each leaf at which something is taken, or whose rows are those of the groups.
///
/// Errors: want of memory, or of room for a count, a sum or a number of a group.
pub(crate) fn take_sources<'r>(
    alloc: Global,
    keys: &[u32],
    fired: &[Fired<'r>],
    columns: &[Triplets<'r>],
    groups: &mut GroupMap,
    numbers: &mut Vec<u32>,
) -> Result<(), NoMemory>
    requires { CanFireEach (map triplets_view columns.now) (map fired_view fired.now) }
    ensures put { IfOk result (λ done. HasPut groups.old
        (flat_map (fired_puts keys.now (map triplets_view columns.now)) (map fired_view fired.now)) groups.new) }
    ensures gatherings { gatherings_view groups.new ≡ gatherings_view groups.old }
{
    'fired: for leaf in fired {
        take_fired(alloc, keys, leaf, columns, groups, numbers)?;
    }
    Ok(())
}
