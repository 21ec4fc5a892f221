//! What is put of the rows that a condition keeps.

ghost use Rattle.std.specs.Prelude.{◌≡◌, [], ◌∷◌, ℕ, List, length, map, true, IfOk};
ghost use Rattle.std.specs.List.{flat_map};
ghost use Rattle.dr_levels.specs.Views.{triplets_view};
ghost use Rattle.dr_group.specs.Maps.{gatherings_view, tuples_view};
ghost use Rattle.dr_beside.specs.Neighbours.{column_at};
ghost use Rattle.dr_rows_beside.specs.Rows.{Row, picked};
ghost use Rattle.dr_rows_beside.specs.KeptBits.{HasJudged};
ghost use Rattle.dr_columns.specs.RowPuts.{keys_in, groups_in};
ghost use Rattle.dr_columns.specs.Numbers.{tuples_at, are_among, HasPut};
ghost use Rattle.dr_columns.specs.Takings.{
  taking_view,
  takings_view,
  fired_view,
  fired_rows,
  taking_puts,
  read_puts,
  CanFire,
};
ghost use Rattle.dr_columns.specs.KeptTakings.{kept_puts, CanSift};

use crate::firing::Fired;
use crate::numbering::{put_numbers, short_number};
use crate::taking::{Taking, take_rows, take_values};
use dr_group::GroupMap;
use dr_levels::Triplets;
use dr_memory::NoMemory;
use dr_plan::Aggregate;
use dr_rows_beside::{Keeping, Rows, count_set};
use std::alloc::Global;

/// Puts the number of the group without keys for each of so many rows. It is made if there are any.
///
/// Errors: want of memory, or of room for a number.
fn number_alone(
    alloc: Global,
    rows: usize,
    groups: &mut GroupMap,
    out: &mut Vec<u32>,
) -> Result<(), NoMemory>
    ensures put { IfOk result (λ done. (rs : List Row) → length rs ≡ rows
        → HasPut groups.old (groups_in [] rs) groups.new) }
    ensures gatherings { gatherings_view groups.new ≡ gatherings_view groups.old }
    ensures numbers { IfOk result (λ done. (rs : List Row) → length rs ≡ rows
        → tuples_at (tuples_view groups.new) (out.new).items ≡ map (keys_in []) rs) }
    ensures among { IfOk result (λ done. are_among (length (tuples_view groups.new)) (out.new).items ≡ true) }
{
    out.clear();
    if rows == 0 {
        return Ok(());
    }
    let group = short_number(groups.group_of(alloc, &[])?)?;
    out.resize(rows, group)?;
    Ok(())
}

/// Puts the number of the group of each row of a leaf of which the bit is set.
///
/// Errors: want of memory, or of room for a number.
fn number_kept<'r>(
    alloc: Global,
    keys: &[u32],
    fired: &Fired<'r>,
    columns: &[Triplets<'r>],
    bits: &[bool],
    groups: &mut GroupMap,
    out: &mut Vec<u32>,
) -> Result<(), NoMemory>
    requires fires { CanFire (map triplets_view columns.now) (fired_view fired.now) }
    requires bits { length bits.now ≡ length (column_at (map triplets_view columns.now) (fired_view fired.now).leaf) }
    ensures put { IfOk result (λ done. HasPut groups.old (groups_in keys.now
        (picked bits.now (fired_rows (map triplets_view columns.now) (fired_view fired.now)))) groups.new) }
    ensures gatherings { gatherings_view groups.new ≡ gatherings_view groups.old }
    ensures numbers { IfOk result (λ done. tuples_at (tuples_view groups.new) (out.new).items ≡ map (keys_in keys.now)
        (picked bits.now (fired_rows (map triplets_view columns.now) (fired_view fired.now)))) }
    ensures among { IfOk result (λ done. are_among (length (tuples_view groups.new)) (out.new).items ≡ true) }
{
    if keys.is_empty() {
        return number_alone(alloc, count_set(bits), groups, out);
    }
    let mut rows = Rows::kept(alloc, &fired.source, columns, bits)?;
    put_numbers(alloc, keys, &mut rows, groups, out)
}

/// Takes the kept rows of a leaf for an aggregate, by the numbers of their groups.
///
/// Errors: want of memory, or of room for a count or a sum.
fn take_kept_one<'r>(
    alloc: Global,
    fired: &Fired<'r>,
    taking: Taking<'r>,
    columns: &[Triplets<'r>],
    bits: &[bool],
    numbers: &[u32],
    groups: &mut GroupMap,
) -> Result<(), NoMemory>
    requires fires { CanFire (map triplets_view columns.now) (fired_view fired.now) }
    requires among { are_among (length (tuples_view groups.old)) numbers.now ≡ true }
    ensures put { IfOk result (λ done. (ks : List ℕ) → tuples_at (tuples_view groups.old) numbers.now ≡ map (keys_in ks)
        (picked bits.now (fired_rows (map triplets_view columns.now) (fired_view fired.now)))
        → HasPut groups.old (taking_puts ks
        (picked bits.now (fired_rows (map triplets_view columns.now) (fired_view fired.now)))
        (taking_view taking.entry)) groups.new) }
    ensures gatherings { gatherings_view groups.new ≡ gatherings_view groups.old }
    ensures tuples { tuples_view groups.new ≡ tuples_view groups.old }
{
    match taking.aggregate {
        Aggregate::Rows => take_rows(alloc, taking.number, numbers, groups),
        Aggregate::Of(_, expression) => {
            let mut rows = Rows::kept(alloc, &fired.source, columns, bits)?;
            take_values(alloc, taking.number, expression, &mut rows, numbers, groups)
        }
    }
}

/// Takes the kept rows of a leaf for all that is taken there.
///
/// Errors: want of memory, or of room for a count or a sum.
fn take_kept_each<'r>(
    alloc: Global,
    fired: &Fired<'r>,
    columns: &[Triplets<'r>],
    bits: &[bool],
    numbers: &[u32],
    groups: &mut GroupMap,
) -> Result<(), NoMemory>
    requires fires { CanFire (map triplets_view columns.now) (fired_view fired.now) }
    requires among { are_among (length (tuples_view groups.old)) numbers.now ≡ true }
    ensures put { IfOk result (λ done. (ks : List ℕ) → tuples_at (tuples_view groups.old) numbers.now ≡ map (keys_in ks)
        (picked bits.now (fired_rows (map triplets_view columns.now) (fired_view fired.now)))
        → HasPut groups.old (flat_map (taking_puts ks
        (picked bits.now (fired_rows (map triplets_view columns.now) (fired_view fired.now))))
        (fired_view fired.now).takings) groups.new) }
    ensures gatherings { gatherings_view groups.new ≡ gatherings_view groups.old }
    ensures tuples { tuples_view groups.new ≡ tuples_view groups.old }
{
    'takings: for taking in &fired.takings {
        take_kept_one(alloc, fired, *taking, columns, bits, numbers, groups)?;
    }
    Ok(())
}

/// Takes the kept rows of a leaf: into their groups, then for each aggregate. The groups' numbers go into a buffer.
///
/// Errors: want of memory, or of room for a count, a sum or a number of a group.
fn take_kept_source<'r>(
    alloc: Global,
    keys: &[u32],
    fired: &Fired<'r>,
    columns: &[Triplets<'r>],
    bits: &[bool],
    groups: &mut GroupMap,
    numbers: &mut Vec<u32>,
) -> Result<(), NoMemory>
    requires fires { CanFire (map triplets_view columns.now) (fired_view fired.now) }
    requires bits { length bits.now ≡ length (column_at (map triplets_view columns.now) (fired_view fired.now).leaf) }
    ensures put { IfOk result (λ done. HasPut groups.old (read_puts keys.now
        (picked bits.now (fired_rows (map triplets_view columns.now) (fired_view fired.now)))
        (fired_view fired.now).takings) groups.new) }
    ensures gatherings { gatherings_view groups.new ≡ gatherings_view groups.old }
{
    number_kept(alloc, keys, fired, columns, bits, groups, numbers)?;
    take_kept_each(alloc, fired, columns, bits, numbers, groups)
}

/// Takes the rows of a leaf that a condition keeps, if they are of use. Their bits are put into a buffer.
///
/// Errors: want of memory, or of room for a count, a sum or a number of a group.
fn take_kept_fired<'r>(
    alloc: Global,
    keys: &[u32],
    fired: &Fired<'r>,
    columns: &[Triplets<'r>],
    keeping: &Keeping<'_>,
    bits: &mut Vec<bool>,
    groups: &mut GroupMap,
    numbers: &mut Vec<u32>,
) -> Result<(), NoMemory>
    requires fires { CanSift (map triplets_view columns.now) keeping.now (fired_view fired.now ∷ []) }
    requires judged { HasJudged (map triplets_view columns.now) keeping.now }
    ensures put { IfOk result (λ done. HasPut groups.old
        (kept_puts keys.now (map triplets_view columns.now) keeping.now (fired_view fired.now)) groups.new) }
    ensures gatherings { gatherings_view groups.new ≡ gatherings_view groups.old }
{
    if !fired.is_needed {
        return Ok(());
    }
    keeping.sift(fired.source.leaf, columns, bits)?;
    take_kept_source(alloc, keys, fired, columns, bits, groups, numbers)
}

/// Takes the rows that a condition keeps, of each leaf at which something is taken, or whose rows are the groups'.
///
/// Errors: want of memory, or of room for a count, a sum or a number of a group.
pub(crate) fn take_kept_sources<'r>(
    alloc: Global,
    keys: &[u32],
    fired: &[Fired<'r>],
    columns: &[Triplets<'r>],
    keeping: &Keeping<'_>,
    bits: &mut Vec<bool>,
    groups: &mut GroupMap,
    numbers: &mut Vec<u32>,
) -> Result<(), NoMemory>
    requires fires { CanSift (map triplets_view columns.now) keeping.now (map fired_view fired.now) }
    requires judged { HasJudged (map triplets_view columns.now) keeping.now }
    ensures put { IfOk result (λ done. HasPut groups.old
        (flat_map (kept_puts keys.now (map triplets_view columns.now) keeping.now)
        (map fired_view fired.now)) groups.new) }
    ensures gatherings { gatherings_view groups.new ≡ gatherings_view groups.old }
{
    'fired: for leaf in fired {
        take_kept_fired(alloc, keys, leaf, columns, keeping, bits, groups, numbers)?;
    }
    Ok(())
}
