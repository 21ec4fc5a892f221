//! Rows of which one leaf's values alone are read.

ghost use Rattle.std.specs.Prelude.{◌≡◌, [], ◌∷◌, length, option_map, true, Some, None, IfOk, IfSome};
ghost use Rattle.std.specs.List.{slice_get};
ghost use Rattle.dr_levels.specs.Views.{lent_value};
ghost use Rattle.dr_group.specs.Groups.{put_of};
ghost use Rattle.dr_group.specs.Maps.{gatherings_view, tuples_view};
ghost use Rattle.dr_columns.specs.LeafRows.{cell_tuples, cell_groups};
ghost use Rattle.dr_columns.specs.LeafRowsView.{leaf_left};
ghost use Rattle.dr_columns.specs.Numbers.{tuples_at, value_puts, are_among, Stay, HasPut};

use crate::leaf_rows::LeafRows;
use crate::numbering::short_number;
use crate::taking::put_value;
use dr_group::GroupMap;
use dr_levels::ValueRef;
use dr_memory::NoMemory;
use dr_rows_beside::Place;
use std::alloc::Global;

/// The number of the group of NULL, as a key tuple of one cell, which is made where there is none. It is kept.
///
/// Errors: want of memory, or of room for the number.
#[inline(always)]
fn number_of_null(
    alloc: Global,
    of_null: &mut Option<u32>,
    groups: &mut GroupMap,
) -> Result<u32, NoMemory>
    requires { IfSome of_null.old (λ k. slice_get (tuples_view groups.old) k ≡ Some (None ∷ [])) }
    ensures put { IfOk result (λ n. HasPut groups.old (put_of (None ∷ []) None ∷ []) groups.new) }
    ensures gatherings { gatherings_view groups.new ≡ gatherings_view groups.old }
    ensures found { IfOk result (λ n. slice_get (tuples_view groups.new) n ≡ Some (None ∷ [])) }
    ensures stay { IfOk result (λ n. Stay (tuples_view groups.old) (tuples_view groups.new)) }
    ensures kept { IfOk result (λ n. IfSome of_null.new
        (λ k. slice_get (tuples_view groups.new) k ≡ Some (None ∷ []))) }
{
    if let Some(number) = *of_null {
        return Ok(number);
    }
    let number = short_number(groups.group_of(alloc, &[None])?)?;
    *of_null = Some(number);
    Ok(number)
}

/// The number of the group of a value, or NULL, as a key tuple of one cell, which is made where there is none.
///
/// Errors: want of memory, or of room for the number.
#[inline(always)]
fn number_of_cell(
    alloc: Global,
    value: Option<ValueRef<'_>>,
    of_null: &mut Option<u32>,
    groups: &mut GroupMap,
) -> Result<u32, NoMemory>
    requires { IfSome of_null.old (λ k. slice_get (tuples_view groups.old) k ≡ Some (None ∷ [])) }
    ensures put { IfOk result (λ n. HasPut groups.old
        (put_of (option_map lent_value value.entry ∷ []) None ∷ []) groups.new) }
    ensures gatherings { gatherings_view groups.new ≡ gatherings_view groups.old }
    ensures found { IfOk result (λ n. slice_get (tuples_view groups.new) n
        ≡ Some (option_map lent_value value.entry ∷ [])) }
    ensures stay { IfOk result (λ n. Stay (tuples_view groups.old) (tuples_view groups.new)) }
    ensures kept { IfOk result (λ n. IfSome of_null.new
        (λ k. slice_get (tuples_view groups.new) k ≡ Some (None ∷ []))) }
{
    match value {
        None => number_of_null(alloc, of_null, groups),
        Some(_) => short_number(groups.group_of(alloc, &[value])?),
    }
}

/// Puts the number of the group of each value, as a key tuple of one cell. The groups that aren't there are made.
///
/// Errors: want of memory, or of room for a number.
#[inline(never)]
pub(crate) fn put_leaf_numbers(
    alloc: Global,
    mut rows: LeafRows<'_>,
    groups: &mut GroupMap,
    out: &mut Vec<u32>,
) -> Result<(), NoMemory>
    ensures put { IfOk result (λ done. HasPut groups.old (cell_groups (leaf_left rows.entry)) groups.new) }
    ensures gatherings { gatherings_view groups.new ≡ gatherings_view groups.old }
    ensures numbers { IfOk result (λ done. tuples_at (tuples_view groups.new) (out.new).items
        ≡ cell_tuples (leaf_left rows.entry)) }
    ensures among { IfOk result (λ done. are_among (length (tuples_view groups.new)) (out.new).items ≡ true) }
{
    out.clear();
    let mut of_null = None;
    'rows: while let Some(value) = rows.next() {
        out.push(number_of_cell(alloc, value, &mut of_null, groups)?)?;
    }
    Ok(())
}

/// Takes each value for an aggregate into its group, by the groups' numbers.
///
/// Errors: want of memory, or of room for a count or a sum.
#[inline(never)]
pub(crate) fn take_leaf(
    alloc: Global,
    aggregate: u32,
    mut rows: LeafRows<'_>,
    numbers: &[u32],
    groups: &mut GroupMap,
) -> Result<(), NoMemory>
    requires { are_among (length (tuples_view groups.old)) numbers.now ≡ true }
    ensures put { IfOk result (λ done. HasPut groups.old (value_puts aggregate
        (tuples_at (tuples_view groups.old) numbers.now) (leaf_left rows.entry)) groups.new) }
    ensures gatherings { gatherings_view groups.new ≡ gatherings_view groups.old }
    ensures tuples { tuples_view groups.new ≡ tuples_view groups.old }
{
    'numbers: for number in numbers {
        let Some(value) = rows.next() else {
            return Ok(());
        };
        put_value(alloc, aggregate, value, *number, groups)?;
    }
    Ok(())
}
