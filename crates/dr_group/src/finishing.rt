//! The rows of groups.

ghost use Rattle.std.specs.Prelude.{◌≡◌, ◌++◌, ◌∷◌, [], drop, IfOk, OnOk, map, true};
ghost use Rattle.dr_meaning.specs.Query.{nth_value};
ghost use Rattle.dr_partials.specs.Accumulators.{result_of};
ghost use Rattle.dr_cells.specs.Results.{value_cell};
ghost use Rattle.dr_cells.specs.Views.{cells_view};
ghost use Rattle.dr_group.specs.Views.{accumulator_view, cell_view};
ghost use Rattle.dr_group.specs.Finishing.{first_result, value_of_term, behind_term, group_cells, all_row_cells};
ghost use Rattle.dr_group.specs.Groups.{accumulators_view, group_view, picked};
ghost use Rattle.dr_group.specs.Merging.{are_numbers};
ghost use Rattle.dr_group.specs.Maps.{groups_view};

use crate::accumulator::Accumulator;
use crate::group::Group;
use crate::group_map::GroupMap;
use crate::ordering::numbers_in_order;
use dr_cells::Cells;
use dr_levels::ValueRef;
use dr_memory::NoMemory;
use dr_nested::Value;
use dr_plan::{GroupItem, GroupTerm};
use std::alloc::Global;

impl GroupMap {
    /// Appends the cells of the groups' rows, in the order of their key tuples.
    ///
    /// Errors: want of memory, or of room for texts.
    pub(crate) fn push_rows(
        &self,
        alloc: Global,
        items: &[GroupItem],
        cells: &mut Cells,
    ) -> Result<(), NoMemory>
        ensures { OnOk result (cells_view cells.new
            ≡ cells_view cells.old ++ all_row_cells items.now (groups_view self.now)) }
    {
        let numbers = numbers_in_order(alloc, &self.groups)?;
        push_numbered(&self.groups, &numbers, items, cells)
    }
}

/// Appends the cells of the rows of the groups of these numbers.
fn push_numbered(
    groups: &[Group],
    numbers: &[u32],
    items: &[GroupItem],
    cells: &mut Cells,
) -> Result<(), NoMemory>
    requires { are_numbers groups.now numbers.now ≡ true }
    ensures { OnOk result (cells_view cells.new
        ≡ cells_view cells.old ++ all_row_cells items.now (picked groups.now numbers.now)) }
{
    'numbers: for number in numbers {
        push_row(&groups[*number as usize], items, cells)?;
    }
    Ok(())
}

/// Appends the cells of a group's row.
fn push_row(group: &Group, items: &[GroupItem], cells: &mut Cells) -> Result<(), NoMemory>
    ensures { OnOk result (cells_view cells.new
        ≡ cells_view cells.old ++ group_cells items.now (group_view group.now)) }
{
    let mut next = 0;
    'items: for item in items {
        next = push_item(item.term, group, next, cells)?;
    }
    Ok(())
}

/// Appends a key, or what the accumulator of this number has gathered, and tells the number of the accumulator that is
/// next.
fn push_item(
    term: GroupTerm,
    group: &Group,
    next: usize,
    cells: &mut Cells,
) -> Result<usize, NoMemory>
    ensures cells { OnOk result (cells_view cells.new
        ≡ cells_view cells.old ++ value_cell (value_of_term term (group_view group.now).keys
        (drop next (group_view group.now).accumulators)) ∷ []) }
    ensures next { IfOk result (λ n. drop n (group_view group.now).accumulators
        ≡ behind_term term (drop next (group_view group.now).accumulators)) }
{
    match term {
        GroupTerm::Key(key) => {
            push_key(&group.keys, key as usize, cells)?;
            Ok(next)
        }
        GroupTerm::Aggregate(_) => {
            push_next(&group.accumulators, next, cells)?;
            Ok(number_behind(&group.accumulators, next))
        }
    }
}

/// The number behind a number, or how many there are.
fn number_behind(accumulators: &[Accumulator], number: usize) -> usize
    ensures { drop result (accumulators_view accumulators.now)
        ≡ drop 1 (drop number (accumulators_view accumulators.now)) }
{
    if number < accumulators.len() {
        number + 1
    } else {
        number
    }
}

/// Appends the key of a number, or NULL.
fn push_key(keys: &[Option<Value>], number: usize, cells: &mut Cells) -> Result<(), NoMemory>
    ensures { OnOk result (cells_view cells.new
        ≡ cells_view cells.old ++ value_cell (nth_value (map cell_view keys.now) number) ∷ []) }
{
    if number < keys.len() {
        push_held(&keys[number], cells)
    } else {
        cells.push(None)
    }
}

/// Appends a held value, or NULL.
fn push_held(value: &Option<Value>, cells: &mut Cells) -> Result<(), NoMemory>
    ensures { OnOk result (cells_view cells.new ≡ cells_view cells.old ++ value_cell (cell_view value.now) ∷ []) }
{
    match value {
        None => cells.push(None),
        Some(value) => cells.push(Some(ValueRef::of(value))),
    }
}

/// Appends what the accumulator of a number has gathered, or NULL.
fn push_next(accumulators: &[Accumulator], number: usize, cells: &mut Cells) -> Result<(), NoMemory>
    ensures { OnOk result (cells_view cells.new
        ≡ cells_view cells.old ++ value_cell (first_result (drop number (accumulators_view accumulators.now))) ∷ []) }
{
    if number < accumulators.len() {
        push_result(&accumulators[number], cells)
    } else {
        cells.push(None)
    }
}

/// Appends what an accumulator has gathered.
fn push_result(accumulator: &Accumulator, cells: &mut Cells) -> Result<(), NoMemory>
    ensures { OnOk result (cells_view cells.new
        ≡ cells_view cells.old ++ value_cell (result_of (accumulator_view accumulator.now)) ∷ []) }
{
    match accumulator {
        Accumulator::Count(count) => cells.push_whole(Some(i128::from(*count))),
        Accumulator::Sum(sum) => cells.push_whole(*sum),
        Accumulator::Least(value) => push_held(value, cells),
        Accumulator::Greatest(value) => push_held(value, cells),
    }
}
