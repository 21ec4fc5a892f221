//! Key tuples.

ghost use Rattle.std.specs.Prelude.{◌≡◌, ◌++◌, map, take, drop, option_map, IfOk, OnOk};
ghost use Rattle.dr_levels.specs.Views.{lent_value};
ghost use Rattle.dr_cells.specs.Results.{value_cell};
ghost use Rattle.dr_cells.specs.Views as shown;
ghost use Rattle.dr_cells.specs.Views.{cells_view};
ghost use Rattle.dr_group.specs.Views.{lent_cell};
ghost use Rattle.dr_scalar.specs.Slots.{slot_value};
ghost use Rattle.dr_within.specs.Late.{cell_value as meant_value, cell_values, first_of};

use dr_cells::{CellRef, Cells};
use dr_levels::ValueRef;
use dr_memory::NoMemory;

/// What was read last of the leaf of a number; none where there is no such leaf.
#[inline(always)]
pub(crate) fn slot<'a>(slots: &[Option<ValueRef<'a>>], number: u32) -> Option<ValueRef<'a>>
    ensures { option_map lent_value result ≡ slot_value slots.now number }
{
    match slots.get(number as usize) {
        Some(value) => *value,
        None => None,
    }
}

/// Appends the key tuple of what was read last of each leaf, by the numbers of the keys' leaves.
///
/// Errors: want of memory alone.
#[inline(always)]
pub(crate) fn push_key<'a>(
    keys: &[u32],
    slots: &[Option<ValueRef<'a>>],
    cells: &mut Vec<Option<ValueRef<'a>>>,
) -> Result<(), NoMemory>
    ensures { OnOk result (map lent_cell (cells.new).items
        ≡ map lent_cell (cells.old).items ++ map (slot_value slots.now) keys.now) }
{
    'keys: for number in keys {
        cells.push(slot(slots, *number))?;
    }
    Ok(())
}

/// The same as cells, with texts of their own.
///
/// Errors: want of memory, or of room for the texts.
pub(crate) fn push_own_key(
    keys: &[u32],
    slots: &[Option<ValueRef<'_>>],
    cells: &mut Cells,
) -> Result<(), NoMemory>
    ensures { OnOk result (cell_values (cells_view cells.new)
        ≡ cell_values (cells_view cells.old) ++ map (slot_value slots.now) keys.now) }
{
    'keys: for number in keys {
        cells.push(slot(slots, *number))?;
    }
    Ok(())
}

/// The value in a cell; a count is none.
///
/// Errors: want of room for a whole number of more than 64 bits, which no leaf has.
fn cell_value(cell: CellRef<'_>) -> Result<Option<ValueRef<'_>>, NoMemory>
    ensures { IfOk result (λ v. option_map lent_value v ≡ meant_value (shown.lent_cell cell.entry)) }
{
    match cell {
        CellRef::Null | CellRef::Count(_) => Ok(None),
        CellRef::Bool(truth) => Ok(Some(ValueRef::Bool(truth))),
        CellRef::Int(whole) => match i64::try_from(whole) {
            Ok(number) => Ok(Some(ValueRef::Int(number))),
            Err(_) => Err(NoMemory),
        },
        CellRef::Text(text) => Ok(Some(ValueRef::Text(text))),
    }
}

/// The value in the cell of a number; none where there is no such cell.
///
/// Errors: want of room for a whole number of more than 64 bits, which no leaf has.
pub(crate) fn lend_cell(cells: &Cells, number: usize) -> Result<Option<ValueRef<'_>>, NoMemory>
    ensures { IfOk result (λ v. option_map lent_value v
        ≡ first_of (drop number (cell_values (cells_view cells.now)))) }
{
    if number < cells.len() {
        cell_value(cells.get(number))
    } else {
        Ok(None)
    }
}

/// Appends the values in so many cells, from this number on, or in as many as there are.
///
/// Errors: want of memory, or of room for a whole number of more than 64 bits, which no leaf has.
pub(crate) fn lend_key<'a>(
    from: &'a Cells,
    start: usize,
    count: usize,
    cells: &mut Vec<Option<ValueRef<'a>>>,
) -> Result<(), NoMemory>
    ensures { OnOk result (map lent_cell (cells.new).items
        ≡ map lent_cell (cells.old).items ++ take count (drop start (cell_values (cells_view from.now)))) }
{
    let end = start.saturating_add(count).min(from.len());
    'cells: for number in start..end {
        cells.push(lend_cell(from, number)?)?;
    }
    Ok(())
}
