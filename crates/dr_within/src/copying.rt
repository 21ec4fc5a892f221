//! Cells that are copied from one buffer to another.

ghost use Rattle.std.specs.Prelude.{◌≡◌, ◌++◌, ◌∷◌, [], take, drop, OnOk};
ghost use Rattle.dr_cells.specs.Views.{cells_view, lent_cell};

use dr_cells::{CellRef, Cells};
use dr_levels::ValueRef;
use dr_memory::NoMemory;

/// Appends a cell of another buffer.
fn push_cell(cell: CellRef<'_>, cells: &mut Cells) -> Result<(), NoMemory>
    ensures { OnOk result (cells_view cells.new ≡ cells_view cells.old ++ lent_cell cell.entry ∷ []) }
{
    match cell {
        CellRef::Null => cells.push(None),
        CellRef::Bool(truth) => cells.push(Some(ValueRef::Bool(truth))),
        CellRef::Int(whole) => cells.push_whole(Some(whole)),
        CellRef::Text(text) => cells.push(Some(ValueRef::Text(text))),
        CellRef::Count(count) => cells.push_count(count),
    }
}

/// Appends so many cells of another buffer, from this number on, or as many as there are.
///
/// Errors: want of memory, or of room: the texts of a result have less than 4 GiB together.
pub(crate) fn push_cells(
    from: &Cells,
    start: usize,
    count: usize,
    cells: &mut Cells,
) -> Result<(), NoMemory>
    ensures { OnOk result (cells_view cells.new
        ≡ cells_view cells.old ++ take count (drop start (cells_view from.now))) }
{
    let end = start.saturating_add(count).min(from.len());
    'cells: for number in start..end {
        push_cell(from.get(number), cells)?;
    }
    Ok(())
}
