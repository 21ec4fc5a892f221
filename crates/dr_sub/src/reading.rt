//! Single cells, as what leaves hold.

ghost use Rattle.std.specs.Prelude.{◌≡◌, ◌∷◌, [], drop};
ghost use Rattle.dr_cells.specs.Results.{first_value};
ghost use Rattle.dr_cells.specs.Views.{cells_view, lent_cell};
ghost use Rattle.dr_sub.specs.PlacedRows.{list_of};
ghost use Rattle.dr_sub_meaning.specs.ResultRecords.{cell_instances};

use crate::placed::PlacedList;
use dr_cells::{CellRef, Cells};
use dr_ends::cell_at;
use dr_levels::ValueRef;

/// A cell as the instances of a leaf: NULL is none, and so is a number of more than 64 bits.
fn held_cell(cell: CellRef<'_>) -> PlacedList<'_>
    ensures { list_of result ≡ cell_instances (first_value (lent_cell cell.entry ∷ [])) }
{
    match cell {
        CellRef::Null | CellRef::Count(_) => PlacedList::Nothing,
        CellRef::Bool(truth) => PlacedList::One(ValueRef::Bool(truth)),
        CellRef::Int(number) => match i64::try_from(number) {
            Ok(number) => PlacedList::One(ValueRef::Int(number)),
            Err(_) => PlacedList::Nothing,
        },
        CellRef::Text(text) => PlacedList::One(ValueRef::Text(text)),
    }
}

/// The value of the cell at a place as the instances of a leaf.
pub(crate) fn value_at(cells: &Cells, at: usize) -> PlacedList<'_>
    ensures { list_of result ≡ cell_instances (first_value (drop at (cells_view cells.now))) }
{
    held_cell(cell_at(cells, at))
}
