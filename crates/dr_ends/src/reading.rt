//! Single cells.

ghost use Rattle.std.specs.Prelude.{◌≡◌, ◌∷◌, [], drop};
ghost use Rattle.dr_cells.specs.Results.{first_count, first_value};
ghost use Rattle.dr_cells.specs.Views.{cells_view, lent_cell};

use dr_cells::{CellRef, Cells};

/// The place so many cells further on, or the end.
pub fn skip(cells: &Cells, at: usize, count: usize) -> usize
    ensures { drop result (cells_view cells.now) ≡ drop count (drop at (cells_view cells.now)) }
{
    at.saturating_add(count).min(cells.len())
}

/// How many objects the list of the cell at a place has.
pub fn count_at(cells: &Cells, at: usize) -> u64
    ensures { result ≡ first_count (drop at (cells_view cells.now)) }
{
    if at >= cells.len() {
        return 0;
    }
    match cells.get(at) {
        CellRef::Count(count) => count,
        CellRef::Null | CellRef::Bool(_) | CellRef::Int(_) | CellRef::Text(_) => 0,
    }
}

/// The cell at a place; NULL where there is none.
pub fn cell_at(cells: &Cells, at: usize) -> CellRef<'_>
    ensures { first_value (lent_cell result ∷ []) ≡ first_value (drop at (cells_view cells.now)) }
{
    if at < cells.len() {
        cells.get(at)
    } else {
        CellRef::Null
    }
}
