//! Places in the cells of a result.

ghost use Rattle.std.specs.Prelude.{◌≡◌, drop};
ghost use Rattle.dr_cells.specs.Views.{cells_view};

use dr_cells::Cells;

/// The place so many cells further on, or the end.
pub fn skip(cells: &Cells, at: usize, count: usize) -> usize
    ensures { drop result (cells_view cells.now) ≡ drop count (drop at (cells_view cells.now)) }
{
    at.saturating_add(count).min(cells.len())
}
