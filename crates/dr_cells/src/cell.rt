//! Cells of a result.

ghost use Rattle.std.specs.Prelude.{◌≡◌, true};
ghost use Rattle.dr_cells.specs.Held.{is_cell, cell_view};
ghost use Rattle.dr_cells.specs.Views.{lent_cell};

use dr_levels::TextPlace;

/// A cell: NULL, a value, or how many objects a list has. A text is held by its place.
#[derive(Clone, Copy, PartialEq, Eq)]
pub enum Cell {
    Null,
    Bool(bool),
    Int(i128),
    Text(TextPlace),
    Count(u64),
}

/// A cell, lent.
#[derive(Clone, Copy, PartialEq, Eq)]
pub enum CellRef<'a> {
    Null,
    Bool(bool),
    Int(i128),
    Text(&'a str),
    Count(u64),
}

/// A cell of a buffer, lent.
#[inline(always)]
pub fn lend(bytes: &[u8], cell: Cell) -> CellRef<'_>
    requires { is_cell bytes.now cell ≡ true }
    ensures { lent_cell result ≡ cell_view bytes.now cell }
{
    match cell {
        Cell::Null => CellRef::Null,
        Cell::Bool(truth) => CellRef::Bool(truth),
        Cell::Int(whole) => CellRef::Int(whole),
        Cell::Text(TextPlace { start, length }) => {
            let from = start as usize;
            let text = &bytes[from..from + length as usize];
            CellRef::Text(unsafe { str::from_utf8_unchecked(text) })
        }
        Cell::Count(count) => CellRef::Count(count),
    }
}
