//! The texts of single cells.

ghost use Rattle.std.specs.Prelude.{◌≡◌, ◌++◌, drop, string_bytes, OnOk};
ghost use Rattle.std.specs.Fmt.{signed_decimal};
ghost use Rattle.dr_meaning.specs.Print as print;
ghost use Rattle.dr_cells.specs.Results.{first_value, first_count};
ghost use Rattle.dr_cells.specs.Views.{cells_view, lent_cell};
ghost use Rattle.dr_print.specs.Parts.{own_value};

use crate::parts::push_quoted;
use dr_cells::{CellRef, Cells};
use itoa::Buffer;
use std::alloc::{AllocError, Global};

#[inline(always)]
fn push_whole(text: &mut String, number: i128) -> Result<(), AllocError>
    ensures { OnOk result (string_bytes text.new ≡ string_bytes text.old ++ signed_decimal number) }
{
    let mut buffer = Buffer::new();
    text.push_str(buffer.format(number))
}

/// Appends the value of a cell, or `null`.
#[inline(always)]
fn push_cell(alloc: Global, text: &mut String, cell: CellRef<'_>) -> Result<(), AllocError>
    ensures { OnOk result (string_bytes text.new
        ≡ string_bytes text.old ++ print.cell_text (own_value (lent_cell cell.entry))) }
{
    match cell {
        CellRef::Null | CellRef::Count(_) => text.push_str("null"),
        CellRef::Bool(true) => text.push_str("true"),
        CellRef::Bool(false) => text.push_str("false"),
        CellRef::Int(number) => push_whole(text, number),
        CellRef::Text(value) => push_quoted(alloc, text, value),
    }
}

/// Appends the value of the cell at a place, or `null`.
#[inline]
pub fn push_value(
    alloc: Global,
    text: &mut String,
    cells: &Cells,
    at: usize,
) -> Result<(), AllocError>
    ensures { OnOk result (string_bytes text.new
        ≡ string_bytes text.old ++ print.cell_text (first_value (drop at (cells_view cells.now)))) }
{
    if at < cells.len() {
        push_cell(alloc, text, cells.get(at))
    } else {
        text.push_str("null")
    }
}

/// How many objects the list at a place has.
#[inline(always)]
pub fn count_at(cells: &Cells, at: usize) -> u64
    ensures { result ≡ first_count (drop at (cells_view cells.now)) }
{
    if at >= cells.len() {
        return 0;
    }
    match cells.get(at) {
        CellRef::Count(count) => count,
        CellRef::Null | CellRef::Bool(_) | CellRef::Int(_) | CellRef::Text(_) => 0,
    }
}
