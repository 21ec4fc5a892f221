//! Cells whose texts lie in another buffer.

ghost use Rattle.std.specs.Prelude.{◌≡◌, IfSome, map};
ghost use Rattle.dr_levels.specs.Columns.{Adds};
ghost use Rattle.dr_cells.specs.Held.{moved_cell};

use crate::cell::Cell;
use dr_levels::TextPlace;
use dr_memory::NoMemory;

/// The cell, where its text lies behind so many more bytes.
fn moved(cell: Cell, behind: u32) -> Option<Cell>
    ensures { IfSome result (λ c. c ≡ moved_cell behind cell) }
{
    match cell {
        Cell::Text(TextPlace { start, length }) => {
            let start = behind.checked_add(start)?;
            Some(Cell::Text(TextPlace { start, length }))
        }
        Cell::Null | Cell::Bool(_) | Cell::Int(_) | Cell::Count(_) => Some(cell),
    }
}

/// Appends cells, their texts moved behind so many bytes.
///
/// Errors: want of memory, or of room. Nothing has changed then.
pub fn push_moved(cells: &mut Vec<Cell>, behind: u32, more: &[Cell]) -> Result<(), NoMemory>
    ensures { Adds cells.old.items cells.new.items (map (moved_cell behind) more.now) result }
{
    let count = cells.len();
    'more: for cell in more {
        let pushed = match moved(*cell, behind) {
            Some(cell) => cells.push(cell).is_ok(),
            None => false,
        };
        if !pushed {
            cells.truncate(count);
            return Err(NoMemory);
        }
    }
    Ok(())
}
