//! Cells one after another, with their texts in one buffer.

ghost use Rattle.std.specs.Prelude.{◌≡◌, true};
ghost use Rattle.std.specs.List.{list_all};
ghost use Rattle.dr_cells.specs.Held.{is_cell};

use crate::cell::{Cell, CellRef, lend};
use crate::moving::push_moved;
use dr_levels::{TextPlace, ValueRef};
use dr_memory::NoMemory;
use std::alloc::Global;

/// Cells of a result, in order. All texts lie in one buffer.
#[derive(Drop)]
pub struct Cells {
    pub(crate) cells: Vec<Cell>,
    pub(crate) bytes: Vec<u8>,
    pub ghost texts: { list_all (is_cell bytes.items) cells.items ≡ true },
}

impl Cells {
    ghost use Rattle.std.specs.Prelude.{◌<◌, ◌+◌, ◌==◌, ◌∷◌, [], length, take, drop, slice_set, option_map};
    ghost use Rattle.dr_meaning.specs.Record.{int_value, text_value};
    ghost use Rattle.dr_levels.specs.Views.{lent_value};
    ghost use Rattle.dr_levels.specs.Columns.{Adds};
    ghost use Rattle.dr_cells.specs.Results.{value_cell, count_cell};
    ghost use Rattle.dr_cells.specs.Views.{cells_view, lent_cell, Replaces};
    ghost use Rattle.dr_cells.specs.Held.{cell_view};

    /// No cells.
    pub fn new(alloc: Global) -> Cells
        ensures { cells_view result ≡ [] }
    {
        Cells {
            cells: Vec::new(alloc),
            bytes: Vec::new(alloc),
        }
    }

    /// How many there are.
    #[inline(always)]
    pub fn len(&self) -> usize
        ensures { result ≡ length (cells_view self.now) }
    {
        self.cells.len()
    }

    /// Whether there are none.
    #[inline(always)]
    pub fn is_empty(&self) -> bool
        ensures { result ≡ (length (cells_view self.now) == 0) }
    {
        self.cells.is_empty()
    }

    /// The cell of this number.
    #[inline(always)]
    pub fn get(&self, number: usize) -> CellRef<'_>
        requires { number < length (cells_view self.now) }
        ensures { drop number (cells_view self.now) ≡ lent_cell result ∷ drop (number + 1) (cells_view self.now) }
    {
        lend(&self.bytes, self.cells[number])
    }

    /// Appends a value, or NULL.
    ///
    /// Errors: want of memory, or of room: the texts of a result have less than 4 GiB together. Nothing has changed
    /// then.
    #[inline(always)]
    pub fn push(&mut self, value: Option<ValueRef<'_>>) -> Result<(), NoMemory>
        ensures { Adds (cells_view self.old) (cells_view self.new)
            (value_cell (option_map lent_value value.entry) ∷ []) result }
    {
        let cell = match value {
            None => Cell::Null,
            Some(ValueRef::Bool(truth)) => Cell::Bool(truth),
            Some(ValueRef::Int(whole)) => Cell::Int(i128::from(whole)),
            Some(ValueRef::Text(text)) => return self.push_text(text),
        };
        self.cells.push(cell)?;
        Ok(())
    }

    /// Appends a whole number, or NULL.
    ///
    /// Errors: want of memory alone. Nothing has changed then.
    #[inline]
    pub fn push_whole(&mut self, whole: Option<i128>) -> Result<(), NoMemory>
        ensures { Adds (cells_view self.old) (cells_view self.new)
            (value_cell (option_map int_value whole) ∷ []) result }
    {
        let cell = match whole {
            None => Cell::Null,
            Some(whole) => Cell::Int(whole),
        };
        self.cells.push(cell)?;
        Ok(())
    }

    /// Appends how many objects a list has.
    ///
    /// Errors: want of memory alone. Nothing has changed then.
    #[inline(always)]
    pub fn push_count(&mut self, count: u64) -> Result<(), NoMemory>
        ensures { Adds (cells_view self.old) (cells_view self.new) (count_cell count ∷ []) result }
    {
        self.cells.push(Cell::Count(count))?;
        Ok(())
    }

    /// Appends a text.
    #[inline]
    fn push_text(&mut self, text: &str) -> Result<(), NoMemory>
        ensures { Adds (cells_view self.old) (cells_view self.new)
            (value_cell (Some (text_value text.now)) ∷ []) result }
    {
        let (Ok(start), Ok(length)) = (u32::try_from(self.bytes.len()), u32::try_from(text.len()))
        else {
            return Err(NoMemory);
        };
        self.cells.reserve(1)?;
        self.bytes.extend_from_slice(text.as_bytes())?;
        self.cells.push(Cell::Text(TextPlace { start, length }))?;
        Ok(())
    }

    /// Puts a value, or NULL, into the place of a cell.
    ///
    /// Errors: want of memory, or of room: the texts of a result have less than 4 GiB together. Nothing has changed
    /// then.
    pub fn set(&mut self, number: usize, value: Option<ValueRef<'_>>) -> Result<(), NoMemory>
        requires { number < length (cells_view self.old) }
        ensures { Replaces (cells_view self.old) (cells_view self.new) number
            (value_cell (option_map lent_value value.entry)) result }
    {
        match value {
            None => {
                self.set_cell(number, Cell::Null);
                Ok(())
            }
            Some(ValueRef::Bool(truth)) => {
                self.set_cell(number, Cell::Bool(truth));
                Ok(())
            }
            Some(ValueRef::Int(whole)) => {
                self.set_cell(number, Cell::Int(i128::from(whole)));
                Ok(())
            }
            Some(ValueRef::Text(text)) => self.set_text(number, text),
        }
    }

    /// Puts how many objects a list has into the place of a cell.
    #[inline(always)]
    pub fn set_count(&mut self, number: usize, count: u64)
        requires { number < length (cells_view self.old) }
        ensures { cells_view self.new ≡ slice_set (cells_view self.old) number (count_cell count) }
    {
        self.set_cell(number, Cell::Count(count));
    }

    /// Puts a cell that has no text, or one that lies in the buffer, into the place of another.
    #[inline(always)]
    fn set_cell(&mut self, number: usize, cell: Cell)
        requires number { number < length (cells_view self.old) }
        requires text { is_cell (self.old).bytes.items cell ≡ true }
        ensures { cells_view self.new ≡ slice_set (cells_view self.old) number (cell_view (self.old).bytes.items cell) }
    {
        self.cells[number] = cell;
    }

    /// Puts a text into the place of a cell.
    fn set_text(&mut self, number: usize, text: &str) -> Result<(), NoMemory>
        requires { number < length (cells_view self.old) }
        ensures { Replaces (cells_view self.old) (cells_view self.new) number
            (value_cell (Some (text_value text.now))) result }
    {
        let (Ok(start), Ok(length)) = (u32::try_from(self.bytes.len()), u32::try_from(text.len()))
        else {
            return Err(NoMemory);
        };
        self.bytes.extend_from_slice(text.as_bytes())?;
        self.cells[number] = Cell::Text(TextPlace { start, length });
        Ok(())
    }

    /// Appends the cells of another result.
    ///
    /// Errors: want of memory, or of room: the texts of a result have less than 4 GiB together. Nothing has changed
    /// then.
    pub fn append(&mut self, more: &Cells) -> Result<(), NoMemory>
        ensures { Adds (cells_view self.old) (cells_view self.new) (cells_view more.now) result }
    {
        let Ok(behind) = u32::try_from(self.bytes.len()) else {
            return Err(NoMemory);
        };
        self.cells.reserve(more.cells.len())?;
        self.bytes.extend_from_slice(&more.bytes)?;
        push_moved(&mut self.cells, behind, &more.cells)
    }

    /// Drops all cells behind the first so many.
    #[inline]
    pub fn truncate(&mut self, count: usize)
        ensures { cells_view self.new ≡ take count (cells_view self.old) }
    {
        self.cells.truncate(count);
    }
}
