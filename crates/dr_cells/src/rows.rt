//! Results: objects of one shape, one after another.

ghost use Rattle.dr_cells.specs.Results.{AreRows};
ghost use Rattle.dr_cells.specs.Shapes.{shape_view};
ghost use Rattle.dr_cells.specs.Views.{cells_view};

use crate::cells::Cells;
use crate::shape::Shape;
use dr_memory::NoMemory;
use std::alloc::Global;

/// The objects of a result: their shape, their cells, and how many they are.
#[derive(Drop)]
pub struct RowsOut {
    pub shape: Shape,
    pub cells: Cells,
    pub count: u64,
    pub ghost rows: { AreRows (shape_view shape) count (cells_view cells) },
}

impl RowsOut {
    ghost use Rattle.std.specs.Prelude.{◌≡◌, [], List, length};
    ghost use Rattle.dr_meaning.specs.Query.{Object};
    ghost use Rattle.dr_levels.specs.Columns.{Adds};
    ghost use Rattle.dr_cells.specs.Results.{read_rows, AllFitShape, result_cells};
    ghost use Rattle.dr_cells.specs.Rows.{rows_view, rows_shape};

    /// No objects of a shape.
    pub fn new(alloc: Global, shape: Shape) -> RowsOut
        ensures rows { rows_view result ≡ [] }
        ensures shape { rows_shape result ≡ shape_view shape }
    {
        RowsOut {
            shape,
            cells: Cells::new(alloc),
            count: 0,
        }
    }

    /// So many objects of a shape, by their cells.
    pub fn of(shape: Shape, cells: Cells, count: u64) -> RowsOut
        requires { AreRows (shape_view shape) count (cells_view cells) }
        ensures read { rows_view result ≡ (read_rows (shape_view shape) count (cells_view cells)).objects }
        ensures rows { (os : List Object) → AllFitShape (shape_view shape) os → cells_view cells ≡ result_cells os
            → count ≡ length os → rows_view result ≡ os }
        ensures shape { rows_shape result ≡ shape_view shape }
    {
        RowsOut {
            shape,
            cells,
            count,
        }
    }

    /// Appends the objects of another result of the same shape.
    ///
    /// Errors: want of memory, or of room: the texts of a result have less than 4 GiB together. Nothing has changed
    /// then.
    pub fn append(&mut self, more: &RowsOut) -> Result<(), NoMemory>
        requires { rows_shape more.now ≡ rows_shape self.old }
        ensures rows { Adds (rows_view self.old) (rows_view self.new) (rows_view more.now) result }
        ensures shape { rows_shape self.new ≡ rows_shape self.old }
    {
        let Some(count) = self.count.checked_add(more.count) else {
            return Err(NoMemory);
        };
        self.cells.append(&more.cells)?;
        self.count = count;
        Ok(())
    }
}
