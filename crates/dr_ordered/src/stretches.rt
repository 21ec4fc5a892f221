//! The stretches of cells that are a result's objects.

ghost use Rattle.std.specs.Prelude.{◌≡◌, IfOk, All, length, map};
ghost use Rattle.dr_cells.specs.Results.{AreRows, read_rows};
ghost use Rattle.dr_cells.specs.Shapes.{shape_view};
ghost use Rattle.dr_cells.specs.Views.{cells_view};
ghost use Rattle.dr_ordered.specs.Stretches.{object_at, IsWhole};

use dr_cells::{Cells, Shape};
use dr_ends::end_of_object;
use dr_memory::NoMemory;
use std::alloc::Global;

/// The cells from a place up to another.
#[derive(Clone, Copy)]
pub struct Stretch {
    pub start: usize,
    pub end: usize,
}

/// The stretches of so many objects, in order.
///
/// Errors: want of memory alone.
pub(crate) fn stretches(
    alloc: Global,
    shape: &Shape,
    cells: &Cells,
    count: u64,
) -> Result<Vec<Stretch>, NoMemory>
    requires { AreRows (shape_view shape.now) count (cells_view cells.now) }
    ensures objects { IfOk result (λ v. map (object_at (shape_view shape.now) (cells_view cells.now)) v.items
        ≡ (read_rows (shape_view shape.now) count (cells_view cells.now)).objects) }
    ensures whole { IfOk result (λ v. All (IsWhole (shape_view shape.now) (cells_view cells.now)) v.items) }
{
    let mut all = Vec::new(alloc);
    let mut start = 0;
    'objects: for _ in 0..count {
        let end = end_of_object(shape, cells, start).min(cells.len());
        all.push(Stretch { start, end })?;
        start = end;
    }
    Ok(all)
}
