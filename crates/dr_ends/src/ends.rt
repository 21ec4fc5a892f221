//! Where objects end.

ghost use Rattle.std.specs.Prelude.{◌≡◌, drop, take};
ghost use Rattle.dr_cells.specs.Results.{read_object, read_lists, read_times};
ghost use Rattle.dr_cells.specs.Shapes.{shape_view, lists_view};
ghost use Rattle.dr_cells.specs.Views.{cells_view};

use crate::reading::{count_at, skip};
use dr_cells::{Cells, ListShape, Shape};

/// The place behind the object that begins at a place.
#[cycle(ends)]
pub fn end_of_object(shape: &Shape, cells: &Cells, at: usize) -> usize
    ensures { drop result (cells_view cells.now)
        ≡ (read_object (shape_view shape.now) (drop at (cells_view cells.now))).rest }
{
    let counts = skip(cells, at, shape.names.len());
    let inner = skip(cells, counts, shape.lists.len());
    end_of_lists(&shape.lists, cells, counts, inner, shape.lists.len())
}

/// The place behind the first so many of some lists, by the places of their counts and of their objects.
#[cycle(ends)]
pub fn end_of_lists(
    lists: &Vec<ListShape>,
    cells: &Cells,
    counts: usize,
    at: usize,
    most: usize,
) -> usize
    ensures { drop result (cells_view cells.now)
        ≡ (read_lists (lists_view (take most (lists.now).items)) (drop counts (cells_view cells.now))
        (drop at (cells_view cells.now))).rest }
{
    let mut next = at;
    'lists: for number in 0..most.min(lists.len()) {
        let list = &lists[number];
        let count = count_at(cells, skip(cells, counts, number));
        next = end_of_objects(&list.shape, cells, count, next);
    }
    next
}

/// The place behind so many objects, the first of which begins at a place.
#[cycle(ends)]
pub fn end_of_objects(shape: &Shape, cells: &Cells, count: u64, at: usize) -> usize
    ensures { drop result (cells_view cells.now)
        ≡ (read_times (read_object (shape_view shape.now)) count (drop at (cells_view cells.now))).rest }
{
    let mut next = at;
    'objects: for _ in 0..count {
        next = end_of_object(shape, cells, next);
    }
    next
}
