//! Objects of a result into the columns of a striper.

ghost use Rattle.std.specs.Prelude.{◌≡◌, true};
ghost use Rattle.dr_cells.specs.Views.{cells_view};
ghost use Rattle.dr_cells.specs.Shapes.{shape_view};
ghost use Rattle.dr_striper.specs.Stripers.{striped, striped_leaves, striped_paths};
ghost use Rattle.dr_sub.specs.Striping.{AddsRecords, records_in, fit_leaves};

use crate::placed::{Placed, Spot};
use dr_cells::{Cells, Shape};
use dr_ends::end_of_object;
use dr_memory::NoMemory;
use dr_striper::Striper;

/// Appends the first so many objects of a shape, as records, to the columns of a striper, each of whose leaves takes
/// what they give it.
///
/// Errors: want of memory, or of room for texts; the columns then have the first of these records, and whole ones
/// alone.
pub fn stripe_objects(
    shape: &Shape,
    cells: &Cells,
    count: u64,
    striper: &mut Striper<'_>,
) -> Result<(), NoMemory>
    requires fits { fit_leaves (striped_leaves striper.old)
        (records_in (shape_view shape.now) count (cells_view cells.now)) ≡ true }
    ensures columns { AddsRecords (records_in (shape_view shape.now) count (cells_view cells.now))
        (striped_paths striper.old) (striped striper.old) (striped striper.new) result }
    ensures leaves { striped_leaves striper.new ≡ striped_leaves striper.old }
{
    let mut at = 0;
    'objects: for _ in 0..count {
        striper.add_held(Placed::Object(Spot { shape, cells, at }))?;
        at = end_of_object(shape, cells, at);
    }
    Ok(())
}
