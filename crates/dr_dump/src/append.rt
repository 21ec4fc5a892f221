//! Joining triplets to a column.

ghost use Rattle.std.specs.Prelude.{◌≡◌, ◌++◌, OnOk};
ghost use Rattle.dr_levels.specs.Views.{column_form, column_view, triplets_form, triplets_view};

use dr_levels::{Column, Triplets};
use dr_memory::NoMemory;

/// Appends triplets to a column of their leaf.
///
/// Errors: want of memory, or of room: a column's texts have less than 4 GiB together.
pub(crate) fn append(front: Triplets<'_>, out: &mut Column) -> Result<(), NoMemory>
    requires { triplets_form front ≡ column_form out.old }
    ensures added { OnOk result (column_view out.new ≡ column_view out.old ++ triplets_view front.entry) }
    ensures form { column_form out.new ≡ column_form out.old }
{
    let mut rest = front;
    'triplets: while let Some(triplet) = rest.next() {
        out.push(triplet)?;
    }
    Ok(())
}
