//! Joining triplets to a column.

ghost use Rattle.std.specs.Prelude.{◌≡◌};
ghost use Rattle.dr_levels.specs.Columns.{Adds};
ghost use Rattle.dr_levels.specs.Views.{column_form, column_view, triplets_form, triplets_view};

use dr_levels::{Column, Triplets, ValuesRef};
use dr_memory::NoMemory;

/// Appends triplets to a column of their leaf.
///
/// Errors: want of memory, or of room: a column's texts have less than 4 GiB together. Nothing has changed then.
pub(crate) fn append(front: Triplets<'_>, out: &mut Column) -> Result<(), NoMemory>
    requires { triplets_form front ≡ column_form out.old }
    ensures triplets { Adds (column_view out.old) (column_view out.new) (triplets_view front.entry) result }
    ensures form { column_form out.new ≡ column_form out.old }
{
    match front.values() {
        ValuesRef::Bools(values) => out.extend_bools(front.levels(), values),
        ValuesRef::Integers(values) => out.extend_integers(front.levels(), values),
        ValuesRef::Texts { bytes, places } => out.extend_texts(front.levels(), bytes, places),
    }
}
