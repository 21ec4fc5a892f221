//! Rows of results.

ghost use Rattle.std.specs.Prelude.{◌≡◌};
ghost use Rattle.dr_levels.specs.Columns.{Adds};
ghost use Rattle.dr_cells.specs.Rows.{rows_view, rows_shape};

use dr_cells::RowsOut;
use dr_memory::NoMemory;

/// As `RowsOut::append`.
pub fn append_rows(rows: &mut RowsOut, more: &RowsOut) -> Result<(), NoMemory>
    requires { rows_shape more.now ≡ rows_shape rows.old }
    ensures rows { Adds (rows_view rows.old) (rows_view rows.new) (rows_view more.now) result }
    ensures shape { rows_shape rows.new ≡ rows_shape rows.old }
{
    rows.append(more)
}
