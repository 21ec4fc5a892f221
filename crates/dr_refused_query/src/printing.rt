//! Printed rows.

ghost use Rattle.std.specs.Prelude.{◌≡◌, string_bytes, IfOk};
ghost use Rattle.dr_cells.specs.Rows.{rows_view};
ghost use Rattle.dr_meaning.specs.Print as print;

use dr_cells::RowsOut;
use dr_memory::NoMemory;
use dr_print::result_text;
use std::alloc::Global;

/// As `result_text`.
pub fn text_of(alloc: Global, rows: &RowsOut) -> Result<String, NoMemory>
    ensures { IfOk result (λ s. string_bytes s ≡ print.result_text (rows_view rows.now)) }
{
    result_text(alloc, rows)
}
