//! The text of a result.

ghost use Rattle.std.specs.Prelude.{◌≡◌, ◌++◌, string_bytes, IfOk, OnOk};
ghost use Rattle.dr_meaning.specs.Print as print;
ghost use Rattle.dr_cells.specs.Rows.{rows_view};

use crate::object_text::push_object;
use crate::quoting::quote_shape;
use dr_cells::RowsOut;
use dr_memory::NoMemory;
use std::alloc::{AllocError, Global};

/// The objects of a result as compact JSON (RFC 8259), one to a line.
///
/// Errors: want of memory alone.
pub fn result_text(alloc: Global, rows: &RowsOut) -> Result<String, NoMemory>
    ensures { IfOk result (λ s. string_bytes s ≡ print.result_text (rows_view rows.now)) }
{
    let mut text = String::new(alloc);
    push_rows(alloc, &mut text, rows)?;
    Ok(text)
}

/// Appends the lines of a result.
fn push_rows(alloc: Global, text: &mut String, rows: &RowsOut) -> Result<(), AllocError>
    ensures { OnOk result (string_bytes text.new ≡ string_bytes text.old ++ print.result_text (rows_view rows.now)) }
{
    let shape = quote_shape(alloc, &rows.shape)?;
    let mut at = 0;
    'rows: for _row in 0..rows.count {
        at = push_object(&shape, alloc, text, &rows.cells, at)?;
        text.push_str("\n")?;
    }
    Ok(())
}
