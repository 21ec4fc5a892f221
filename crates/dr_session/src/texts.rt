//! What the lines of a session print.

ghost use Rattle.std.specs.Prelude.{◌≡◌, ◌++◌, string_bytes, IfOk};
ghost use Rattle.dr_meaning.specs.Print.{result_text};
ghost use Rattle.dr_cells.specs.Rows.{rows_view};
ghost use Rattle.dr_sub_meaning.specs.Session.{published_text, at_text};

use dr_cells::RowsOut;
use dr_memory::NoMemory;
use dr_print::result_text;
use std::alloc::Global;

/// The line `published N`.
///
/// Errors: want of memory alone.
pub(crate) fn published_line(alloc: Global, count: u64) -> Result<String, NoMemory>
    ensures { IfOk result (λ s. string_bytes s ≡ published_text count) }
{
    Ok(format!(in alloc; "published {count}\n")?)
}

/// The line `at N`.
///
/// Errors: want of memory alone.
fn at_line(alloc: Global, count: u64) -> Result<String, NoMemory>
    ensures { IfOk result (λ s. string_bytes s ≡ at_text count) }
{
    Ok(format!(in alloc; "at {count}\n")?)
}

/// The objects of a result, and the line that tells on how many tablets it is.
///
/// Errors: want of memory alone.
pub(crate) fn answer_lines(alloc: Global, rows: &RowsOut, count: u64) -> Result<String, NoMemory>
    ensures { IfOk result (λ s. string_bytes s ≡ result_text (rows_view rows.now) ++ at_text count) }
{
    let mut text = result_text(alloc, rows)?;
    let line = at_line(alloc, count)?;
    text.push_str(line.as_str())?;
    Ok(text)
}
