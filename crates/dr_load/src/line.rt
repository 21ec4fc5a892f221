//! The line that tells what was loaded.

ghost use Rattle.std.specs.Prelude.{◌≡◌, string_bytes, IfOk};
ghost use Rattle.dr_formats.specs.Reports.{loaded_text};

use dr_memory::NoMemory;
use std::alloc::Global;

/// The line `loaded N records into N tablets`.
///
/// Errors: want of memory alone.
pub fn loaded_line(alloc: Global, records: u64, tablets: u32) -> Result<String, NoMemory>
    ensures { IfOk result (λ s. string_bytes s ≡ loaded_text records tablets) }
{
    Ok(format!(in alloc; "loaded {records} records into {tablets} tablets\n")?)
}
