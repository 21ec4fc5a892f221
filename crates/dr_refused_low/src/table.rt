//! Table files.

ghost use Rattle.dr_nested.specs.Faults.{Gives};
ghost use Rattle.dr_table.specs.Faults.{fault_view};
ghost use Rattle.dr_table.specs.Views.{table_view};
ghost use Rattle.dr_formats.specs.TableFile as meant;

use dr_table::{Table, TableFault, parse_table};
use std::alloc::Global;

/// As `parse_table`.
pub fn table_of(alloc: Global, bytes: &[u8]) -> Result<Table, TableFault>
    ensures { Gives table_view fault_view (meant.parse_table bytes.now) result }
{
    parse_table(alloc, bytes)
}
