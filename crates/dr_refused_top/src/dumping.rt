//! The lines of tables.

ghost use Rattle.std.specs.Prelude.{◌≡◌, ◌≤◌, map, IfOk, IsTrue};
ghost use Rattle.dr_nested.specs.Views.{fields_view};
ghost use Rattle.dr_nested.specs.PathView.{path_view};
ghost use Rattle.dr_table.specs.Views.{table_view};
ghost use Rattle.dr_scan.specs.FileRecords.{AreLeavesOf};
ghost use Rattle.dr_reading.specs.Scan.{tablets_of};
ghost use Rattle.dr_scan.specs.Asked.{AsksForTablets};
ghost use Rattle.dr_dump.specs.Dumps.{LeavesTablets};
ghost use Rattle.dr_dump.specs.Dumps.{AreLinesOf};
ghost use Rattle.dr_dump.specs.Answers.{WhereLines, WhereLeft};

use dr_dump::{Dumped, dump_table};
use dr_memory::NoMemory;
use dr_nested::Path;
use dr_outside::Link;
use dr_table::Table;
use std::alloc::Global;

/// As `dump_table`.
pub fn dumped<L: Link>(
    alloc: Global,
    link: &mut L,
    table: &Table,
    fields: &[Path],
) -> Result<Dumped, NoMemory>
    requires leaves { AreLeavesOf (fields_view (table.now).schema.fields.items) (map path_view fields.now) }
    ensures lines { IfOk result (WhereLines (AreLinesOf (table_view table.now) (map path_view fields.now)
        (L.shows link.old) (L.shows link.new))) }
    ensures left { IfOk result (WhereLeft (λ left. LeavesTablets (table_view table.now) (map path_view fields.now) left
        (L.shows link.old) (L.shows link.new))) }
    ensures asks { AsksForTablets (map path_view fields.now) (tablets_of (table_view table.now))
        (L.shows link.old) (L.shows link.new) }
    ensures same { (L.shows link.new).held ≡ (L.shows link.old).held }
    ensures never_falls { (L.shows link.old).faults ≤ (L.shows link.new).faults }
    ensures stays_steady { IsTrue (L.shows link.old).is_steady → IsTrue (L.shows link.new).is_steady }
{
    dump_table(alloc, link, table, fields)
}
