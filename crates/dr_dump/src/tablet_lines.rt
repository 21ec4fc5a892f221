//! The lines of the records of a table's tablet.

ghost use Rattle.std.specs.Prelude.{◌≡◌, ◌≤◌, [], ◌∷◌, map, IfOk, IsTrue, string_bytes};
ghost use Rattle.dr_nested.specs.Views.{fields_view};
ghost use Rattle.dr_nested.specs.SchemaView.{schema_view};
ghost use Rattle.dr_nested.specs.PathView.{path_view};
ghost use Rattle.dr_scan.specs.FileRecords.{AreLeavesOf};
ghost use Rattle.dr_scan.specs.Asked.{AsksForTablets};
ghost use Rattle.dr_dump.specs.Printed.{IsPrintedAs, copies_in};

use crate::file_lines::push_file;
use dr_file::FileFault;
use dr_memory::NoMemory;
use dr_nested::Path;
use dr_outside::Link;
use dr_table::{Table, Tried, path_of, placement};
use std::alloc::Global;

/// What became of a tablet: its lines joined the text, or these copies were tried, which is each of them.
#[derive(Drop)]
pub(crate) enum TabletLines {
    Printed,
    Left(Vec<Tried>),
}

/// Appends the lines of the records of a tablet of a table, projected to these leaves of its schema, from the first of
/// its copies that gives them; else answers why each of them gives none. The link is asked for no file but those of the
/// tablet's copies, and, where it tells what it holds, for no bytes of them but what the leaves take.
///
/// Errors: want of memory alone.
pub(crate) fn push_tablet<L: Link>(
    alloc: Global,
    link: &mut L,
    table: &Table,
    fields: &[Path],
    tablet: u32,
    text: &mut String,
) -> Result<TabletLines, NoMemory>
    requires leaves { AreLeavesOf (fields_view (table.now).schema.fields.items) (map path_view fields.now) }
    ensures read { IfOk result (IsPrintedAs (schema_view (table.now).schema) (map path_view fields.now)
        (L.shows link.old) (L.shows link.new) (copies_in table.now tablet) (string_bytes text.old)
        (string_bytes text.new)) }
    ensures asks { AsksForTablets (map path_view fields.now) (copies_in table.now tablet ∷ [])
        (L.shows link.old) (L.shows link.new) }
    ensures same { (L.shows link.new).held ≡ (L.shows link.old).held }
    ensures never_falls { (L.shows link.old).faults ≤ (L.shows link.new).faults }
    ensures stays_steady { IsTrue (L.shows link.old).is_steady → IsTrue (L.shows link.new).is_steady }
{
    let mut tried = Vec::new(alloc);
    'copies: for copy in 0..table.copies {
        let directory = placement(table, tablet, copy);
        let path = path_of(alloc, table, directory, tablet)?;
        match push_file(alloc, link, path.as_str(), &table.schema, fields, text) {
            Ok(()) => return Ok(TabletLines::Printed),
            Err(FileFault::NoMemory) => return Err(NoMemory),
            Err(FileFault::Why(cause)) => tried.push(Tried { directory, cause })?,
        }
    }
    Ok(TabletLines::Left(tried))
}
