//! Dumping a table.

ghost use Rattle.std.specs.Prelude.{◌≡◌, ◌≤◌, [], map, IfOk, OnOk, IsTrue, string_bytes};
ghost use Rattle.dr_nested.specs.Views.{fields_view};
ghost use Rattle.dr_nested.specs.PathView.{path_view};
ghost use Rattle.dr_table.specs.Views.{table_view};
ghost use Rattle.dr_reading.specs.Scan.{tablets_of};
ghost use Rattle.dr_scan.specs.Asked.{AsksForTablets};
ghost use Rattle.dr_scan.specs.FileRecords.{AreLeavesOf};
ghost use Rattle.dr_table.specs.LeftViews.{all_left_view};
ghost use Rattle.dr_dump.specs.Dumps.{LeavesTablets};
ghost use Rattle.dr_dump.specs.Dumps.{AreLinesOf};
ghost use Rattle.dr_dump.specs.Answers.{WhereLines, WhereLeft};
ghost use Rattle.dr_dump.specs.Printed.{with_lines};

use crate::tablet_lines::{TabletLines, push_tablet};
use dr_memory::NoMemory;
use dr_nested::Path;
use dr_outside::Link;
use dr_table::{LeftTablet, Table};
use std::alloc::Global;

/// What is read of a table: the lines of its records, or the tablets that are left.
#[derive(PartialEq, Eq, Drop)]
pub enum Dumped {
    /// The lines of all records, each ended by LF.
    Lines(String),
    /// The tablets of which no copy gives records, in their order; never none.
    Left(Vec<LeftTablet>),
}

/// Keeps what became of a tablet: it joins those that are left, or its lines are in the text already.
///
/// Errors: want of memory alone.
fn keep(left: &mut Vec<LeftTablet>, tablet: u32, lines: TabletLines) -> Result<(), NoMemory>
    ensures { OnOk result (all_left_view (left.new).items ≡ with_lines tablet lines (all_left_view (left.old).items)) }
{
    match lines {
        TabletLines::Printed => {}
        TabletLines::Left(tried) => left.push(LeftTablet { tablet, tried })?,
    }
    Ok(())
}

/// Where a tablet is left, nothing is printed.
fn clear_where_left(left: &[LeftTablet], text: &mut String)
    ensures { left.now ≡ [] → string_bytes text.new ≡ string_bytes text.old }
{
    if !left.is_empty() {
        text.clear();
    }
}

/// The lines of the records of a table, projected to these leaves of its schema, in the order of the tablets; or the
/// tablets that are left, of which no copy gives records. The link is asked for no file but those of the table, and,
/// where it tells what it holds, for no bytes of them but what the leaves take.
///
/// Errors: want of memory alone.
pub fn dump_table<L: Link>(
    alloc: Global,
    link: &mut L,
    table: &Table,
    fields: &[Path],
) -> Result<Dumped, NoMemory>
    requires leaves { AreLeavesOf (fields_view (table.now).schema.fields.items) (map path_view fields.now) }
    ensures lines { IfOk result (WhereLines (AreLinesOf (table_view table.now) (map path_view fields.now)
        (L.shows link.old) (L.shows link.new))) }
    ensures left { IfOk result (WhereLeft (λ left. LeavesTablets (table_view table.now) (map path_view fields.now) left
        (L.shows link.old) (L.shows link.new))) }
    ensures asks { AsksForTablets (map path_view fields.now) (tablets_of (table_view table.now)) (L.shows link.old)
        (L.shows link.new) }
    ensures same { (L.shows link.new).held ≡ (L.shows link.old).held }
    ensures never_falls { (L.shows link.old).faults ≤ (L.shows link.new).faults }
    ensures stays_steady { IsTrue (L.shows link.old).is_steady → IsTrue (L.shows link.new).is_steady }
{
    let mut left = Vec::new(alloc);
    let mut text = String::new(alloc);
    'tablets: for tablet in 0..table.tablets {
        let lines = push_tablet(alloc, link, table, fields, tablet, &mut text)?;
        keep(&mut left, tablet, lines)?;
        clear_where_left(&left, &mut text);
    }
    if left.is_empty() {
        Ok(Dumped::Lines(text))
    } else {
        Ok(Dumped::Left(left))
    }
}
