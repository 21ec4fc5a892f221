//! The table of a text.

ghost use Rattle.std.specs.Prelude.{◌<◌, ◌≤◌, [], map, length, string_bytes, Result};
ghost use Rattle.dr_nested.specs.Faults.{Gives};
ghost use Rattle.dr_formats.specs.TableFile as meant;
ghost use Rattle.dr_table.specs.Faults.{fault_view};
ghost use Rattle.dr_table.specs.Views.{table_view};
ghost use Rattle.dr_table.specs.Parsing.{at_last_line, from_copies, from_leaves, from_schema, from_tablets};
ghost use Rattle.dr_table.specs.Parsing.{is_schema_line};

use crate::fault::{TableFault, TableProblem};
use crate::limits::{LONGEST_TABLE, MOST_LEAF_LINES, MOST_TABLETS};
use crate::line::{cut_line, leaf_directory, number_behind};
use crate::table::Table;
use std::alloc::Global;

/// The first line.
const HEAD: &str = "dremel-table 1";

/// What stands before the number of tablets.
const TABLETS: &str = "tablets ";

/// What stands before the number of copies.
const COPIES: &str = "copies ";

/// The line behind the leaf lines.
const SCHEMA: &str = "schema";

/// The table of a file: the lines `dremel-table 1`, `tablets N`, `copies N`, a line `leaf DIR` for each leaf, the line
/// `schema`, and the text of a schema.
///
/// Errors: the text's first problem; want of memory.
pub fn parse_table(alloc: Global, bytes: &[u8]) -> Result<Table, TableFault>
    ensures { Gives table_view fault_view (meant.parse_table bytes.now) result }
{
    if bytes.len() > LONGEST_TABLE {
        return Err(TableFault::Refused(TableProblem::TooLong));
    }
    match str::from_utf8(bytes) {
        Ok(text) => read_head(alloc, text),
        Err(_) => Err(TableFault::Refused(TableProblem::Head)),
    }
}

/// The table from the first line on.
fn read_head(alloc: Global, text: &str) -> Result<Table, TableFault>
    ensures { Gives table_view fault_view (meant.outcome (meant.table_lines text.now)) result }
{
    match cut_line(text) {
        Some((line, behind)) if line == HEAD => read_tablets(alloc, behind),
        _ => Err(TableFault::Refused(TableProblem::Head)),
    }
}

/// The table from the second line on.
fn read_tablets(alloc: Global, text: &str) -> Result<Table, TableFault>
    ensures { Gives table_view fault_view (meant.outcome (from_tablets text.now)) result }
{
    let Some((line, behind)) = cut_line(text) else {
        return Err(TableFault::Refused(TableProblem::Tablets));
    };
    match number_behind(line, TABLETS, MOST_TABLETS) {
        Some(tablets) => read_copies(alloc, behind, tablets),
        None => Err(TableFault::Refused(TableProblem::Tablets)),
    }
}

/// The table of so many tablets from the third line on.
fn read_copies(alloc: Global, text: &str, tablets: u32) -> Result<Table, TableFault>
    requires has_tablet { 0 < tablets }
    requires few_tablets { tablets ≤ 4096 }
    ensures { Gives table_view fault_view (meant.outcome (from_copies tablets text.now)) result }
{
    let Some((line, behind)) = cut_line(text) else {
        return Err(TableFault::Refused(TableProblem::Copies));
    };
    match number_behind(line, COPIES, MOST_LEAF_LINES) {
        Some(copies) => read_leaves(alloc, behind, tablets, copies),
        None => Err(TableFault::Refused(TableProblem::Copies)),
    }
}

/// The table of so many tablets and copies from the leaf lines on.
fn read_leaves(alloc: Global, text: &str, tablets: u32, copies: u32) -> Result<Table, TableFault>
    requires has_tablet { 0 < tablets }
    requires few_tablets { tablets ≤ 4096 }
    requires has_copy { 0 < copies }
    ensures { Gives table_view fault_view (meant.outcome
        (from_leaves meant.most_leaf_lines tablets copies [] text.now)) result }
{
    let mut leaves = Vec::new(alloc);
    let mut rest = text;
    'leaves: for _ in 0..MOST_LEAF_LINES {
        let Some((line, behind)) = cut_line(rest) else {
            return Err(TableFault::Refused(TableProblem::Leaf(leaves.len())));
        };
        let Some(directory) = leaf_directory(line) else {
            return read_schema_line(alloc, line, behind, leaves, tablets, copies);
        };
        leaves.push(String::from_str(alloc, directory)?)?;
        rest = behind;
    }
    match cut_line(rest) {
        Some((line, behind)) => read_schema_line(alloc, line, behind, leaves, tablets, copies),
        None => Err(TableFault::Refused(TableProblem::Leaf(leaves.len()))),
    }
}

/// The table with these leaves, at a line that is no leaf line or may not be one.
fn read_schema_line(
    alloc: Global,
    line: &str,
    behind: &str,
    leaves: Vec<String>,
    tablets: u32,
    copies: u32,
) -> Result<Table, TableFault>
    requires has_tablet { 0 < tablets }
    requires few_tablets { tablets ≤ 4096 }
    requires has_copy { 0 < copies }
    requires few_leaves { length leaves.items ≤ 64 }
    ensures { Gives table_view fault_view (at_last_line tablets copies (map string_bytes leaves.items) behind.now
        (is_schema_line (map string_bytes leaves.items) line.now)) result }
{
    if leaves.is_empty() || line != SCHEMA {
        return Err(TableFault::Refused(TableProblem::Leaf(leaves.len())));
    }
    read_schema(alloc, behind, leaves, tablets, copies)
}

/// The table with these leaves from the schema's text on.
fn read_schema(
    alloc: Global,
    text: &str,
    leaves: Vec<String>,
    tablets: u32,
    copies: u32,
) -> Result<Table, TableFault>
    requires has_tablet { 0 < tablets }
    requires few_tablets { tablets ≤ 4096 }
    requires has_copy { 0 < copies }
    requires has_leaf { 0 < length leaves.items }
    requires few_leaves { length leaves.items ≤ 64 }
    ensures { Gives table_view fault_view (meant.outcome
        (from_schema tablets copies (map string_bytes leaves.items) text.now)) result }
{
    if copies as usize > leaves.len() {
        return Err(TableFault::Refused(TableProblem::Copies));
    }
    match dr_nested::parse_schema(alloc, text.as_bytes()) {
        Ok(schema) => Ok(Table {
            schema,
            leaves,
            copies,
            tablets,
        }),
        Err(fault) => Err(fault.into()),
    }
}
