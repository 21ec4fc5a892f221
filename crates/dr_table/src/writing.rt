//! The text of a table.

ghost use Rattle.std.specs.Prelude.{◌≡◌, ◌++◌, map, string_bytes, OnOk, IfOk};
ghost use Rattle.dr_formats.specs.TableFile as meant;
ghost use Rattle.dr_nested.specs.SchemaView.{schema_view};
ghost use Rattle.dr_table.specs.Views.{table_view};
ghost use Rattle.dr_table.specs.Writing.{head_lines, leaf_line_text, leaf_lines_text};

use crate::table::Table;
use dr_memory::NoMemory;
use dr_nested::{Schema, schema_text};
use std::alloc::{AllocError, Global};

/// The text of a table.
///
/// Errors: want of memory alone.
pub fn table_text(alloc: Global, table: &Table) -> Result<String, NoMemory>
    ensures { IfOk result (λ s. string_bytes s ≡ meant.table_text (table_view table.now)) }
{
    table_text_of(
        alloc,
        &table.schema,
        &table.leaves,
        table.copies,
        table.tablets,
    )
}

/// The text of the table with this schema, these directories of leaves, and so many copies and tablets.
///
/// Errors: want of memory alone.
pub fn table_text_of(
    alloc: Global,
    schema: &Schema,
    leaves: &[String],
    copies: u32,
    tablets: u32,
) -> Result<String, NoMemory>
    ensures { IfOk result (λ s. string_bytes s
        ≡ meant.table_text (record {
          schema = schema_view schema.now;
          leaves = map string_bytes leaves.now;
          copies
              = copies;
          tablets = tablets;
        })) }
{
    let schema = schema_text(alloc, schema)?;
    let mut text = String::new(alloc);
    write_head(&mut text, copies, tablets)?;
    write_leaves(&mut text, leaves)?;
    text.push_str("schema\n")?;
    text.push_str(schema.as_str())?;
    Ok(text)
}

/// Appends the lines before the leaves.
fn write_head(text: &mut String, copies: u32, tablets: u32) -> Result<(), AllocError>
    ensures { OnOk result (string_bytes text.new ≡ string_bytes text.old ++ head_lines copies tablets) }
{
    write!(text, "dremel-table 1\ntablets {tablets}\ncopies {copies}\n")
}

/// Appends the leaf lines.
fn write_leaves(text: &mut String, leaves: &[String]) -> Result<(), AllocError>
    ensures { OnOk result (string_bytes text.new
        ≡ string_bytes text.old ++ leaf_lines_text (map string_bytes leaves.now)) }
{
    'leaves: for leaf in leaves {
        write_leaf(text, leaf.as_str())?;
    }
    Ok(())
}

/// Appends a leaf line.
fn write_leaf(text: &mut String, directory: &str) -> Result<(), AllocError>
    ensures { OnOk result (string_bytes text.new ≡ string_bytes text.old ++ leaf_line_text directory.now) }
{
    text.push_str("leaf ")?;
    text.push_str(directory)?;
    text.push_str("\n")
}
