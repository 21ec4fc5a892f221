//! The lines of records, of their columns.

ghost use Rattle.std.specs.Prelude.{◌≡◌, ◌≤◌, ◌++◌, map, true, string_bytes, OnOk, IsErrOf};
ghost use Rattle.std.specs.List.{list_all};
ghost use Rattle.dr_meaning.specs.Schema.{depth, greatest_depth};
ghost use Rattle.dr_meaning.specs.Path.{is_leaf_path};
ghost use Rattle.dr_nested.specs.Views.{fields_view};
ghost use Rattle.dr_nested.specs.PathView.{paths_view};
ghost use Rattle.dr_levels.specs.Views.{columns_view};
ghost use Rattle.dr_walk.specs.Walking.{NoneHas};
ghost use Rattle.dr_walk.specs.declared.fault.AssembleFault.{AssembleFault as Fault};
ghost use Rattle.dr_assemble.specs.Lines.{strip_lines, PrintsRecords};
ghost use Rattle.dr_assemble.specs.Views.{strips_view};

use crate::assembling::strips_of;
use crate::judging::judge;
use crate::printing::push_group;
use crate::spare::Spare;
use crate::strip::{Strip, cut};
use dr_levels::{Column, schema_order};
use dr_nested::{Field, Path, Schema};
use dr_walk::AssembleFault;
use std::alloc::{AllocError, Global};

/// Appends so many lines, each of the first pieces of what the earlier ones left.
fn push_rows(
    alloc: Global,
    text: &mut String,
    fields: &Vec<Field>,
    strips: &[Strip],
    rows: u64,
) -> Result<(), AllocError>
    requires { depth (fields_view (fields.now).items) ≤ greatest_depth }
    ensures { OnOk result (string_bytes text.new ≡ string_bytes text.old
        ++ strip_lines (fields_view (fields.now).items) rows (strips_view strips.now)) }
{
    let mut spare = Spare::new(alloc);
    let mut left = spare.copied(strips)?;
    let mut first = spare.copied(strips)?;
    'rows: for done in 0..rows {
        cut(&mut left, &mut first, 0);
        push_group(alloc, text, &mut spare, fields, &first, 0, 0)?;
        text.push_str("\n")?;
    }
    Ok(())
}

/// Appends the lines of as many records of the schema as there are rows, which have these columns, one for each field,
/// projected to the fields: a walk over the columns judges them, and then they are printed as they stand, the fields in
/// schema order. Nothing is made of an instance but its text.
///
/// Errors: `BadData` exactly where no such records have these columns, and the text is then as it was; want of memory.
pub fn push_lines(
    alloc: Global,
    text: &mut String,
    schema: &Schema,
    fields: &[Path],
    columns: &[Column],
    rows: u64,
) -> Result<(), AssembleFault>
    requires { list_all (is_leaf_path (fields_view (schema.now).fields.items)) (paths_view fields.now) ≡ true }
    ensures lines { OnOk result (PrintsRecords (fields_view (schema.now).fields.items) (paths_view fields.now)
        (columns_view columns.now) rows (string_bytes text.old) (string_bytes text.new)) }
    ensures refused { IsErrOf result Fault.BadData → NoneHas (fields_view (schema.now).fields.items)
        (paths_view fields.now) (columns_view columns.now) rows }
    ensures stays { IsErrOf result Fault.BadData → string_bytes text.new ≡ string_bytes text.old }
{
    if fields.len() != columns.len() {
        return Err(AssembleFault::BadData);
    }
    let order = schema_order(alloc, schema, fields)?;
    let strips = strips_of(alloc, fields, columns, &order)?;
    judge(alloc, schema, &strips, rows)?;
    push_rows(alloc, text, &schema.fields, &strips, rows)?;
    Ok(())
}
