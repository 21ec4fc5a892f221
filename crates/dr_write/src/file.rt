//! Files.

ghost use Rattle.std.specs.Prelude.{◌≡◌, List, length, IfOk};
ghost use Rattle.dr_meaning.specs.Record.{Node};
ghost use Rattle.dr_formats.specs.Page.{data_page_v1};
ghost use Rattle.dr_formats.specs.Writing.{file_bytes};
ghost use Rattle.dr_levels.specs.Views.{columns_view};
ghost use Rattle.dr_nested.specs.SchemaView.{schema_view};
ghost use Rattle.dr_page.specs.Views.{page_form_view};
ghost use Rattle.dr_write.specs.Files.{AreColumnsFor, HaveColumns};

use crate::chunks::append_groups;
use crate::counting::count_of;
use crate::footer::{MAGIC, append_footer};
use crate::leaves::schema_leaves;
use dr_levels::Column;
use dr_memory::NoMemory;
use dr_nested::Schema;
use dr_page::PageForm;
use std::alloc::Global;

/// The bytes of the file of so many records of a schema, from the columns that they have at its leaves, in schema
/// order; its pages are V1.
///
/// Errors: want of memory alone.
pub fn write_file(
    alloc: Global,
    schema: &Schema,
    columns: &[Column],
    rows: u64,
) -> Result<Vec<u8>, NoMemory>
    requires columns { AreColumnsFor (schema_view schema.now) columns.now }
    ensures bytes { (R : List Node) → HaveColumns (schema_view schema.now) R (columns_view columns.now) → length R
        ≡ rows → IfOk result (λ b. b.items ≡ file_bytes data_page_v1 (schema_view schema.now) R) }
{
    write_file_as(alloc, PageForm::V1, schema, columns, rows)
}

/// The same with pages of this form.
///
/// Errors: want of memory alone.
pub fn write_file_as(
    alloc: Global,
    form: PageForm,
    schema: &Schema,
    columns: &[Column],
    rows: u64,
) -> Result<Vec<u8>, NoMemory>
    requires columns { AreColumnsFor (schema_view schema.now) columns.now }
    ensures bytes { (R : List Node) → HaveColumns (schema_view schema.now) R (columns_view columns.now) → length R
        ≡ rows → IfOk result (λ b. b.items ≡ file_bytes (page_form_view form) (schema_view schema.now) R) }
{
    let rows = count_of(rows)?;
    let leaves = schema_leaves(alloc, schema)?;
    let mut out = Vec::new(alloc);
    out.extend_from_slice(&MAGIC)?;
    let groups = append_groups(alloc, form, &leaves, columns, rows, &mut out)?;
    append_footer(alloc, schema, rows, groups, &mut out)?;
    Ok(out)
}
