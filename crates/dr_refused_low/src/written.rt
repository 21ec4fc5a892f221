//! Files that are written.

ghost use Rattle.std.specs.Prelude.{◌≡◌, List, length, IfOk};
ghost use Rattle.dr_meaning.specs.Record.{Node};
ghost use Rattle.dr_formats.specs.Writing.{file_bytes};
ghost use Rattle.dr_levels.specs.Views.{columns_view};
ghost use Rattle.dr_nested.specs.SchemaView.{schema_view};
ghost use Rattle.dr_page.specs.Views.{page_form_view};
ghost use Rattle.dr_write.specs.Files.{AreColumnsFor, HaveColumns};

use dr_levels::Column;
use dr_memory::NoMemory;
use dr_nested::Schema;
use dr_page::PageForm;
use dr_write::write_file_as;
use std::alloc::Global;

/// As `write_file_as`.
pub fn file_of(
    alloc: Global,
    form: PageForm,
    schema: &Schema,
    columns: &[Column],
    rows: u64,
) -> Result<Vec<u8>, NoMemory>
    requires columns { AreColumnsFor (schema_view schema.now) columns.now }
    ensures bytes { (R : List Node) → HaveColumns (schema_view schema.now) R (columns_view columns.now)
        → length R ≡ rows
        → IfOk result (λ b. b.items ≡ file_bytes (page_form_view form) (schema_view schema.now) R) }
{
    write_file_as(alloc, form, schema, columns, rows)
}
