//! The open part of a file's schema.

ghost use Rattle.std.specs.Prelude.{◌≡◌, map, option_map, option_and_then, IfOk, IsSome};
ghost use Rattle.dr_meta.specs.Views.{item_view};
ghost use Rattle.dr_nested.specs.SchemaView.{schema_view};
ghost use Rattle.dr_formats.specs.FileSchema as file;

use dr_memory::NoMemory;
use dr_meta::SchemaItem;
use dr_nested::Schema;
use dr_open::open_schema;
use std::alloc::Global;

/// As `open_schema`.
pub fn open_part(alloc: Global, items: &[SchemaItem<'_>]) -> Result<Option<Schema>, NoMemory>
    // The elements are one tree, as where `dr_meta::count_leaves` gives a number.
    requires { IsSome (file.file_schema (map item_view items.now)) }
    ensures { IfOk result (λ s. option_map schema_view s ≡ option_and_then file.open_schema
        (file.file_schema (map item_view items.now))) }
{
    open_schema(alloc, items)
}
