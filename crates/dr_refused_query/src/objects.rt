//! Levels of a schema.

ghost use Rattle.std.specs.Prelude.{◌≡◌, IfOk};
ghost use Rattle.dr_nested.specs.SchemaView.{schema_view};
ghost use Rattle.dr_planning.specs.NamedLevels.{joined, levels_view};
ghost use Rattle.dr_meaning.specs.Query as meant;

use dr_memory::NoMemory;
use dr_nested::Schema;
use dr_planning::{Listed, levels_of};
use std::alloc::Global;

/// As `levels_of`.
pub fn levels_below(alloc: Global, schema: &Schema) -> Result<Vec<Listed>, NoMemory>
    ensures { IfOk result (λ v. levels_view v.items ≡ joined (meant.levels_of (schema_view schema.now).fields)) }
{
    levels_of(alloc, schema)
}
