//! Printed records.

ghost use Rattle.std.specs.Prelude.{◌≡◌, string_bytes, IfOk};
ghost use Rattle.dr_nested.specs.Views.{fields_view, node_view};
ghost use Rattle.dr_meaning.specs.Print as print;

use dr_nested::{NoMemory, Node, Schema};
use dr_print::record_text;
use std::alloc::Global;

/// As `record_text`.
pub fn line_of(alloc: Global, schema: &Schema, node: &Node) -> Result<String, NoMemory>
    ensures { IfOk result (λ s. string_bytes s ≡ print.record_text (fields_view (schema.now).fields.items)
        (node_view node.now)) }
{
    record_text(alloc, schema, node)
}
