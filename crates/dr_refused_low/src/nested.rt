//! Schemas and projections.

ghost use Rattle.dr_nested.specs.SchemaView.{schema_view};
ghost use Rattle.dr_nested.specs.Faults.{Gives, schema_fault_view};
ghost use Rattle.std.specs.Prelude.{◌≡◌, map, IfOk};
ghost use Rattle.dr_nested.specs.Views.{node_view};
ghost use Rattle.dr_nested.specs.PathView.{path_view};
ghost use Rattle.dr_meaning.specs.SchemaText as text_meaning;
ghost use Rattle.dr_meaning.specs.Record as record_tree;

use dr_memory::NoMemory;
use dr_nested::{Node, Path, Schema, SchemaFault, parse_schema, project};
use std::alloc::Global;

/// As `parse_schema`.
pub fn schema_of_text(alloc: Global, text: &[u8]) -> Result<Schema, SchemaFault>
    ensures { Gives schema_view schema_fault_view (text_meaning.parse_schema text.now) result }
{
    parse_schema(alloc, text)
}

/// As `project`.
pub fn projection(alloc: Global, fields: &[Path], node: &Node) -> Result<Node, NoMemory>
    ensures { IfOk result (λ n. node_view n ≡ record_tree.project (map (λ (p : Path). (path_view p).path) fields.now)
        (node_view node.now)) }
{
    project(alloc, fields, node)
}
