//! The leaves of a schema.

ghost use Rattle.std.specs.Prelude.{◌≡◌, ◌≤◌, ◌+◌, ◌++◌, length, map, IfOk, OnOk};
ghost use Rattle.dr_meaning.specs.Schema.{depth, shape_depth, greatest_depth};
ghost use Rattle.dr_meaning.specs.Path.{leaves};
ghost use Rattle.dr_nested.specs.Views.{shape_view, fields_view};
ghost use Rattle.dr_nested.specs.SchemaView.{schema_view};
ghost use Rattle.dr_nested.specs.PathView.{path_view};
ghost use Rattle.dr_paths.specs.Ways.{way_view, fields_leaves, shape_leaves};

use crate::way::Way;
use dr_memory::NoMemory;
use dr_nested::{Field, Path, Schema, Shape, Step};
use std::alloc::Global;

/// The leaves of a schema, in its order.
///
/// Errors: want of memory alone.
pub fn leaf_paths(alloc: Global, schema: &Schema) -> Result<Vec<Path>, NoMemory>
    ensures { IfOk result (λ v. map path_view v.items ≡ leaves (schema_view schema.now).fields) }
{
    let mut paths = Vec::new(alloc);
    push_fields(alloc, &Way::root(alloc), &schema.fields, &mut paths)?;
    Ok(paths)
}

/// Appends the leaves of a group to which this is the way.
#[cycle(leaves)]
fn push_fields(
    alloc: Global,
    way: &Way,
    fields: &Vec<Field>,
    paths: &mut Vec<Path>,
) -> Result<(), NoMemory>
    requires { length (way.now).steps.items + depth (fields_view (fields.now).items) ≤ greatest_depth }
    ensures { OnOk result (map path_view (paths.new).items
        ≡ map path_view (paths.old).items ++ fields_leaves (way_view way.now) (fields_view (fields.now).items) 0) }
{
    'fields: for (place, field) in fields.iter().enumerate() {
        let rep = field.rep;
        let below = way.below(alloc, field.name.as_str(), Step { place, rep })?;
        push_shape(alloc, below, &field.shape, paths)?;
    }
    Ok(())
}

/// Appends the leaves of a field to which this is the way.
#[cycle(leaves)]
fn push_shape(alloc: Global, way: Way, shape: &Shape, paths: &mut Vec<Path>) -> Result<(), NoMemory>
    requires { length way.steps.items + shape_depth (shape_view shape.now) ≤ greatest_depth }
    ensures { OnOk result (map path_view (paths.new).items
        ≡ map path_view (paths.old).items ++ shape_leaves (way_view way) (shape_view shape.now)) }
{
    match shape {
        Shape::Leaf(kind) => {
            paths.push(Path {
                names: way.names,
                steps: way.steps,
                kind: *kind,
            })?;
            Ok(())
        }
        Shape::Group(fields) => push_fields(alloc, &way, fields, paths),
    }
}
