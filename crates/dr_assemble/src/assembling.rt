//! The records of columns.

ghost use Rattle.std.specs.Prelude.{◌≡◌, ◌≤◌, ◌<◌, All, List, length, map, true, IfOk, IsErrOf};
ghost use Rattle.dr_walk.specs.declared.fault.AssembleFault.{AssembleFault};
ghost use Rattle.std.specs.List.{list_all};
ghost use Rattle.dr_meaning.specs.Schema.{depth, greatest_depth};
ghost use Rattle.dr_meaning.specs.Path.{is_leaf_path};
ghost use Rattle.dr_meaning.specs.Record as record_tree;
ghost use Rattle.dr_meaning.specs.Record.{project};
ghost use Rattle.dr_nested.specs.Views.{fields_view};
ghost use Rattle.dr_levels.specs.Views.{columns_view};
ghost use Rattle.dr_assemble.specs.Restoring as restoring;
ghost use Rattle.dr_assemble.specs.Assembly.{AreProjections};
ghost use Rattle.dr_assemble.specs.Views.{strips_view, nodes_view, Restores};
ghost use Rattle.dr_nested.specs.PathView.{paths_view};
ghost use Rattle.dr_walk.specs.Walking.{HasColumns, NoneHas};

use crate::judging::judge;
use crate::restoring::restore_node;
use crate::strip::{Strip, copied, cut};
use dr_levels::{Column, schema_order};
use dr_nested::{Field, Node, Path, Schema};
use dr_walk::AssembleFault;
use std::alloc::{AllocError, Global};

/// The fields' paths with their columns, in this order.
pub(crate) fn strips_of<'a>(
    alloc: Global,
    fields: &'a [Path],
    columns: &'a [Column],
    order: &[usize],
) -> Result<Vec<Strip<'a>>, AllocError>
    requires lengths { length fields.now ≡ length columns.now }
    requires within { All (λ i. i < length fields.now) order.now }
    ensures { IfOk result (λ v. strips_view v.items
        ≡ restoring.strips_at order.now (paths_view fields.now) (columns_view columns.now)) }
{
    let mut strips = Vec::with_capacity(alloc, order.len())?;
    'order: for place in order {
        strips.push(Strip {
            rest: fields[*place].steps.as_slice(),
            triplets: columns[*place].triplets(),
        })?;
    }
    Ok(strips)
}

/// So many nodes, each of the first pieces of what the earlier ones left.
fn restore_rows(
    alloc: Global,
    fields: &Vec<Field>,
    strips: &[Strip],
    rows: u64,
) -> Result<Vec<Node>, AssembleFault>
    requires { depth (fields_view (fields.now).items) ≤ greatest_depth }
    ensures { Restores (λ v. nodes_view v.items)
        (restoring.restored_each (restoring.assembled (fields_view (fields.now).items) 0 0 0) 0 rows
        (strips_view strips.now)) result }
{
    let mut nodes = Vec::new(alloc);
    let mut left = copied(alloc, strips)?;
    let mut first = copied(alloc, strips)?;
    'rows: for done in 0..rows {
        cut(&mut left, &mut first, 0);
        nodes.push(restore_node(alloc, fields, &first, 0, 0)?)?;
    }
    Ok(nodes)
}

/// The projections to the leaves of the fields of as many records of the schema as there are rows, which have these
/// columns, one for each field: a walk over the columns judges them, and then the nodes are restored of the columns,
/// the fields in schema order. The time is linear in the triplets and in the nodes' slots.
///
/// Errors: `BadData` exactly where no such records have these columns; want of memory.
pub fn assemble(
    alloc: Global,
    schema: &Schema,
    fields: &[Path],
    columns: &[Column],
    rows: u64,
) -> Result<Vec<Node>, AssembleFault>
    requires { list_all (is_leaf_path (fields_view (schema.now).fields.items)) (paths_view fields.now) ≡ true }
    ensures records { IfOk result (λ v. AreProjections (fields_view (schema.now).fields.items) (paths_view fields.now)
        (columns_view columns.now) rows (nodes_view v.items)) }
    ensures each { (R : List record_tree.Node)
        → HasColumns (fields_view (schema.now).fields.items) (paths_view fields.now) (columns_view columns.now) rows R
        → IfOk result (λ v. nodes_view v.items ≡ map (project (paths_view fields.now)) R) }
    ensures refused { IsErrOf result AssembleFault.BadData
        → NoneHas (fields_view (schema.now).fields.items) (paths_view fields.now) (columns_view columns.now) rows }
{
    if fields.len() != columns.len() {
        return Err(AssembleFault::BadData);
    }
    let order = schema_order(alloc, schema, fields)?;
    let strips = strips_of(alloc, fields, columns, &order)?;
    judge(alloc, schema, &strips, rows)?;
    restore_rows(alloc, &schema.fields, &strips, rows)
}
