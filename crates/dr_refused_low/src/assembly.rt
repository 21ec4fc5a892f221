//! Columns put together as records.

ghost use Rattle.std.specs.Prelude.{◌≡◌, List, map, true, IfOk, IsErrOf};
ghost use Rattle.dr_walk.specs.declared.fault.AssembleFault.{AssembleFault};
ghost use Rattle.std.specs.List.{list_all};
ghost use Rattle.dr_meaning.specs.Path.{is_leaf_path};
ghost use Rattle.dr_meaning.specs.Record.{project};
ghost use Rattle.dr_nested.specs.Views.{fields_view};
ghost use Rattle.dr_levels.specs.Views.{columns_view};
ghost use Rattle.dr_assemble.specs.Assembly.{AreProjections};
ghost use Rattle.dr_assemble.specs.Views.{nodes_view};
ghost use Rattle.dr_meaning.specs.Record as record_tree;
ghost use Rattle.dr_nested.specs.PathView.{paths_view};
ghost use Rattle.dr_walk.specs.Walking.{HasColumns, NoneHas};

use dr_assemble::{AssembleFault, assemble};
use dr_levels::Column;
use dr_nested::{Node, Path, Schema};
use std::alloc::Global;

/// As `assemble`.
pub fn nodes_of(
    alloc: Global,
    schema: &Schema,
    fields: &[Path],
    columns: &[Column],
    rows: u64,
) -> Result<Vec<Node>, AssembleFault>
    requires { list_all (is_leaf_path (fields_view (schema.now).fields.items)) (paths_view fields.now) ≡ true }
    ensures records { IfOk result (λ v. AreProjections (fields_view (schema.now).fields.items) (paths_view fields.now)
        (columns_view columns.now) rows (nodes_view v.items)) }
    ensures each { (R : List record_tree.Node) → HasColumns (fields_view (schema.now).fields.items)
        (paths_view fields.now) (columns_view columns.now) rows R
        → IfOk result (λ v. nodes_view v.items ≡ map (project (paths_view fields.now)) R) }
    ensures refused { IsErrOf result AssembleFault.BadData
        → NoneHas (fields_view (schema.now).fields.items) (paths_view fields.now) (columns_view columns.now) rows }
{
    assemble(alloc, schema, fields, columns, rows)
}
