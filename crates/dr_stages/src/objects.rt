//! A plan's partial of the objects of a result.

ghost use Rattle.std.specs.Prelude.{◌≡◌, List, map, true, IfOk};
ghost use Rattle.std.specs.List.{list_all};
ghost use Rattle.dr_meaning.specs.Column.{column};
ghost use Rattle.dr_meaning.specs.Path.{Step, paths_of_leaves};
ghost use Rattle.dr_meaning.specs.Record.{is_record};
ghost use Rattle.dr_partials.specs.Partials.{partial_of};
ghost use Rattle.dr_levels.specs.Views.{columns_view};
ghost use Rattle.dr_nested.specs.SchemaView.{schema_view};
ghost use Rattle.dr_plan.specs.Planned.{IsOfSchema, plan_leaves, plan_view, planned_query};
ghost use Rattle.dr_cells.specs.Rows.{rows_view};
ghost use Rattle.dr_group.specs.Partials.{IsPartialOf, partial_view};
ghost use Rattle.dr_striper.specs.Leaves.{OfSomeSchema};
ghost use Rattle.dr_sub.specs.Striping.{fit_leaves};
ghost use Rattle.dr_sub_meaning.specs.ResultRecords.{records_of};

use dr_cells::RowsOut;
use dr_group::Partial;
use dr_levels::Column;
use dr_memory::NoMemory;
use dr_nested::Schema;
use dr_plan::Plan;
use dr_scan::partial_of_columns;
use dr_striper::Striper;
use dr_sub::stripe_objects;
use std::alloc::Global;

/// The columns of a plan's leaves of the objects of a result, as records.
///
/// Errors: want of memory, or of room for texts.
fn columns_of_objects(alloc: Global, plan: &Plan, rows: &RowsOut) -> Result<Vec<Column>, NoMemory>
    requires leaves { OfSomeSchema (plan_leaves plan.now) }
    requires fits { fit_leaves (plan_leaves plan.now) (records_of (rows_view rows.now)) ≡ true }
    ensures { IfOk result (λ cs. columns_view cs.items
        ≡ map (λ (p : List Step). column p (records_of (rows_view rows.now)))
        (paths_of_leaves (plan_leaves plan.now))) }
{
    let mut striper = Striper::new(alloc, &plan.leaves)?;
    stripe_objects(&rows.shape, &rows.cells, rows.count, &mut striper)?;
    striper.finish(alloc)
}

/// A plan's partial of the objects of a result, as records of the result's schema. No record is made: the objects are
/// striped as they lie.
///
/// Errors: want of memory, or of room for the columns or the partial.
pub fn partial_of_objects(
    alloc: Global,
    schema: &Schema,
    plan: &Plan,
    rows: &RowsOut,
) -> Result<Partial, NoMemory>
    requires planned { IsOfSchema (schema_view schema.now) plan.now }
    requires records { list_all (is_record (schema_view schema.now).fields) (records_of (rows_view rows.now)) ≡ true }
    ensures partial { IfOk result (λ x. partial_view x ≡ partial_of (schema_view schema.now).fields
        (planned_query (plan_view plan.now)) (records_of (rows_view rows.now))) }
    ensures of_plan { IfOk result (IsPartialOf (plan_view plan.now)) }
{
    let columns = columns_of_objects(alloc, plan, rows)?;
    partial_of_columns(alloc, schema, plan, &columns, rows.count)
}
