//! The meaning of a plan on records.

ghost use Rattle.std.specs.Prelude.{◌≡◌, IfOk};
ghost use Rattle.dr_meaning.specs.Query.{meaning};
ghost use Rattle.dr_partials.specs.Partials as partials;
ghost use Rattle.dr_plan.specs.Planned.{plan_view, planned_query};
ghost use Rattle.dr_plan.specs.declared.plan.Selection.{Selection as Selected};
ghost use Rattle.dr_cells.specs.Rows.{rows_shape, rows_view};
ghost use Rattle.dr_cells.specs.Shapes.{plan_shape};
ghost use Rattle.dr_group.specs.Partials.{partial_view, IsPartialOf};
ghost use Rattle.dr_mean.specs.Answers.{Answers};

use crate::grouping::Grouping;
use crate::groups::put_records;
use crate::lines::mean_objects;
use dr_cells::RowsOut;
use dr_group::Partial;
use dr_memory::NoMemory;
use dr_nested::Node;
use dr_plan::{Aggregate, GroupItem, Plan, Selection};
use std::alloc::Global;

/// The groups of an aggregate query on records.
fn groups_of(
    alloc: Global,
    plan: &Plan,
    keys: &Vec<u32>,
    aggregates: &Vec<Aggregate>,
    items: &Vec<GroupItem>,
    records: &[Node],
) -> Result<Partial, NoMemory>
    requires selection { (plan.now).selection ≡ Selected.Groups keys.now aggregates.now items.now }
    requires answers { Answers plan.now records.now }
    ensures partial { IfOk result (λ p. (a : Answers plan.now records.now) → partial_view p
        ≡ partials.partial_of a.schema.fields (planned_query (plan_view plan.now)) a.records) }
    ensures of_plan { IfOk result (λ p. IsPartialOf (plan_view plan.now) p) }
{
    let groups = Grouping {
        plan,
        leaves: &plan.leaves,
        keys,
        aggregates,
    };
    let mut partial = Partial::empty(alloc, plan)?;
    put_records(alloc, groups, records, &mut partial)?;
    Ok(partial)
}

/// A plan's partial of records: the lines of a record query, or the groups of an aggregate query. The records are of
/// the schema to which the plan is bound, or projections of such records to the plan's leaves.
///
/// Errors: want of memory, or of room: the texts of lines have less than 4 GiB together, and a count, a sum and the
/// number of groups are bounded.
pub fn partial_of(alloc: Global, plan: &Plan, records: &[Node]) -> Result<Partial, NoMemory>
    requires answers { Answers plan.now records.now }
    ensures partial { IfOk result (λ p. (a : Answers plan.now records.now) → partial_view p
        ≡ partials.partial_of a.schema.fields (planned_query (plan_view plan.now)) a.records) }
    ensures of_plan { IfOk result (λ p. IsPartialOf (plan_view plan.now) p) }
{
    match &plan.selection {
        Selection::Objects(items, object) => {
            let lines = mean_objects(alloc, plan, items, object, records)?;
            Ok(Partial::Lines(lines))
        }
        Selection::Groups(keys, aggregates, items) => {
            groups_of(alloc, plan, keys, aggregates, items, records)
        }
    }
}

/// What a plan means on records: the result of its query. The records are of the schema to which the plan is bound, or
/// projections of such records to the plan's leaves.
///
/// Errors: want of memory, or of room: the texts of a result have less than 4 GiB together, and a count, a sum and the
/// number of groups are bounded.
pub fn mean(alloc: Global, plan: &Plan, records: &[Node]) -> Result<RowsOut, NoMemory>
    requires answers { Answers plan.now records.now }
    ensures rows { IfOk result (λ r. (a : Answers plan.now records.now) → rows_view r
        ≡ meaning a.schema.fields a.bound a.records) }
    ensures shape { IfOk result (λ r. rows_shape r ≡ plan_shape (plan_view plan.now)) }
{
    partial_of(alloc, plan, records)?.finish(alloc, plan)
}
