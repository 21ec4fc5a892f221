//! Binding queries over the results of others.

ghost use Rattle.std.specs.Prelude.{◌≡◌, true, map, Ok, IfOk};
ghost use Rattle.std.specs.List.{slice_get};
ghost use Rattle.dr_meaning.specs.Query as query;
ghost use Rattle.dr_meaning.specs.Schema as tree;
ghost use Rattle.dr_nested.specs.SchemaView.{schema_view};
ghost use Rattle.dr_plan.specs.Planned.{plan_view, planned};
ghost use Rattle.dr_sql.specs.Views.{nested_view, select_view};
ghost use Rattle.dr_sub_meaning.specs.NestedBinding as meant;
ghost use Rattle.dr_sub_meaning.specs.ResultSchemaLaws.{have_items};
ghost use Rattle.dr_sub.specs.NestedPlans.{all_have_items, BindsInner, BindsNested, fault_of_schema, IsBelow};
ghost use Rattle.dr_sub.specs.ResultSchemas.{IsBoundTo};

use crate::fault::{ResultFault, SubFault};
use crate::nested_fault::{NestedFault, NestedProblem};
use crate::nested_plan::NestedPlan;
use crate::ordering::bind_order;
use crate::schema::result_schema;
use dr_bind::bind;
use dr_memory::NoMemory;
use dr_nested::Schema;
use dr_plan::Plan;
use dr_sql::{Nested, Select};
use std::alloc::Global;

/// The place of an item; 0 where there is none.
fn item_place(select: &Select<'_>, item: usize) -> usize
    ensures { result ≡ meant.item_place (slice_get (select_view select.now).query.items item) }
{
    match select.query.items.get(item) {
        Some(item) => item.place,
        None => 0,
    }
}

/// The fault of an inner query that has no result schema.
fn fault_of_result(select: &Select<'_>, fault: ResultFault) -> NestedFault
    ensures { result ≡ fault_of_schema (select_view select.now) fault }
{
    match fault {
        ResultFault::NoMemory => NestedFault::NoMemory,
        ResultFault::Refused(SubFault::NotRecords) => NestedFault::Refused {
            place: select.place,
            problem: NestedProblem::NotRecords,
        },
        ResultFault::Refused(SubFault::ResultName(item)) => NestedFault::Refused {
            place: item_place(select, item),
            problem: NestedProblem::ResultName,
        },
    }
}

/// The schema of what an inner query gives, by its plan.
///
/// Errors: of its order; that it is put in order or cut; that it has no result schema; want of memory.
fn inner_schema(alloc: Global, plan: &Plan, select: &Select<'_>) -> Result<Schema, NestedFault>
    requires bound { (s : tree.Schema) × (q : query.Query) × IsBoundTo s q plan.now }
    ensures inner { (s : tree.Schema) (q : query.Query) → IsBoundTo s q plan.now
        → BindsInner s q (select_view select.now) result }
{
    let _ = bind_order(alloc, plan, &select.order)?;
    if select.order.is_some() || select.limit.is_some() {
        return Err(NestedFault::Refused {
            place: select.place,
            problem: NestedProblem::NotRecords,
        });
    }
    match result_schema(alloc, plan) {
        Ok(schema) => Ok(schema),
        Err(fault) => Err(fault_of_result(select, fault)),
    }
}

/// The plan of the outermost query, with its order and its limit.
fn outermost(alloc: Global, plan: Plan, select: &Select<'_>) -> Result<NestedPlan, NestedFault>
    ensures { (fs : tree.Fields) (q : query.Query) → plan_view plan ≡ planned fs q → BindsNested fs
        (meant.alone (select_view select.now) (Ok q)) result }
{
    let order = bind_order(alloc, &plan, &select.order)?;
    Ok(NestedPlan {
        inner: Vec::new(alloc),
        outer: plan,
        order,
        limit: select.limit,
    })
}

/// The plan of a query below those that were bound over its result.
fn below(plan: Plan, above: NestedPlan) -> Result<NestedPlan, NoMemory>
    ensures { IfOk result (IsBelow plan above) }
{
    let NestedPlan {
        mut inner,
        outer,
        order,
        limit,
    } = above;
    inner.insert(0, plan)?;
    Ok(NestedPlan {
        inner,
        outer,
        order,
        limit,
    })
}

/// The plans of a SELECT over a schema and of those over it, one over another.
fn bind_from(
    alloc: Global,
    schema: &Schema,
    first: &Select<'_>,
    others: &[Select<'_>],
) -> Result<NestedPlan, NestedFault>
    requires items { all_have_items (select_view first.now) (map select_view others.now) ≡ true }
    ensures { BindsNested (schema_view schema.now).fields (meant.bind_from (map select_view others.now)
        (select_view first.now) (schema_view schema.now)) result }
{
    let plan = bind(alloc, schema, &first.query)?;
    match others {
        [] => outermost(alloc, plan, first),
        [next, rest @ ..] => {
            let result = inner_schema(alloc, &plan, first)?;
            let above = bind_from(alloc, &result, next, rest)?;
            Ok(below(plan, above)?)
        }
    }
}

/// The plans of a query over the results of others: of the innermost SELECT over the schema, of each other one over
/// the schema of what the one before it gives.
///
/// Errors: the first fault of a SELECT, as [`bind`] tells it, those of an inner one before those of one over it; that
/// no item of the outermost object has the name by which a result is to go; that an inner SELECT gives no records, or
/// is put in order or cut; that an item of one has a name that no field of its result may have; want of memory.
pub fn bind_nested(
    alloc: Global,
    schema: &Schema,
    query: &Nested<'_>,
) -> Result<NestedPlan, NestedFault>
    requires items { have_items (nested_view query.now) ≡ true }
    ensures { BindsNested (schema_view schema.now).fields (meant.bind_nested (schema_view schema.now)
        (nested_view query.now)) result }
{
    bind_from(alloc, schema, &query.first, &query.others)
}
