//! The result of a query, with those in its FROM.

ghost use Rattle.std.specs.Prelude.{IfOk};
ghost use Rattle.dr_cells.specs.Rows.{rows_view};
ghost use Rattle.dr_group.specs.Partials.{IsPartialOf, partial_view};
ghost use Rattle.dr_nested.specs.SchemaView.{schema_view};
ghost use Rattle.dr_plan.specs.Planned.{plan_view};
ghost use Rattle.dr_stages.specs.Results.{MayBeFinished, IsFinished, IsOfInnermost, IsOutermost};

use crate::through::partial_through;
use dr_cells::RowsOut;
use dr_group::Partial;
use dr_memory::NoMemory;
use dr_nested::Schema;
use dr_ordered::arranged;
use dr_sub::NestedPlan;
use std::alloc::Global;

/// The outermost query's partial, by the innermost one's of all records.
///
/// Errors: want of memory, or of room for what a query makes.
fn outermost_partial(
    alloc: Global,
    schema: &Schema,
    plans: &NestedPlan,
    partial: Partial,
) -> Result<Partial, NoMemory>
    requires stands { MayBeFinished (schema_view schema.now) plans.now (partial_view partial) }
    requires of_plan { IsOfInnermost plans.now partial }
    ensures partial { IfOk result (λ x. IsOutermost (schema_view schema.now) plans.now (partial_view partial)
        (partial_view x)) }
    ensures of_plan { IfOk result (IsPartialOf (plan_view (plans.now).outer)) }
{
    match plans.inner.as_slice() {
        [] => Ok(partial),
        [first, others @ ..] => partial_through(alloc, first, others, &plans.outer, partial),
    }
}

/// The result of a query with those in its FROM, by the innermost query's partial of all records: what the outermost
/// gives, in the order that is asked, and cut.
///
/// Errors: want of memory, or of room: the texts of a result have less than 4 GiB together, and the number of groups is
/// bounded.
pub fn result_of(
    alloc: Global,
    schema: &Schema,
    plans: &NestedPlan,
    partial: Partial,
) -> Result<RowsOut, NoMemory>
    requires stands { MayBeFinished (schema_view schema.now) plans.now (partial_view partial) }
    requires of_plan { IsOfInnermost plans.now partial }
    ensures rows { IfOk result (λ r. IsFinished (schema_view schema.now) plans.now (partial_view partial)
        (rows_view r)) }
{
    let outermost = outermost_partial(alloc, schema, plans, partial)?;
    let rows = outermost.finish(alloc, &plans.outer)?;
    arranged(alloc, rows, plans.order, plans.limit)
}
