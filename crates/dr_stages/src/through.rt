//! From the partial of a query through those over its result.

ghost use Rattle.std.specs.Prelude.{IfOk};
ghost use Rattle.dr_plan.specs.Planned.{plan_view};
ghost use Rattle.dr_group.specs.Partials.{IsPartialOf, partial_view};
ghost use Rattle.dr_stages.specs.Stages.{MayGoThrough, GoesThrough};

use crate::objects::partial_of_objects;
use dr_group::Partial;
use dr_memory::NoMemory;
use dr_plan::Plan;
use dr_sub::schema_of_result;
use std::alloc::Global;

/// The partial of the outermost of some queries, by that of the first of them, of all records that it reads. Each other
/// one is over what the one before it gives.
///
/// Errors: want of memory, or of room for what a query makes.
pub fn partial_through(
    alloc: Global,
    first: &Plan,
    others: &[Plan],
    outer: &Plan,
    partial: Partial,
) -> Result<Partial, NoMemory>
    requires bound { MayGoThrough first.now others.now outer.now (partial_view partial) }
    ensures partial { IfOk result (λ x. GoesThrough first.now others.now outer.now (partial_view partial)
        (partial_view x)) }
    ensures of_plan { IfOk result (IsPartialOf (plan_view outer.now)) }
{
    let Partial::Lines(rows) = partial else {
        // The first is a record query.
        return Err(NoMemory);
    };
    let schema = schema_of_result(alloc, first)?;
    match others {
        [] => partial_of_objects(alloc, &schema, outer, &rows),
        [next, rest @ ..] => {
            let above = partial_of_objects(alloc, &schema, next, &rows)?;
            partial_through(alloc, next, rest, outer, above)
        }
    }
}
