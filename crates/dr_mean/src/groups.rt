//! The groups of records.

ghost use Rattle.std.specs.Prelude.{◌≡◌, Some, IfOk, OnOk};
ghost use Rattle.dr_nested.specs.Views.{node_view};
ghost use Rattle.dr_plan.specs.Planned.{Planned};
ghost use Rattle.dr_group.specs.Partials.{IsPartialOf, HasTaken};
ghost use Rattle.dr_mean.specs.GroupPuts.{PutsValues, PutsAggregate, PutsAggregates, PutsOfRecord, left_put, record_put, records_put, projection, HaveTypes};

use crate::grouping::Grouping;
use crate::keeping::keep;
use crate::taking::{Taking, put_rows};
use dr_group::Partial;
use dr_memory::NoMemory;
use dr_nested::{Node, project};
use dr_paths::{expression_chain, keys_chain, longer};
use dr_plan::{Aggregate, Expr};
use dr_rows::{Rows, rows_of};
use std::alloc::Global;

/// The number of an aggregate at a place.
///
/// Errors: want of room for the number.
fn number_of(place: usize) -> Result<u32, NoMemory>
    ensures { IfOk result (λ n. n ≡ place) }
{
    let Ok(number) = u32::try_from(place) else {
        return Err(NoMemory);
    };
    Ok(number)
}

/// Puts the values of an expression for the aggregate of a number: those in the rows of the longer of its chain and the
/// keys'.
fn put_values(
    alloc: Global,
    groups: Grouping<'_>,
    number: u32,
    expression: &Expr,
    whole: &Node,
    partial: &mut Partial,
) -> Result<(), NoMemory>
    ensures puts { OnOk result (PutsValues groups.entry number expression.now whole.now partial.old partial.new) }
    ensures of_plan { (p : Planned) → IsPartialOf p partial.old → IsPartialOf p partial.new }
{
    let chain = longer(
        keys_chain(groups.leaves, groups.keys),
        expression_chain(groups.leaves, expression),
    );
    let rows = rows_of(alloc, groups.leaves, chain, whole)?;
    put_rows(
        alloc,
        groups,
        Taking::Value(number, expression),
        &rows,
        partial,
    )
}

/// Puts what the aggregate at a place takes of a record, of which some rows are those of the keys' chain.
fn put_aggregate(
    alloc: Global,
    groups: Grouping<'_>,
    place: usize,
    aggregate: &Aggregate,
    key_rows: &Rows<'_>,
    whole: &Node,
    partial: &mut Partial,
) -> Result<(), NoMemory>
    ensures puts { OnOk result (PutsAggregate groups.entry place aggregate.now key_rows.now whole.now
        partial.old partial.new) }
    ensures of_plan { (p : Planned) → IsPartialOf p partial.old → IsPartialOf p partial.new }
{
    let number = number_of(place)?;
    match aggregate {
        Aggregate::Rows => put_rows(alloc, groups, Taking::Row(number), key_rows, partial),
        Aggregate::Of(_, expression) => {
            put_values(alloc, groups, number, expression, whole, partial)
        }
    }
}

/// Puts what the aggregates take of a record, one after another. Some rows are those of the keys' chain.
fn put_aggregates(
    alloc: Global,
    groups: Grouping<'_>,
    key_rows: &Rows<'_>,
    whole: &Node,
    partial: &mut Partial,
) -> Result<(), NoMemory>
    ensures puts { OnOk result (PutsAggregates groups.entry key_rows.now whole.now partial.old partial.new) }
    ensures of_plan { (p : Planned) → IsPartialOf p partial.old → IsPartialOf p partial.new }
{
    let mut place = 0;
    'aggregates: for aggregate in groups.aggregates {
        put_aggregate(alloc, groups, place, aggregate, key_rows, whole, partial)?;
        place += 1;
    }
    Ok(())
}

/// Puts a record of which all is left: the key tuples of its rows, and what the aggregates take.
fn put_whole(
    alloc: Global,
    groups: Grouping<'_>,
    whole: &Node,
    partial: &mut Partial,
) -> Result<(), NoMemory>
    ensures puts { OnOk result (PutsOfRecord groups.entry (node_view whole.now)
        (left_put groups.entry (Some (node_view whole.now))) partial.old partial.new) }
    ensures of_plan { (p : Planned) → IsPartialOf p partial.old → IsPartialOf p partial.new }
{
    let chain = keys_chain(groups.leaves, groups.keys);
    let rows = rows_of(alloc, groups.leaves, chain, whole)?;
    put_rows(alloc, groups, Taking::Nothing, &rows, partial)?;
    put_aggregates(alloc, groups, &rows, whole, partial)
}

/// Puts what a plan's condition leaves of a record, if anything.
fn put_kept(
    alloc: Global,
    groups: Grouping<'_>,
    whole: &mut Node,
    partial: &mut Partial,
) -> Result<(), NoMemory>
    ensures puts { OnOk result (PutsOfRecord groups.entry (node_view whole.old)
        (record_put groups.entry (node_view whole.old)) partial.old partial.new) }
    ensures of_plan { (p : Planned) → IsPartialOf p partial.old → IsPartialOf p partial.new }
{
    if !keep(alloc, groups.plan, whole)? {
        return Ok(());
    }
    put_whole(alloc, groups, whole, partial)
}

/// Puts what a plan's condition leaves of a record's projection, if anything.
fn put_record(
    alloc: Global,
    groups: Grouping<'_>,
    whole: &Node,
    partial: &mut Partial,
) -> Result<(), NoMemory>
    ensures puts { OnOk result (PutsOfRecord groups.entry (projection groups.entry whole.now)
        (record_put groups.entry (projection groups.entry whole.now)) partial.old partial.new) }
    ensures of_plan { (p : Planned) → IsPartialOf p partial.old → IsPartialOf p partial.new }
{
    let mut projected = project(alloc, groups.leaves, whole)?;
    put_kept(alloc, groups, &mut projected, partial)
}

/// Puts records into the groups of a plan, one after another: the rows that its condition leaves of each.
///
/// Errors: want of memory, or of room for a count, a sum or a number of a group.
pub fn put_records(
    alloc: Global,
    groups: Grouping<'_>,
    records: &[Node],
    partial: &mut Partial,
) -> Result<(), NoMemory>
    ensures puts { OnOk result ((p : Planned) → IsPartialOf p partial.old → HaveTypes groups.entry records.now
        → HasTaken p (records_put groups.entry records.now) partial.old partial.new) }
    ensures of_plan { (p : Planned) → IsPartialOf p partial.old → IsPartialOf p partial.new }
{
    'records: for whole in records {
        put_record(alloc, groups, whole, partial)?;
    }
    Ok(())
}
