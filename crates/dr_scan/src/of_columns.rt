//! A plan's partial of records whose columns are there as a whole.

ghost use Rattle.std.specs.Prelude.{◌≡◌, [], map, replicate, true, IfOk};
ghost use Rattle.dr_levels.specs.Views.{columns_view, triplets_view};
ghost use Rattle.dr_nested.specs.SchemaView.{schema_view};
ghost use Rattle.dr_plan.specs.Planned.{IsOfSchema, plan_view};
ghost use Rattle.dr_group.specs.Partials.{IsPartialOf, partial_view};
ghost use Rattle.dr_meaning.specs.Schema.{Schema as MeantSchema};
ghost use Rattle.dr_columns.specs.Taken.{HasTaken};
ghost use Rattle.dr_scan.specs.OfColumns.{HaveColumns, IsOfAll};
ghost use Rattle.dr_scan.specs.Wholes.{MayMakeWhole, MakesWhole};

use crate::making::Making;
use crate::paths::steps_of;
use crate::stretch::{Stretch, make_stretch};
use dr_columns::ColumnScan;
use dr_group::Partial;
use dr_levels::{Column, Triplets};
use dr_memory::NoMemory;
use dr_nested::Schema;
use dr_plan::Plan;
use dr_walk::{AssembleFault, LevelWalk};
use dr_within::LastRead;
use std::alloc::Global;

/// By the columns side by side, of which a scan has taken nothing.
///
/// Errors: want of memory, or of room for a count, a sum or a number of a group.
fn partial_side_by_side(
    alloc: Global,
    plan: &Plan,
    mut scan: ColumnScan<'_>,
    columns: &[Column],
    records: u64,
) -> Result<Partial, NoMemory>
    requires scan { (s : MeantSchema) → IsOfSchema s plan.now → HasTaken s plan.now [] scan }
    requires have { (s : MeantSchema) × IsOfSchema s plan.now
        × HaveColumns s plan.now (columns_view columns.now) records }
    ensures partial { IfOk result (λ x. (s : MeantSchema) → IsOfSchema s plan.now
        → IsOfAll s plan.now (columns_view columns.now) records (partial_view x)) }
    ensures of_plan { IfOk result (IsPartialOf (plan_view plan.now)) }
{
    let triplets = triplets_of(alloc, columns)?;
    if scan.take(alloc, &triplets, records as usize)? {
        Ok(scan.close())
    } else {
        // These are the columns of records.
        Err(NoMemory)
    }
}

/// The triplets of columns.
///
/// Errors: want of memory alone.
fn triplets_of<'a>(alloc: Global, columns: &'a [Column]) -> Result<Vec<Triplets<'a>>, NoMemory>
    ensures { IfOk result (λ v. map triplets_view v.items ≡ columns_view columns.now) }
{
    let mut triplets = Vec::with_capacity(alloc, columns.len())?;
    'columns: for column in columns {
        triplets.push(column.triplets())?;
    }
    Ok(triplets)
}

/// That so many columns are at their ends.
///
/// Errors: want of memory alone.
fn all_ended(alloc: Global, columns: usize) -> Result<Vec<bool>, NoMemory>
    ensures { IfOk result (λ v. v.items ≡ replicate columns true) }
{
    let mut ended = Vec::new(alloc);
    ended.resize(columns, true)?;
    Ok(ended)
}

/// Makes of the moves of a walk over the columns, which has given none, what a plan makes of them. Nothing was read of
/// any leaf before.
///
/// Errors: `BadData` where no records have the columns; want of memory, or of room for what is made.
fn make_whole(
    alloc: Global,
    walk: &mut LevelWalk,
    columns: &[Column],
    making: &mut Making<'_>,
    none: &LastRead,
) -> Result<Stretch, AssembleFault>
    requires { MayMakeWhole walk.old (columns_view columns.now) making.old none.now }
    ensures { MakesWhole walk.old (columns_view columns.now) making.old none.now making.new result }
{
    let mut held = triplets_of(alloc, columns)?;
    let rests = held.as_mut_slice();
    let ended = all_ended(alloc, columns.len())?;
    let mut row = none.lend(alloc)?;
    make_stretch(alloc, walk, rests, &ended, making, &mut row)
}

/// By the walk over the columns.
///
/// Errors: want of memory, or of room for what is made.
fn partial_by_walk(
    alloc: Global,
    schema: &Schema,
    plan: &Plan,
    columns: &[Column],
    records: u64,
) -> Result<Partial, NoMemory>
    requires planned { IsOfSchema (schema_view schema.now) plan.now }
    requires have { HaveColumns (schema_view schema.now) plan.now (columns_view columns.now) records }
    ensures partial { IfOk result (λ x. IsOfAll (schema_view schema.now) plan.now
        (columns_view columns.now) records (partial_view x)) }
    ensures of_plan { IfOk result (IsPartialOf (plan_view plan.now)) }
{
    let fields = steps_of(alloc, &plan.leaves)?;
    let mut walk = LevelWalk::start(alloc, schema, &fields, records)?;
    let mut making = Making::start(alloc, schema, plan)?;
    let none = LastRead::new(alloc, plan.leaves.len())?;
    match make_whole(alloc, &mut walk, columns, &mut making, &none) {
        Ok(Stretch::Ended) => making.close(alloc, plan),
        // All columns are at their ends, and are those of records.
        Ok(Stretch::Wants(_)) => Err(NoMemory),
        Err(_) => Err(NoMemory),
    }
}

/// A plan's partial of so many records, by the columns of its leaves: side by side, where it gives groups, else by the
/// walk over them.
///
/// Errors: want of memory, or of room for the partial.
pub fn partial_of_columns(
    alloc: Global,
    schema: &Schema,
    plan: &Plan,
    columns: &[Column],
    records: u64,
) -> Result<Partial, NoMemory>
    requires planned { IsOfSchema (schema_view schema.now) plan.now }
    requires have { HaveColumns (schema_view schema.now) plan.now (columns_view columns.now) records }
    ensures partial { IfOk result (λ x. IsOfAll (schema_view schema.now) plan.now
        (columns_view columns.now) records (partial_view x)) }
    ensures of_plan { IfOk result (IsPartialOf (plan_view plan.now)) }
{
    match ColumnScan::start(alloc, plan)? {
        Some(scan) => partial_side_by_side(alloc, plan, scan, columns, records),
        None => partial_by_walk(alloc, schema, plan, columns, records),
    }
}
