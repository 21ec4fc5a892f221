//! The objects of a record query's result.

ghost use Rattle.std.specs.Prelude.{◌≡◌, ◌∷◌, [], length, is_some, if◌then◌else◌, IfOk, OnOk};
ghost use Rattle.dr_meaning.specs.Query.{meaning};
ghost use Rattle.dr_nested.specs.Views.{node_view};
ghost use Rattle.dr_plan.specs.declared.plan.Plan.{Plan as MeantPlan};
ghost use Rattle.dr_plan.specs.Planned.{plan_view};
ghost use Rattle.dr_cells.specs.Rows.{rows_shape, rows_view};
ghost use Rattle.dr_cells.specs.Shapes.{plan_shape};
ghost use Rattle.dr_plan.specs.declared.plan.Selection.TheVariants.{Objects};
ghost use Rattle.dr_mean.specs.Answers.{Answers};
ghost use Rattle.dr_mean.specs.Lines.{plan_kept, SelectsObject, left_cells, record_left, records_left, objects_left, SelectsRecords};
ghost use Rattle.dr_mean.specs.ObjectCells.{CellsJoin};

use crate::items::Items;
use crate::keeping::keep;
use crate::objects::push_object;
use dr_cells::{Cells, RowsOut, shape_of};
use dr_memory::NoMemory;
use dr_nested::{Node, project};
use dr_plan::{ObjectPlan, Plan, RecordItem};
use dr_rows::rows_of;
use std::alloc::Global;

/// Appends the object of a record.
fn push_whole(
    alloc: Global,
    items: Items<'_>,
    object: &ObjectPlan,
    whole: &Node,
    cells: &mut Cells,
) -> Result<(), NoMemory>
    ensures { OnOk result ((plan : MeantPlan) → SelectsObject plan items.entry object.now (node_view whole.now ∷ [])
        → CellsJoin (left_cells items.entry object.now (Some (node_view whole.now))) cells.old cells.new) }
{
    let rows = rows_of(alloc, items.leaves, &[], whole)?;
    push_object(alloc, items, object, 0, rows.row(0), cells)
}

/// Appends the object of what a plan's condition leaves of a record. Tells whether anything is left.
fn push_kept(
    alloc: Global,
    plan: &Plan,
    items: Items<'_>,
    object: &ObjectPlan,
    whole: &mut Node,
    cells: &mut Cells,
) -> Result<bool, NoMemory>
    ensures kept { IfOk result (λ b. SelectsObject plan.now items.entry object.now (node_view whole.old ∷ [])
        → b ≡ is_some (plan_kept plan.now (node_view whole.old))) }
    ensures cells { OnOk result (SelectsObject plan.now items.entry object.now (node_view whole.old ∷ [])
        → CellsJoin (left_cells items.entry object.now (plan_kept plan.now (node_view whole.old)))
        cells.old cells.new) }
{
    if !keep(alloc, plan, whole)? {
        return Ok(false);
    }
    push_whole(alloc, items, object, whole, cells)?;
    Ok(true)
}

/// Appends the object of what a plan's condition leaves of a record's projection. Tells whether anything is left.
fn push_record(
    alloc: Global,
    plan: &Plan,
    items: Items<'_>,
    object: &ObjectPlan,
    whole: &Node,
    cells: &mut Cells,
) -> Result<bool, NoMemory>
    ensures kept { IfOk result (λ b. SelectsRecords plan.now items.entry object.now (whole.now ∷ [])
        → b ≡ is_some (record_left plan.now whole.now)) }
    ensures cells { OnOk result (SelectsRecords plan.now items.entry object.now (whole.now ∷ [])
        → CellsJoin (left_cells items.entry object.now (record_left plan.now whole.now)) cells.old cells.new) }
{
    let mut projected = project(alloc, &plan.leaves, whole)?;
    push_kept(alloc, plan, items, object, &mut projected, cells)
}

/// How many records are left of one.
fn count_one(kept: bool) -> u64
    ensures { result ≡ (if kept then 1 else 0) }
{
    if kept { 1 } else { 0 }
}

/// Appends the objects of what a plan's condition leaves of records, in order. Returns how many they are.
fn push_records(
    alloc: Global,
    plan: &Plan,
    items: Items<'_>,
    object: &ObjectPlan,
    records: &[Node],
    cells: &mut Cells,
) -> Result<u64, NoMemory>
    ensures count { IfOk result (λ n. SelectsRecords plan.now items.entry object.now records.now
        → n ≡ length (records_left plan.now records.now)) }
    ensures cells { OnOk result (SelectsRecords plan.now items.entry object.now records.now
        → CellsJoin (objects_left plan.now items.entry object.now records.now) cells.old cells.new) }
{
    let mut count = 0;
    'records: for whole in records {
        let kept = push_record(alloc, plan, items, object, whole, cells)?;
        count += count_one(kept);
    }
    Ok(count)
}

/// The result of a record query on records: the object of what the condition leaves of each, in order. The records are
/// of the schema to which the plan is bound, or projections of such records to the plan's leaves; the items and the
/// object are the plan's.
///
/// Errors: want of memory, or of room: the texts of a result have less than 4 GiB together.
pub fn mean_objects(
    alloc: Global,
    plan: &Plan,
    items: &Vec<RecordItem>,
    object: &ObjectPlan,
    records: &[Node],
) -> Result<RowsOut, NoMemory>
    requires selection { (plan.now).selection ≡ Objects items.now object.now }
    requires answers { Answers plan.now records.now }
    ensures rows { IfOk result (λ r. (a : Answers plan.now records.now) → rows_view r
        ≡ meaning a.schema.fields a.bound a.records) }
    ensures shape { IfOk result (λ r. rows_shape r ≡ plan_shape (plan_view plan.now)) }
{
    let shape = shape_of(alloc, plan)?;
    let items = Items {
        leaves: &plan.leaves,
        items,
    };
    let mut cells = Cells::new(alloc);
    let count = push_records(alloc, plan, items, object, records, &mut cells)?;
    Ok(RowsOut::of(shape, cells, count))
}
