//! The scan of a plan of objects.

ghost use Rattle.std.specs.Prelude.{◌≡◌, ◌<◌, ◌++◌, ◌∷◌, [], ℕ, List, true, IfOk, OnOk, OnErr, IsErr};
ghost use Rattle.std.specs.List.{list_all};
ghost use Rattle.dr_levels.specs.Views.{move_view};
ghost use Rattle.dr_nested.specs.SchemaView.{schema_view};
ghost use Rattle.dr_meaning.specs.Record.{Node, is_record};
ghost use Rattle.dr_meaning.specs.Schema.{Schema as MeantSchema};
ghost use Rattle.dr_meaning.specs.Walk.{Move as MeantMove};
ghost use Rattle.dr_plan.specs.Planned.{IsOfSchema, plan_view};
ghost use Rattle.dr_plan.specs.declared.plan.Plan.{Plan as MeantPlan};
ghost use Rattle.dr_plan.specs.declared.plan.Selection.{Selection as Selected};
ghost use Rattle.dr_group.specs.Partials.{IsPartialOf, IsOfRecords};
ghost use Rattle.dr_condition.specs.Conditions.{watch_in, HasWatched};
ghost use Rattle.dr_condition.specs.PlanConditions.{WatchesPlan};
ghost use Rattle.dr_within.specs.Rows.{HasRead, IsOfLeaf, plan_walk};
ghost use Rattle.dr_within.specs.ObjectScanning.{ScansObjects, BeginsObjects, HasScannedAll, open_in_objects, failed_in_objects, ScansNextObjects};

use crate::failed::unless_failed;
use crate::item_firing::ItemFiring;
use crate::levels::Levels;
use crate::object_frames::ObjectFrames;
use crate::row::Row;
use dr_cells::{Shape, shape_of};
use dr_condition::{Condition, condition_of};
use dr_group::Partial;
use dr_levels::Move;
use dr_memory::NoMemory;
use dr_nested::Schema;
use dr_plan::{ObjectPlan, Plan, RecordItem};
use std::alloc::Global;

/// The objects of a plan's records, made of the moves of their walk over the columns of the plan's leaves, one after
/// another, with no record.
#[derive(Drop)]
pub struct ObjectScan<'a> {
    pub(crate) items: &'a [RecordItem],
    pub(crate) levels: Levels,
    pub(crate) firing: ItemFiring,
    pub(crate) condition: Condition<'a>,
    pub(crate) frames: ObjectFrames,
    pub(crate) shape: Shape,
    /// Whether a move was refused.
    pub(crate) failed: bool,
}

impl<'a> ObjectScan<'a> {
    /// Before any move, for a plan of objects with these items, by its condition.
    fn new(
        alloc: Global,
        schema: &Schema,
        plan: &Plan,
        items: &'a Vec<RecordItem>,
        object: &ObjectPlan,
        condition: Condition<'a>,
    ) -> Result<ObjectScan<'a>, NoMemory>
        requires planned { IsOfSchema (schema_view schema.now) plan.now }
        requires selects { (plan.now).selection ≡ Selected.Objects items.now object.now }
        requires watches { WatchesPlan (schema_view schema.now) plan.now (watch_in condition) }
        requires watched { HasWatched condition [] }
        ensures { IfOk result (λ g. ScansObjects (schema_view schema.now) plan.now [] g) }
    {
        let levels = Levels::of(alloc, schema, object)?;
        let firing = ItemFiring::new(alloc, plan.leaves.len(), items)?;
        let shape = shape_of(alloc, plan)?;
        Ok(ObjectScan {
            items,
            levels,
            firing,
            condition,
            frames: ObjectFrames::new(alloc),
            shape,
            failed: false,
        })
    }

    /// Before any move, for a plan of objects with these items. There is none where a test that reads no leaf isn't
    /// true: no record is kept then.
    ///
    /// Errors: want of memory, or of room for an item's place.
    pub fn start(
        alloc: Global,
        schema: &Schema,
        plan: &'a Plan,
        items: &'a Vec<RecordItem>,
        object: &ObjectPlan,
    ) -> Result<Option<ObjectScan<'a>>, NoMemory>
        requires planned { IsOfSchema (schema_view schema.now) plan.now }
        requires selects { (plan.now).selection ≡ Selected.Objects items.now object.now }
        ensures { IfOk result (λ o. BeginsObjects (schema_view schema.now) plan.now o) }
    {
        match condition_of(alloc, schema, plan)? {
            None => Ok(None),
            Some(condition) => {
                let objects = ObjectScan::new(alloc, schema, plan, items, object, condition)?;
                Ok(Some(objects))
            }
        }
    }

    /// The next move of the walk, where the row holds what was read last of each leaf.
    ///
    /// Errors: want of memory, or of room for a count, a sum or the texts. A scan refuses from then on.
    #[inline(always)]
    pub fn step<'r>(
        &mut self,
        alloc: Global,
        read: &Move<'r>,
        row: &mut Row<'r>,
    ) -> Result<(), NoMemory>
        requires few { open_in_objects self.old < 64 }
        ensures scans { OnOk result (ScansNextObjects row.old read.now self.old self.new) }
        ensures reads { (n : ℕ) (ms : List MeantMove) → HasRead n ms row.old → IsOfLeaf n (move_view read.now)
            → HasRead n (ms ++ move_view read.now ∷ []) row.new }
        ensures again { failed_in_objects self.old ≡ true → IsErr result }
        ensures refused { OnErr result (failed_in_objects self.new ≡ true) }
    {
        if self.failed {
            row.keep(read);
            return Err(NoMemory);
        }
        match self.go_on(alloc, read, row) {
            Ok(()) => Ok(()),
            Err(NoMemory) => {
                self.failed = true;
                Err(NoMemory)
            }
        }
    }

    /// As `step`, for a scan that refused nothing, where a refusal isn't noted.
    #[inline(always)]
    fn go_on<'r>(
        &mut self,
        alloc: Global,
        read: &Move<'r>,
        row: &mut Row<'r>,
    ) -> Result<(), NoMemory>
        requires few { open_in_objects self.old < 64 }
        ensures scans { OnOk result (ScansNextObjects row.old read.now self.old self.new) }
        ensures reads { (n : ℕ) (ms : List MeantMove) → HasRead n ms row.old → IsOfLeaf n (move_view read.now)
            → HasRead n (ms ++ move_view read.now ∷ []) row.new }
    {
        row.keep(read);
        let told = self.condition.step(alloc, read, &row.slots)?;
        match read {
            Move::Enter(_) => self.frames.enter(alloc),
            Move::Leaf(leaf, _) => {
                let places = self.firing.at(*leaf);
                self.frames.take(alloc, self.items, places, &row.slots)
            }
            Move::Leave(number) => self.frames.leave(
                alloc,
                self.items,
                self.levels.at(*number),
                *number,
                &row.slots,
                told.is_dropped,
            ),
        }
    }

    /// The partial: that of the records whose walk it was.
    ///
    /// Errors: a move was refused; want of room for the number of the objects.
    pub fn close(self) -> Result<Partial, NoMemory>
        requires all { HasScannedAll self }
        ensures partial { IfOk result (λ x. (s : MeantSchema) (p : MeantPlan) (R : List Node) → IsOfSchema s p
            → list_all (is_record s.fields) R ≡ true → ScansObjects s p (plan_walk s p R) self.entry
            → IsOfRecords s p R x) }
        ensures of_plan { IfOk result (λ x. (s : MeantSchema) (p : MeantPlan) (ms : List MeantMove)
            → ScansObjects s p ms self.entry → IsPartialOf (plan_view p) x) }
        ensures refused { failed_in_objects self.entry ≡ true → IsErr result }
    {
        let rows = self.frames.close(self.shape)?;
        unless_failed(self.failed, Partial::Lines(rows))
    }
}
