//! The scan of a plan of groups.

ghost use Rattle.std.specs.Prelude.{◌≡◌, ◌<◌, ◌++◌, ◌∷◌, [], ℕ, List, true, IfOk, OnOk, OnErr, IsErr};
ghost use Rattle.std.specs.List.{list_all};
ghost use Rattle.dr_levels.specs.Views.{move_view};
ghost use Rattle.dr_nested.specs.SchemaView.{schema_view};
ghost use Rattle.dr_meaning.specs.Record.{Node, is_record};
ghost use Rattle.dr_meaning.specs.Schema.{Schema as MeantSchema};
ghost use Rattle.dr_meaning.specs.Walk.{Move as MeantMove};
ghost use Rattle.dr_plan.specs.Planned.{IsOfSchema, plan_view};
ghost use Rattle.dr_plan.specs.declared.plan.Plan.{Plan as MeantPlan};
ghost use Rattle.dr_plan.specs.declared.plan.Selection.{Selection as Selected};
ghost use Rattle.dr_group.specs.Partials.{IsPartialOf, IsOfRecords};
ghost use Rattle.dr_within.specs.Scanning.{Scans, Begins, open_in_scan, failed_in_scan, ScansNext};
ghost use Rattle.dr_within.specs.Rows.{HasRead, IsOfLeaf, plan_walk};

use crate::failed::unless_failed;
use crate::groups::GroupScan;
use crate::row::Row;
use dr_condition::condition_of;
use dr_group::Partial;
use dr_levels::Move;
use dr_memory::NoMemory;
use dr_nested::Schema;
use dr_plan::{Aggregate, GroupItem, Plan};
use std::alloc::Global;

/// The groups of a plan's records, made of the moves of their walk over the columns of the plan's leaves, one after
/// another, with no record.
#[derive(Drop)]
pub struct PlanScan<'a> {
    pub(crate) groups: GroupScan<'a>,
    /// Whether a move was refused.
    pub(crate) failed: bool,
}

impl<'a> PlanScan<'a> {
    /// Before any move, for a plan of groups with these keys, aggregates and items. There is none where a test that
    /// reads no leaf isn't true: no record is kept then.
    ///
    /// Errors: want of memory, or of room for an aggregate's number.
    pub fn start(
        alloc: Global,
        schema: &Schema,
        plan: &'a Plan,
        keys: &'a Vec<u32>,
        aggregates: &'a Vec<Aggregate>,
        items: &'a Vec<GroupItem>,
    ) -> Result<Option<PlanScan<'a>>, NoMemory>
        requires planned { IsOfSchema (schema_view schema.now) plan.now }
        requires selects { (plan.now).selection ≡ Selected.Groups keys.now aggregates.now items.now }
        ensures { IfOk result (λ o. Begins (schema_view schema.now) plan.now o) }
    {
        match condition_of(alloc, schema, plan)? {
            None => Ok(None),
            Some(condition) => {
                let groups = GroupScan::new(alloc, plan, keys, aggregates, condition)?;
                Ok(Some(PlanScan {
                    groups,
                    failed: false,
                }))
            }
        }
    }

    /// The next move of the walk, where the row holds what was read last of each leaf.
    ///
    /// Errors: want of memory, or of room for a count, a sum or a number of a group. A scan refuses from then on.
    #[inline(always)]
    pub fn step<'r>(
        &mut self,
        alloc: Global,
        read: &Move<'r>,
        row: &mut Row<'r>,
    ) -> Result<(), NoMemory>
        requires few { open_in_scan self.old < 64 }
        ensures scans { OnOk result (ScansNext row.old read.now self.old self.new) }
        ensures reads { (n : ℕ) (ms : List MeantMove) → HasRead n ms row.old → IsOfLeaf n (move_view read.now)
            → HasRead n (ms ++ move_view read.now ∷ []) row.new }
        ensures again { failed_in_scan self.old ≡ true → IsErr result }
        ensures refused { OnErr result (failed_in_scan self.new ≡ true) }
    {
        if self.failed {
            row.keep(read);
            return Err(NoMemory);
        }
        match self.groups.step(alloc, read, row) {
            Ok(()) => Ok(()),
            Err(NoMemory) => {
                self.failed = true;
                Err(NoMemory)
            }
        }
    }

    /// The partial: that of the records whose walk it was.
    ///
    /// Errors: a move was refused; want of memory, or of room for a count, a sum or a number of a group.
    pub fn close(self, alloc: Global) -> Result<Partial, NoMemory>
        ensures partial { IfOk result (λ x. (s : MeantSchema) (p : MeantPlan) (R : List Node) → IsOfSchema s p
            → list_all (is_record s.fields) R ≡ true → Scans s p (plan_walk s p R) self.entry → IsOfRecords s p R x) }
        ensures of_plan { IfOk result (λ x. (s : MeantSchema) (p : MeantPlan) (ms : List MeantMove)
            → Scans s p ms self.entry
            → IsPartialOf (plan_view p) x) }
        ensures refused { failed_in_scan self.entry ≡ true → IsErr result }
    {
        let partial = self.groups.close(alloc)?;
        unless_failed(self.failed, partial)
    }
}
