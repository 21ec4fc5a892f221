//! What a plan makes of the moves of a walk.

ghost use Rattle.std.specs.Prelude.{◌≡◌, ◌<◌, ◌++◌, ◌∷◌, [], ℕ, List, length, true, IfOk, OnOk};
ghost use Rattle.std.specs.List.{list_all};
ghost use Rattle.dr_levels.specs.Views.{move_view};
ghost use Rattle.dr_nested.specs.SchemaView.{schema_view};
ghost use Rattle.dr_meaning.specs.Path.{paths_of_leaves};
ghost use Rattle.dr_meaning.specs.Record.{Node, is_record};
ghost use Rattle.dr_meaning.specs.Schema.{Schema as MeantSchema};
ghost use Rattle.dr_meaning.specs.Walk.{Move as MeantMove, walk};
ghost use Rattle.dr_partials.specs.Partials as partials;
ghost use Rattle.dr_plan.specs.Planned.{IsOfSchema, plan_leaves, plan_view, planned_query};
ghost use Rattle.dr_plan.specs.declared.plan.Plan.{Plan as MeantPlan};
ghost use Rattle.dr_group.specs.Partials.{partial_view, IsPartialOf};
ghost use Rattle.dr_within.specs.Rows.{HasRead, IsOfLeaf};
ghost use Rattle.dr_scan.specs.Makings.{Makes, HasMadeAll, open_in};

use dr_group::Partial;
use dr_levels::Move;
use dr_memory::NoMemory;
use dr_nested::Schema;
use dr_plan::{Plan, Selection};
use dr_within::{ObjectScan, PlanScan, Row};
use std::alloc::Global;

/// The groups or the objects of a plan's records, made of the moves of their walk, one after another; nothing where the
/// condition keeps no record.
#[derive(Drop)]
pub(crate) enum Making<'p> {
    Nothing,
    Groups(PlanScan<'p>),
    Objects(ObjectScan<'p>),
}

impl<'p> Making<'p> {
    /// Before any move.
    ///
    /// Errors: want of memory, or of room for a number of the plan.
    pub(crate) fn start(
        alloc: Global,
        schema: &Schema,
        plan: &'p Plan,
    ) -> Result<Making<'p>, NoMemory>
        requires planned { IsOfSchema (schema_view schema.now) plan.now }
        ensures { IfOk result (Makes (schema_view schema.now) plan.now []) }
    {
        match &plan.selection {
            Selection::Objects(items, object) => {
                match ObjectScan::start(alloc, schema, plan, items, object)? {
                    Some(objects) => Ok(Making::Objects(objects)),
                    None => Ok(Making::Nothing),
                }
            }
            Selection::Groups(keys, aggregates, items) => {
                match PlanScan::start(alloc, schema, plan, keys, aggregates, items)? {
                    Some(groups) => Ok(Making::Groups(groups)),
                    None => Ok(Making::Nothing),
                }
            }
        }
    }

    /// The next move of the walk, where the row holds what was read last of each leaf.
    ///
    /// Errors: want of memory, or of room for a count, a sum, a number of a group or the texts.
    #[inline(always)]
    pub(crate) fn step<'r>(
        &mut self,
        alloc: Global,
        read: &Move<'r>,
        row: &mut Row<'r>,
    ) -> Result<(), NoMemory>
        requires few { open_in self.old < 64 }
        ensures makes { OnOk result ((s : MeantSchema) (p : MeantPlan) (ms : List MeantMove) → Makes s p ms self.old
            → HasRead (length (plan_leaves p)) ms row.old → IsOfLeaf (length (plan_leaves p)) (move_view read.now)
            → Makes s p (ms ++ move_view read.now ∷ []) self.new) }
        ensures reads { (n : ℕ) (ms : List MeantMove) → HasRead n ms row.old → IsOfLeaf n (move_view read.now)
            → HasRead n (ms ++ move_view read.now ∷ []) row.new }
    {
        match self {
            Making::Nothing => {
                row.keep(read);
                Ok(())
            }
            Making::Groups(groups) => groups.step(alloc, read, row),
            Making::Objects(objects) => objects.step(alloc, read, row),
        }
    }

    /// The partial: that of the records whose walk it was.
    ///
    /// Errors: want of memory, or of room for a count, a sum or a number of a group, or the number of the objects.
    pub(crate) fn close(self, alloc: Global, plan: &Plan) -> Result<Partial, NoMemory>
        requires all { HasMadeAll self }
        ensures partial { IfOk result (λ x. (s : MeantSchema) (R : List Node) → IsOfSchema s plan.now
            → list_all (is_record s.fields) R ≡ true
            → Makes s plan.now (walk s.fields (paths_of_leaves (plan_leaves plan.now)) R) self.entry
            → partial_view x ≡ partials.partial_of s.fields (planned_query (plan_view plan.now)) R) }
        ensures of_plan { IfOk result (λ x. (s : MeantSchema) (ms : List MeantMove) → Makes s plan.now ms self.entry
            → IsPartialOf (plan_view plan.now) x) }
    {
        match self {
            Making::Nothing => Partial::empty(alloc, plan),
            Making::Groups(groups) => groups.close(alloc),
            Making::Objects(objects) => objects.close(),
        }
    }
}
