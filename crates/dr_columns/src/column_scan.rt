//! What a plan makes of records, by their columns side by side.

ghost use Rattle.std.specs.Prelude.{◌≡◌, ◌++◌, List, [], length, map, true, false, IfOk, IfSome, is_some};
ghost use Rattle.dr_meaning.specs.Schema.{Schema};
ghost use Rattle.dr_meaning.specs.Record.{Node};
ghost use Rattle.dr_levels.specs.Views.{triplets_view};
ghost use Rattle.dr_partials.specs.Partials.{partial_of};
ghost use Rattle.dr_plan.specs.Planned.{IsOfSchema, plan_view, planned_query};
ghost use Rattle.dr_plan.specs.declared.plan.Plan.{Plan as MeantPlan};
ghost use Rattle.dr_group.specs.Partials.{partial_view, IsPartialOf};
ghost use Rattle.dr_beside.specs.Chunks.{HasColumns, NoneHas};
ghost use Rattle.dr_group.specs.Maps.{gatherings_view};
ghost use Rattle.dr_rows_beside.specs.Keepings.{CanJudge};
ghost use Rattle.dr_columns.specs.KeptTakings.{kept_count, kept_chunk_puts, CanSift};
ghost use Rattle.dr_columns.specs.Numbers.{HasPut};
ghost use Rattle.dr_columns.specs.Takings.{fired_view, takings_view};

use crate::firing::{Fired, fired_of, takings_at};
use crate::keeps::Keeps;
use crate::kept_sourcing::take_kept_sources;
use crate::sourcing::take_sources;
use crate::taking::{Taking, take_records};
use dr_agreement::Agreement;
use dr_group::{GroupMap, Partial};
use dr_levels::Triplets;
use dr_memory::NoMemory;
use dr_plan::{Aggregate, Plan, Selection};
use dr_rows_beside::Keeping;
use std::alloc::Global;

/// The groups of a plan, made of the columns of records, a chunk of whole records after another.
#[derive(Drop)]
pub struct ColumnScan<'p> {
    agreement: Agreement,
    keeps: Keeps<'p>,
    /// The keys, by the numbers of their leaves.
    keys: &'p [u32],
    /// What is taken at the rows of each leaf.
    fired: Vec<Fired<'p>>,
    /// What is taken of each record, without a leaf.
    at_end: Vec<Taking<'p>>,
    groups: GroupMap,
    /// The numbers of the groups of a leaf's rows.
    numbers: Vec<u32>,
    /// Whether each of a leaf's rows is kept.
    bits: Vec<bool>,
}

ghost use Rattle.dr_columns.specs.Taken.{HasTaken, AreAlone, CanTake, plan_paths, goes_by_columns};

/// Takes what a condition keeps of the records that have some columns. Where it keeps none of them, it is done.
///
/// Errors: want of memory, or of room for a count, a sum or a number of a group.
fn take_kept<'r>(
    alloc: Global,
    keeping: &mut Keeping<'_>,
    keys: &[u32],
    fired: &[Fired<'r>],
    at_end: &[Taking<'_>],
    columns: &[Triplets<'r>],
    bits: &mut Vec<bool>,
    groups: &mut GroupMap,
    numbers: &mut Vec<u32>,
) -> Result<(), NoMemory>
    requires judged { CanJudge (map triplets_view columns.now) keeping.old }
    requires deep { length ((keeping.old).above).items ≡ (keeping.old).own.depth }
    requires fires { CanSift (map triplets_view columns.now) keeping.old (map fired_view fired.now) }
    ensures put { IfOk result (λ done. HasPut groups.old (kept_chunk_puts keys.now (map triplets_view columns.now)
        keeping.old (map fired_view fired.now) (takings_view at_end.now)
        (kept_count (map triplets_view columns.now) keeping.old)) groups.new) }
    ensures gatherings { gatherings_view groups.new ≡ gatherings_view groups.old }
    ensures own { (keeping.new).own ≡ (keeping.old).own }
    ensures others { ((keeping.new).others).items ≡ ((keeping.old).others).items }
    ensures commons { ((keeping.new).commons).items ≡ ((keeping.old).commons).items }
    ensures depths { length ((keeping.new).above).items ≡ length ((keeping.old).above).items }
{
    keeping.judge(alloc, columns)?;
    let records = keeping.records();
    if records == 0 {
        return Ok(());
    }
    take_kept_sources(alloc, keys, fired, columns, keeping, bits, groups, numbers)?;
    take_records(alloc, at_end, records, groups)
}

impl<'p> ColumnScan<'p> {
    /// Before any record, for a plan that gives groups; for others there is none.
    ///
    /// Errors: want of memory, or of room for the number of a leaf or an aggregate.
    pub fn start(alloc: Global, plan: &'p Plan) -> Result<Option<ColumnScan<'p>>, NoMemory>
        ensures taken { IfOk result (λ o. IfSome o (λ x. (s : Schema) → IsOfSchema s plan.now
            → HasTaken s plan.now [] x)) }
        ensures told { IfOk result (λ o. is_some o ≡ goes_by_columns plan.now) }
    {
        match &plan.selection {
            Selection::Objects(_, _) => Ok(None),
            Selection::Groups(keys, aggregates, _) => match Partial::empty(alloc, plan)? {
                Partial::Lines(_) => Ok(None),
                Partial::Groups(groups) => {
                    let agreement = Agreement::start(alloc, &plan.leaves)?;
                    let keeps = Keeps::of(alloc, plan)?;
                    let fired = fired_of(alloc, &plan.leaves, keys, aggregates)?;
                    let at_end = takings_at(alloc, keys, aggregates, None)?;
                    Ok(Some(ColumnScan {
                        agreement,
                        keeps,
                        keys,
                        fired,
                        at_end,
                        groups,
                        numbers: Vec::new(alloc),
                        bits: Vec::new(alloc),
                    }))
                }
            },
        }
    }

    /// Takes the columns of so many records, each of which some records have alone; false where none have them all.
    ///
    /// Errors: want of memory, or of room for a count, a sum or a number of a group.
    pub fn take<'r>(
        &mut self,
        alloc: Global,
        columns: &[Triplets<'r>],
        records: usize,
    ) -> Result<bool, NoMemory>
        requires { CanTake (map triplets_view columns.now) records self.old }
        ensures taken { result ≡ Ok true → (s : Schema) (p : MeantPlan) (R : List Node) → HasTaken s p R self.old
            → AreAlone s p (map triplets_view columns.now) records
            → (S : List Node) × HasColumns s.fields (plan_paths p) (map triplets_view columns.now) records S
            × HasTaken s p (R ++ S) self.new }
        ensures none { result ≡ Ok false → (s : Schema) (p : MeantPlan) (R : List Node) → HasTaken s p R self.old
            → NoneHas s.fields (plan_paths p) (map triplets_view columns.now) records }
    {
        if !self.agreement.have_records(columns)? {
            return Ok(false);
        }
        match &mut self.keeps {
            Keeps::Nothing => Ok(true),
            Keeps::All => {
                take_sources(
                    alloc,
                    self.keys,
                    &self.fired,
                    columns,
                    &mut self.groups,
                    &mut self.numbers,
                )?;
                take_records(alloc, &self.at_end, records, &mut self.groups)?;
                Ok(true)
            }
            Keeps::Tested(keeping) => {
                take_kept(
                    alloc,
                    keeping,
                    self.keys,
                    &self.fired,
                    &self.at_end,
                    columns,
                    &mut self.bits,
                    &mut self.groups,
                    &mut self.numbers,
                )?;
                Ok(true)
            }
        }
    }

    /// The partial of the records.
    pub fn close(self) -> Partial
        ensures partial { (s : Schema) (p : MeantPlan) (R : List Node) → HasTaken s p R self.entry
            → partial_view result ≡ partial_of s.fields (planned_query (plan_view p)) R }
        ensures of_plan { (s : Schema) (p : MeantPlan) (R : List Node) → HasTaken s p R self.entry
            → IsPartialOf (plan_view p) result }
    {
        Partial::Groups(self.groups)
    }
}
