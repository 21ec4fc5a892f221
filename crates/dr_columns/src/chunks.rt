//! Chunks of whole records, of what is at hand of the columns of a plan's leaves.

ghost use Rattle.std.specs.Prelude.{◌≡◌, ◌≢◌, ◌<◌, ◌≤◌, ◌⊎◌, ◌++◌, [], ℕ, List, length, map, get_or, false, IfOk};
ghost use Rattle.dr_meaning.specs.Schema.{Schema};
ghost use Rattle.dr_meaning.specs.Record.{Node};
ghost use Rattle.dr_meaning.specs.Column.{Triplet};
ghost use Rattle.dr_levels.specs.Views.{column_form, column_view};
ghost use Rattle.dr_moves.specs.Leading.{Left};
ghost use Rattle.dr_agreement.specs.AtHand.{ends_of, form_of, whole_at, CanPass};
ghost use Rattle.dr_agreement.specs.Behind.{IsMore};
ghost use Rattle.dr_partials.specs.Partials.{partial_of};
ghost use Rattle.dr_plan.specs.Planned.{plan_view, planned_query};
ghost use Rattle.dr_group.specs.Partials.{partial_view, IsPartialOf};
ghost use Rattle.dr_plan.specs.declared.plan.Plan.{Plan as MeantPlan};

use crate::column_scan::ColumnScan;
use dr_agreement::{
    Alone, AtHand, Kept, LeafTest, all_passed, each_alone, fronts_of, least_whole, lengths_of,
    pass_each, tests_of, wanting,
};
use dr_group::Partial;
use dr_levels::Column;
use dr_memory::NoMemory;
use dr_plan::Plan;
use std::alloc::Global;

/// As many records are taken at once.
const MOST_RECORDS: u64 = 65_536;

/// With more triplets of a leaf at hand, and no whole record, the record is a long one.
const MOST_TRIPLETS: usize = 64_512;

/// What a step over what is at hand comes to.
#[derive(Clone, Copy, PartialEq, Eq)]
pub enum Step {
    /// It took a chunk.
    Took,
    /// No chunk is whole before more comes of the leaf of this number.
    Wants(usize),
    /// The same, and a record is longer than a chunk.
    Long,
    /// All records are taken.
    Ended,
    /// No records have columns that begin so.
    NoneHave,
}

/// A scan over the columns of a plan's leaves: what is at hand of each, and how many records are left.
#[derive(Drop)]
pub struct Chunks<'p> {
    leaves: Vec<AtHand>,
    tests: Vec<LeafTest>,
    records: u64,
    scan: ColumnScan<'p>,
}

ghost use Rattle.dr_columns.specs.Taken.{HasTaken};
ghost use Rattle.dr_columns.specs.Chunks.{nothing, AreForPlan, TakesFronts, HasTakenChunks, CanStep, BeginsFor, ComesTo, IsLent};
ghost use Rattle.dr_columns.specs.declared.chunks.Chunks.{Chunks as MeantChunks};

/// Takes the next so many records of what is at hand, and answers how many triplets of each leaf they have; none where
/// no records have them.
///
/// Errors: want of memory, or of room for a count, a sum or a number of a group.
fn take_fronts(
    alloc: Global,
    leaves: &[AtHand],
    tests: &[LeafTest],
    scan: &mut ColumnScan<'_>,
    records: usize,
) -> Result<Option<Vec<usize>>, NoMemory>
    requires whole { (i : ℕ) → i < length leaves.now → records ≤ whole_at leaves.now i }
    requires taken { (s : Schema) × (p : MeantPlan) × (R : List Node) × HasTaken s p R scan.old
        × AreForPlan s p leaves.now tests.now }
    ensures taken { (s : Schema) (p : MeantPlan) (R : List Node) → HasTaken s p R scan.old
        → AreForPlan s p leaves.now tests.now → IfOk result (TakesFronts s p leaves.now records R scan.new) }
{
    let fronts = fronts_of(alloc, leaves, records)?;
    match each_alone(tests, &fronts, records) {
        Alone::Columns => {
            if !scan.take(alloc, &fronts, records)? {
                return Ok(None);
            }
            Ok(Some(lengths_of(alloc, &fronts)?))
        }
        Alone::NoColumn => Ok(None),
        Alone::Strange => Err(NoMemory),
    }
}

impl<'p> Chunks<'p> {
    /// Before any record, where nothing is at hand.
    ///
    /// Errors: want of memory alone.
    pub fn start(
        alloc: Global,
        plan: &Plan,
        leaves: Vec<AtHand>,
        records: u64,
        scan: ColumnScan<'p>,
    ) -> Result<Chunks<'p>, NoMemory>
        ensures begun { (s : Schema) → BeginsFor s plan.now leaves.items scan.entry
            → IfOk result (HasTakenChunks s plan.now records nothing []) }
        ensures leaves { IfOk result (λ x. x.leaves.items ≡ leaves.items) }
    {
        let tests = tests_of(alloc, &plan.leaves)?;
        Ok(Chunks {
            leaves,
            tests,
            records,
            scan,
        })
    }

    /// Whether a leaf that wants more has a long record at hand.
    fn wants(&self, leaf: usize) -> Step
        requires { leaf < length (self.now).leaves.items }
        ensures { (result ≡ Step.Long) ⊎ (result ≡ Step.Wants leaf) }
    {
        if self.leaves[leaf].len() > MOST_TRIPLETS {
            Step::Long
        } else {
            Step::Wants(leaf)
        }
    }

    /// Takes so many records, which each leaf has whole.
    ///
    /// Errors: want of memory, or of room for a count, a sum or a number of a group.
    fn take(&mut self, alloc: Global, records: usize) -> Result<Step, NoMemory>
        requires some { 0 < records }
        requires few { records ≤ (self.old).records }
        requires whole { (i : ℕ) → i < length (self.old).leaves.items → records ≤ whole_at (self.old).leaves.items i }
        requires taken { CanStep self.old }
        ensures step { (s : Schema) (p : MeantPlan) (rows : ℕ) (given : Left) (R : List Node)
            → HasTakenChunks s p rows given R self.old → IfOk result (ComesTo s p rows given self.new) }
        ensures ends { (i : ℕ) → ends_of (self.new).leaves.items i ≡ ends_of (self.old).leaves.items i }
        ensures forms { map form_of (self.new).leaves.items ≡ map form_of (self.old).leaves.items }
    {
        let taken = take_fronts(alloc, &self.leaves, &self.tests, &mut self.scan, records)?;
        match taken {
            Some(counts) => {
                pass_each(&mut self.leaves, &counts, records);
                self.records -= records as u64;
                Ok(Step::Took)
            }
            None => Ok(Step::NoneHave),
        }
    }

    /// Takes the next chunk of what is at hand, if one is whole.
    ///
    /// Errors: want of memory, or of room for a count, a sum or a number of a group.
    pub fn step(&mut self, alloc: Global) -> Result<Step, NoMemory>
        requires { CanStep self.old }
        ensures step { (s : Schema) (p : MeantPlan) (rows : ℕ) (given : Left) (R : List Node)
            → HasTakenChunks s p rows given R self.old → IfOk result (ComesTo s p rows given self.new) }
        ensures ends { (i : ℕ) → ends_of (self.new).leaves.items i ≡ ends_of (self.old).leaves.items i }
        ensures forms { map form_of (self.new).leaves.items ≡ map form_of (self.old).leaves.items }
    {
        if let Some(leaf) = wanting(&self.leaves) {
            return Ok(self.wants(leaf));
        }
        let records = least_whole(&self.leaves, self.records.min(MOST_RECORDS) as usize);
        if records > 0 {
            return self.take(alloc, records);
        }
        if self.records > 0 {
            return Ok(Step::NoneHave);
        }
        if all_passed(&self.leaves) {
            Ok(Step::Ended)
        } else {
            Ok(Step::NoneHave)
        }
    }

    /// Lends what is at hand of a leaf, in the place of another column of the leaf, so that more joins it. Nothing is
    /// at hand of the leaf until it is taken back.
    ///
    /// Errors: want of memory alone.
    pub fn lend(&mut self, leaf: usize, out: &mut Column) -> Result<Kept, NoMemory>
        requires within { leaf < length (self.old).leaves.items }
        requires form { column_form out.old ≡ get_or (map form_of (self.old).leaves.items) leaf (column_form out.old) }
        ensures lent { IfOk result (λ kept. IsLent leaf (column_view out.new) kept self.old self.new) }
        ensures form { column_form out.new ≡ column_form out.old }
    {
        self.leaves[leaf].lend(out)
    }

    /// Takes back what is at hand of a leaf, with more of the leaf behind it, and whether nothing comes behind that.
    /// Another column of the leaf is in its place then.
    pub fn take_back(&mut self, leaf: usize, column: &mut Column, kept: Kept, ended: bool)
        requires within { leaf < length (self.old).leaves.items }
        requires form { column_form column.old
            ≡ get_or (map form_of (self.old).leaves.items) leaf (column_form column.old) }
        requires kept { CanPass (column_view column.old) kept.triplets kept.begun }
        ensures added { (s : Schema) (p : MeantPlan) (rows : ℕ) (given now : Left) (R : List Node) (x : MeantChunks)
            (before more : List Triplet) → HasTakenChunks s p rows given R x → IsLent leaf before kept x self.old
            → column_view column.old ≡ before ++ more → ends_of x.leaves.items leaf ≡ false
            → IsMore leaf more given now → HasTakenChunks s p rows now R self.new }
        ensures ended { ends_of (self.new).leaves.items leaf ≡ ended }
        ensures ends { (i : ℕ) → i ≢ leaf → ends_of (self.new).leaves.items i ≡ ends_of (self.old).leaves.items i }
        ensures forms { map form_of (self.new).leaves.items ≡ map form_of (self.old).leaves.items }
        ensures form { column_form column.new ≡ column_form column.old }
    {
        self.leaves[leaf].take_back(column, kept, ended);
    }

    /// The partial of the records that are taken.
    pub fn close(self) -> Partial
        ensures partial { (s : Schema) (p : MeantPlan) (rows : ℕ) (given : Left) (R : List Node)
            → HasTakenChunks s p rows given R self.entry
            → partial_view result ≡ partial_of s.fields (planned_query (plan_view p)) R }
        ensures of_plan { (s : Schema) (p : MeantPlan) (rows : ℕ) (given : Left) (R : List Node)
            → HasTakenChunks s p rows given R self.entry → IsPartialOf (plan_view p) result }
    {
        self.scan.close()
    }

    /// What is at hand of each leaf, how many records are left, and the partial of those that are taken.
    pub fn into_parts(self) -> (Vec<AtHand>, u64, Partial)
        ensures leaves { (result.0).items ≡ (self.entry).leaves.items }
        ensures records { result.1 ≡ (self.entry).records }
        ensures partial { (s : Schema) (p : MeantPlan) (rows : ℕ) (given : Left) (R : List Node)
            → HasTakenChunks s p rows given R self.entry
            → partial_view result.2 ≡ partial_of s.fields (planned_query (plan_view p)) R }
        ensures of_plan { (s : Schema) (p : MeantPlan) (rows : ℕ) (given : Left) (R : List Node)
            → HasTakenChunks s p rows given R self.entry → IsPartialOf (plan_view p) result.2 }
    {
        (self.leaves, self.records, self.scan.close())
    }
}
