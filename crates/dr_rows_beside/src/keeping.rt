//! Which instances a condition keeps, by columns side by side.

ghost use Rattle.std.specs.Prelude.{◌≡◌, ◌≤◌, ◌<◌, length, map, true, IfOk};
ghost use Rattle.dr_levels.specs.Views.{triplets_view};
ghost use Rattle.dr_agreement.specs.Cuts.{begins};
ghost use Rattle.dr_levels.specs.Apart.{repetitions};
ghost use Rattle.dr_nested.specs.PathView.{paths_view};
ghost use Rattle.dr_rows_beside.specs.Bits.{set_bits};
ghost use Rattle.dr_rows_beside.specs.Judging.{CanAnswer, CanAnswerEach};
ghost use Rattle.dr_rows_beside.specs.Keepings.{judged};
ghost use Rattle.dr_rows_beside.specs.KeptBits.{commons};
ghost use Rattle.dr_beside.specs.Neighbours.{column_at};
ghost use Rattle.dr_beside.specs.Spreading.{repetitions_of};

use crate::answers::put_answers;
use crate::bits::{count_set, spread};
use crate::judging::{Test, gather_each, last_test, take_tests, tests_of};
use dr_agreement::front_of;
use dr_levels::{Levels, Triplets};
use dr_memory::NoMemory;
use dr_nested::Path;
use dr_plan::Plan;
use std::alloc::Global;

/// A condition: its tests that read leaves. This one is the first of them that reads the last leaf of them all. An
/// instance on that leaf's path is kept where one of its rows is true.
#[derive(Drop)]
pub struct Keeping<'p> {
    own: Test<'p>,
    others: Vec<Test<'p>>,
    /// How many repeated fields each of the plan's leaves has in common with the last leaf.
    commons: Vec<u8>,
    /// For each depth above the last leaf's, whether each instance there is kept; where none is, its place in the
    /// column is kept or not.
    above: Vec<Vec<bool>>,
    /// Whether each instance at its own depth is.
    whole: Vec<bool>,
    answers: Vec<bool>,
}

/// Puts, of each triplet of the first test's leaf, whether all tests are true in its row.
///
/// Errors: want of memory alone.
fn put_judged(
    alloc: Global,
    own: &Test<'_>,
    others: &[Test<'_>],
    columns: &[Triplets<'_>],
    levels: &[Levels],
    answers: &mut Vec<bool>,
    whole: &mut Vec<bool>,
) -> Result<(), NoMemory>
    requires own { CanAnswer (map triplets_view columns.now) (repetitions levels.now) own.now }
    requires others { CanAnswerEach (map triplets_view columns.now) (repetitions levels.now) others.now }
    requires begins { begins (repetitions levels.now) ≡ true }
    requires levels { repetitions levels.now
        ≡ repetitions_of (column_at (map triplets_view columns.now) ((own.now).source).leaf) }
    ensures { IfOk result (λ done. (whole.new).items ≡ judged (map triplets_view columns.now) own.now others.now) }
{
    put_answers(alloc, own.truth, &own.source, columns, whole)?;
    take_tests(
        alloc,
        others,
        columns,
        levels,
        answers,
        whole.as_mut_slice(),
    )?;
    Ok(())
}

/// Room for the bits of so many depths.
///
/// Errors: want of memory alone.
fn room_of(alloc: Global, depths: u8) -> Result<Vec<Vec<bool>>, NoMemory>
    ensures many { IfOk result (λ room. length room.items ≡ depths) }
    ensures few { IfOk result (λ room. length room.items ≤ 256) }
{
    let mut room: Vec<Vec<bool>> = Vec::new(alloc);
    'depths: for _ in 0..depths {
        room.push(Vec::new(alloc))?;
    }
    Ok(room)
}

/// How many repeated fields each of some leaves has in common with one of them.
///
/// Errors: want of memory alone.
fn commons_of(alloc: Global, leaves: &[Path], last: u32) -> Result<Vec<u8>, NoMemory>
    requires { last < length leaves.now }
    ensures { IfOk result (λ made. made.items ≡ commons (paths_view leaves.now) last) }
{
    let mut made: Vec<u8> = Vec::new(alloc);
    'leaves: for leaf in 0..leaves.len() {
        made.push(front_of(leaves, leaf, last as usize).repeated)?;
    }
    Ok(made)
}

impl<'p> Keeping<'p> {
    ghost use Rattle.dr_rows_beside.specs.Keepings.{CanJudge};
    ghost use Rattle.dr_rows_beside.specs.KeptBits.{HasJudged, kept_at, kept_bits, bits_of, common_at};
    ghost use Rattle.dr_rows_beside.specs.declared.keeping.Keeping.{Keeping};
    ghost use Rattle.dr_rows_beside.specs.Makings.{IsKeepingOf, reading};
    ghost use Rattle.std.specs.Prelude.{List, [], Ok, Some, None};
    ghost use Rattle.dr_meaning.specs.Column.{Triplet};

    /// Of a plan's tests that read leaves; none without such.
    ///
    /// Errors: want of memory alone.
    pub fn of(alloc: Global, plan: &'p Plan) -> Result<Option<Keeping<'p>>, NoMemory>
        ensures none { result ≡ Ok None → reading ((plan.now).test).items ≡ [] }
        ensures some { (k : Keeping) → result ≡ Ok (Some k)
            → IsKeepingOf (paths_view ((plan.now).leaves).items) ((plan.now).test).items k }
    {
        let mut tests = tests_of(alloc, plan)?;
        if tests.is_empty() {
            return Ok(None);
        }
        let at = last_test(&tests);
        let own = tests.remove(at);
        let commons = commons_of(alloc, &plan.leaves, own.source.leaf)?;
        let above = room_of(alloc, own.depth)?;
        Ok(Some(Keeping {
            own,
            others: tests,
            commons,
            above,
            whole: Vec::new(alloc),
            answers: Vec::new(alloc),
        }))
    }

    /// Judges the instances of the records that have some columns.
    ///
    /// Errors: want of memory alone.
    pub fn judge(&mut self, alloc: Global, columns: &[Triplets<'_>]) -> Result<(), NoMemory>
        requires judged { CanJudge (map triplets_view columns.now) self.old }
        requires deep { length ((self.old).above).items ≡ (self.old).own.depth }
        ensures own { (self.new).own ≡ (self.old).own }
        ensures others { ((self.new).others).items ≡ ((self.old).others).items }
        ensures commons { ((self.new).commons).items ≡ ((self.old).commons).items }
        ensures depths { length ((self.new).above).items ≡ length ((self.old).above).items }
        ensures judged { IfOk result (λ done. HasJudged (map triplets_view columns.now) self.new) }
    {
        let levels = columns[self.own.source.leaf as usize].levels();
        put_judged(
            alloc,
            &self.own,
            &self.others,
            columns,
            levels,
            &mut self.answers,
            &mut self.whole,
        )?;
        gather_each(levels, &self.whole, self.above.as_mut_slice())?;
        Ok(())
    }

    /// Whether each instance at a depth is kept.
    fn bits(&self, depth: u8) -> &[bool]
        ensures { result.now ≡ kept_at self.now depth }
    {
        let depth = usize::from(depth);
        if depth < self.above.len() {
            &self.above[depth]
        } else {
            &self.whole
        }
    }

    /// Puts whether each row of a leaf is kept, by the columns that were judged.
    ///
    /// Errors: want of memory alone.
    pub fn sift(
        &self,
        leaf: u32,
        columns: &[Triplets<'_>],
        out: &mut Vec<bool>,
    ) -> Result<(), NoMemory>
        requires leaf { leaf < length columns.now }
        requires common { leaf < length ((self.now).commons).items }
        requires judged { HasJudged (map triplets_view columns.now) self.now }
        ensures { IfOk result (λ done. (out.new).items ≡ kept_bits (map triplets_view columns.now) (self.now).own
            ((self.now).others).items (common_at self.now leaf) (column_at (map triplets_view columns.now) leaf)) }
    {
        let depth = self.commons[leaf as usize];
        spread(
            columns[leaf as usize].levels(),
            depth,
            self.bits(depth),
            out,
        )
    }

    /// How many records are kept of those that were judged.
    pub fn records(&self) -> usize
        ensures { (C : List (List Triplet)) → HasJudged C self.now
            → result ≡ set_bits (bits_of C (self.now).own ((self.now).others).items 0) }
    {
        count_set(self.bits(0))
    }
}
