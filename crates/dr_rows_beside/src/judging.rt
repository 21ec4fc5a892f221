//! Tests of a condition, one after another.

ghost use Rattle.std.specs.Prelude.{◌≡◌, ◌≤◌, ◌<◌, ◌∷◌, ◌++◌, [], List, length, map, true, Some, IfOk};
ghost use Rattle.std.specs.List.{list_all};
ghost use Rattle.dr_levels.specs.Views.{triplets_view};
ghost use Rattle.dr_nested.specs.PathView.{paths_view};
ghost use Rattle.dr_plan.specs.declared.expression.Truth.{Truth};
ghost use Rattle.dr_scalar.specs.Leaves.{greatest, truth_leaves};
ghost use Rattle.dr_rows_beside.specs.Sources.{is_numbered};
ghost use Rattle.dr_agreement.specs.Cuts.{begins};
ghost use Rattle.dr_levels.specs.Apart.{repetitions};
ghost use Rattle.dr_rows_beside.specs.Judging.{AreGathered, CanAnswer, CanAnswerEach, narrowed, narrowed_by};

use crate::answers::put_answers;
use crate::bits::{gather, narrow};
use crate::reading::push_truth;
use crate::source::Source;
use dr_agreement::front_of;
use dr_levels::{Levels, Triplets};
use dr_memory::NoMemory;
use dr_nested::Path;
use dr_plan::{Plan, Truth};
use dr_scalar::last_leaf_of_tests;
use std::alloc::Global;
use std::slice;

/// A test that reads leaves, the last of which has so many repeated fields on its path.
#[derive(Drop)]
pub(crate) struct Test<'p> {
    pub(crate) truth: &'p Truth,
    pub(crate) source: Source,
    pub(crate) depth: u8,
}

ghost use Rattle.dr_rows_beside.specs.Makings.{AreMadeOf, IsLast, IsMadeOf, reading};

impl<'p> Test<'p> {
    /// A test of which this is the last leaf.
    ///
    /// Errors: want of memory alone.
    fn of(alloc: Global, leaves: &[Path], truth: &'p Truth, last: u32) -> Result<Test<'p>, NoMemory>
        requires last { greatest (truth_leaves truth.now) ≡ Some last }
        requires read { list_all (is_numbered (length leaves.now)) (truth_leaves truth.now) ≡ true }
        ensures { IfOk result (IsMadeOf (paths_view leaves.now) truth.now) }
    {
        let mut read: Vec<u32> = Vec::new(alloc);
        push_truth(truth, &mut read)?;
        let source = Source::new(alloc, leaves, last, &read)?;
        let whole = front_of(leaves, last as usize, last as usize);
        Ok(Test {
            truth,
            source,
            depth: whole.repeated,
        })
    }
}

/// Appends a test, if it reads a leaf.
///
/// Errors: want of memory alone.
fn push_test<'p>(
    alloc: Global,
    leaves: &[Path],
    truth: &'p Truth,
    out: &mut Vec<Test<'p>>,
) -> Result<(), NoMemory>
    requires { list_all (is_numbered (length leaves.now)) (truth_leaves truth.now) ≡ true }
    ensures { IfOk result (λ done. (ts : List Truth) → AreMadeOf (paths_view leaves.now) ts (out.old).items
        → AreMadeOf (paths_view leaves.now) (ts ++ reading (truth.now ∷ [])) (out.new).items) }
{
    match last_leaf_of_tests(slice::from_ref(truth)) {
        None => Ok(()),
        Some(last) => {
            out.push(Test::of(alloc, leaves, truth, last)?)?;
            Ok(())
        }
    }
}

/// Those of a plan's tests that read leaves.
///
/// Errors: want of memory alone.
pub(crate) fn tests_of<'p>(alloc: Global, plan: &'p Plan) -> Result<Vec<Test<'p>>, NoMemory>
    ensures { IfOk result (λ made. AreMadeOf (paths_view ((plan.now).leaves).items)
        (reading ((plan.now).test).items) made.items) }
{
    let mut made: Vec<Test<'p>> = Vec::new(alloc);
    'tests: for truth in &plan.test {
        push_test(alloc, &plan.leaves, truth, &mut made)?;
    }
    Ok(made)
}

/// The first of some tests that reads the last leaf of them all.
pub(crate) fn last_test(tests: &[Test<'_>]) -> usize
    requires { 0 < length tests.now }
    ensures within { result < length tests.now }
    ensures last { IsLast tests.now (length tests.now) result }
{
    let mut best = 0;
    'tests: for at in 1..tests.len() {
        if tests[at].source.leaf > tests[best].source.leaf {
            best = at;
        }
    }
    best
}

/// Narrows bits of a leaf's triplets by the answers of a test.
///
/// Errors: want of memory alone.
fn take_test(
    alloc: Global,
    test: &Test<'_>,
    columns: &[Triplets<'_>],
    levels: &[Levels],
    answers: &mut Vec<bool>,
    bits: &mut [bool],
) -> Result<(), NoMemory>
    requires answers { CanAnswer (map triplets_view columns.now) (repetitions levels.now) test.now }
    requires begins { begins (repetitions levels.now) ≡ true }
    requires bits { length bits.old ≡ length levels.now }
    ensures { IfOk result (λ done. bits.new
        ≡ narrowed (map triplets_view columns.now) (repetitions levels.now) test.now bits.old) }
{
    put_answers(alloc, test.truth, &test.source, columns, answers)?;
    narrow(levels, test.depth, answers, bits);
    Ok(())
}

/// Narrows bits of a leaf's triplets by the answers of tests.
///
/// Errors: want of memory alone.
pub(crate) fn take_tests(
    alloc: Global,
    tests: &[Test<'_>],
    columns: &[Triplets<'_>],
    levels: &[Levels],
    answers: &mut Vec<bool>,
    bits: &mut [bool],
) -> Result<(), NoMemory>
    requires answers { CanAnswerEach (map triplets_view columns.now) (repetitions levels.now) tests.now }
    requires begins { begins (repetitions levels.now) ≡ true }
    requires bits { length bits.old ≡ length levels.now }
    ensures { IfOk result (λ done. bits.new
        ≡ narrowed_by (map triplets_view columns.now) (repetitions levels.now) tests.now bits.old) }
{
    'tests: for test in tests {
        take_test(alloc, test, columns, levels, answers, bits)?;
    }
    Ok(())
}

/// Puts, of each depth, whether each instance there has a bit that is set.
///
/// Errors: want of memory alone.
pub(crate) fn gather_each(
    levels: &[Levels],
    bits: &[bool],
    out: &mut [Vec<bool>],
) -> Result<(), NoMemory>
    requires begins { begins (repetitions levels.now) ≡ true }
    requires bits { length bits.now ≡ length levels.now }
    requires few { length out.old ≤ 256 }
    ensures { IfOk result (λ done. AreGathered (repetitions levels.now) bits.now (length out.new) out.new) }
{
    'depths: for (depth, room) in out.iter_mut().enumerate() {
        gather(levels, depth as u8, bits, room)?;
    }
    Ok(())
}
