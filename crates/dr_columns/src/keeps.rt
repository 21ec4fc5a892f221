//! What a plan's condition keeps of records.

ghost use Rattle.std.specs.Prelude.{◌≡◌, IfOk};
ghost use Rattle.dr_condition.specs.Parted.{
  may_hold as meant_may_hold,
  constants_hold as meant_constants_hold,
};

use dr_memory::NoMemory;
use dr_plan::{Plan, Truth};
use dr_rows_beside::Keeping;
use dr_scalar::{last_leaf_of_tests, truth};
use std::alloc::Global;
use std::slice;

/// All of them, nothing, or what those of its tests keep that read leaves.
#[derive(Drop)]
pub(crate) enum Keeps<'p> {
    All,
    Nothing,
    Tested(Keeping<'p>),
}

ghost use Rattle.dr_columns.specs.PlanKeeps.{KeepsFor};

/// Whether a test reads a leaf, or is true without one.
///
/// Errors: want of memory alone.
fn may_hold(alloc: Global, test: &Truth) -> Result<bool, NoMemory>
    ensures { IfOk result (λ b. b ≡ meant_may_hold test.now) }
{
    match last_leaf_of_tests(slice::from_ref(test)) {
        Some(_) => Ok(true),
        None => match truth(alloc, test, &[])? {
            Some(value) => Ok(value),
            None => Ok(false),
        },
    }
}

/// Whether all of some tests are true that read no leaf.
///
/// Errors: want of memory alone.
fn constants_hold(alloc: Global, tests: &[Truth]) -> Result<bool, NoMemory>
    ensures { IfOk result (λ b. b ≡ meant_constants_hold tests.now) }
{
    'tests: for test in tests {
        if !may_hold(alloc, test)? {
            return Ok(false);
        }
    }
    Ok(true)
}

impl<'p> Keeps<'p> {
    /// For a plan.
    ///
    /// Errors: want of memory alone.
    pub(crate) fn of(alloc: Global, plan: &'p Plan) -> Result<Keeps<'p>, NoMemory>
        ensures { IfOk result (KeepsFor plan.now) }
    {
        if !constants_hold(alloc, &plan.test)? {
            return Ok(Keeps::Nothing);
        }
        match Keeping::of(alloc, plan)? {
            None => Ok(Keeps::All),
            Some(keeping) => Ok(Keeps::Tested(keeping)),
        }
    }
}
