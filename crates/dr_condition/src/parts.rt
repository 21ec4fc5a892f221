//! The tests of a plan as parts of its condition.

ghost use Rattle.std.specs.Prelude.{◌≡◌, ◌++◌, ◌∷◌, [], List, IfOk, OnOk};
ghost use Rattle.dr_meaning.specs.Expression.{is_true as meant_true};
ghost use Rattle.dr_scalar.specs.OverSlots.{truth_over};
ghost use Rattle.dr_scalar.specs.Slots.{slot_value};
ghost use Rattle.dr_condition.specs.Parted.{may_hold};
ghost use Rattle.dr_condition.specs.TestParts.{AreTestParts, AreTestPartsOrNone};

use dr_levels::ValueRef;
use dr_memory::NoMemory;
use dr_plan::Truth;
use dr_scalar::{last_leaf_of_tests, truth};
use std::alloc::Global;
use std::slice;

/// The tests of a plan that read a leaf, each with the last that it reads.
#[derive(Drop)]
pub(crate) struct Parts<'p> {
    pub(crate) tests: Vec<&'p Truth>,
    pub(crate) lasts: Vec<u32>,
}

/// Whether a test is true, by what was read last of each leaf: neither false nor NULL.
///
/// Errors: want of memory alone.
#[inline(always)]
pub(crate) fn is_true(
    alloc: Global,
    test: &Truth,
    slots: &[Option<ValueRef<'_>>],
) -> Result<bool, NoMemory>
    ensures { IfOk result (λ b. b ≡ meant_true (truth_over (slot_value slots.now) test.now)) }
{
    match truth(alloc, test, slots)? {
        Some(value) => Ok(value),
        None => Ok(false),
    }
}

impl<'p> Parts<'p> {
    /// Of no tests.
    fn none(alloc: Global) -> Parts<'p>
        ensures { AreTestParts [] result }
    {
        Parts {
            tests: Vec::new(alloc),
            lasts: Vec::new(alloc),
        }
    }

    /// One test more; whether it may be true. One that reads no leaf is settled here.
    ///
    /// Errors: want of memory alone.
    fn add(&mut self, alloc: Global, test: &'p Truth) -> Result<bool, NoMemory>
        ensures holds { IfOk result (λ b. b ≡ may_hold test.now) }
        ensures parts { OnOk result ((ts : List Truth) → AreTestParts ts self.old
            → AreTestParts (ts ++ test.now ∷ []) self.new) }
    {
        match last_leaf_of_tests(slice::from_ref(test)) {
            Some(last) => {
                self.tests.push(test)?;
                self.lasts.push(last)?;
                Ok(true)
            }
            None => is_true(alloc, test, &[]),
        }
    }

    /// Of a plan's tests; none where one that reads no leaf isn't true, as no record is kept then.
    ///
    /// Errors: want of memory alone.
    pub(crate) fn of_tests(alloc: Global, tests: &'p [Truth]) -> Result<Option<Parts<'p>>, NoMemory>
        ensures { IfOk result (AreTestPartsOrNone tests.now) }
    {
        let mut parts = Parts::none(alloc);
        'tests: for test in tests {
            if !parts.add(alloc, test)? {
                return Ok(None);
            }
        }
        Ok(Some(parts))
    }
}
