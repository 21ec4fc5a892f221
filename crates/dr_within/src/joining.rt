//! What two accumulators of one aggregate have gathered together.

ghost use Rattle.std.specs.Prelude.{◌≡◌, ◌+ℤ◌, IfOk, OnOk};
ghost use Rattle.dr_group.specs.Views.{accumulator_view, cell_view};
ghost use Rattle.dr_plan.specs.Views.{fold_view};
ghost use Rattle.dr_partials.specs.Accumulators.{aggregate_of, counted, join, join_options, summed, take_value};

use dr_group::{Accumulator, Gathering};
use dr_levels::ValueRef;
use dr_memory::NoMemory;
use dr_nested::Value;
use dr_plan::Fold;
use std::alloc::Global;

/// Joins a count.
fn join_count(mine: &mut Accumulator, more: u64) -> Result<(), NoMemory>
    ensures { OnOk result (accumulator_view mine.new ≡ join (accumulator_view mine.old) (counted more)) }
{
    match mine {
        Accumulator::Count(count) => {
            let Some(total) = count.checked_add(more) else {
                return Err(NoMemory);
            };
            *count = total;
            Ok(())
        }
        Accumulator::Sum(_) | Accumulator::Least(_) | Accumulator::Greatest(_) => Ok(()),
    }
}

/// The sum of two sums, where there are any.
fn sum_of(left: Option<i128>, right: Option<i128>) -> Result<Option<i128>, NoMemory>
    ensures { IfOk result (λ s. s ≡ join_options (λ x y. x +ℤ y) left right) }
{
    let Some(first) = left else {
        return Ok(right);
    };
    let Some(second) = right else {
        return Ok(left);
    };
    match first.checked_add(second) {
        Some(total) => Ok(Some(total)),
        None => Err(NoMemory),
    }
}

/// Joins a sum.
fn join_sum(mine: &mut Accumulator, more: Option<i128>) -> Result<(), NoMemory>
    ensures { OnOk result (accumulator_view mine.new ≡ join (accumulator_view mine.old) (summed more)) }
{
    match mine {
        Accumulator::Sum(sum) => {
            *sum = sum_of(*sum, more)?;
            Ok(())
        }
        Accumulator::Count(_) | Accumulator::Least(_) | Accumulator::Greatest(_) => Ok(()),
    }
}

/// Takes a value that is held, or NULL.
fn take_held(
    alloc: Global,
    mine: &mut Accumulator,
    fold: Fold,
    value: &Option<Value>,
) -> Result<(), NoMemory>
    ensures { OnOk result (accumulator_view mine.new ≡ take_value (accumulator_view mine.old) (cell_view value.now)) }
{
    match value {
        None => mine.take(alloc, Gathering::Values(fold), None),
        Some(value) => mine.take(alloc, Gathering::Values(fold), Some(ValueRef::of(value))),
    }
}

/// Joins what another accumulator of the same aggregate has gathered.
///
/// Errors: want of memory, or of room for a count or a sum.
pub(crate) fn join_into(
    alloc: Global,
    mine: &mut Accumulator,
    theirs: &Accumulator,
) -> Result<(), NoMemory>
    ensures { OnOk result (aggregate_of (accumulator_view mine.old) ≡ aggregate_of (accumulator_view theirs.now)
        → accumulator_view mine.new ≡ join (accumulator_view mine.old) (accumulator_view theirs.now)) }
{
    match theirs {
        Accumulator::Count(count) => join_count(mine, *count),
        Accumulator::Sum(sum) => join_sum(mine, *sum),
        Accumulator::Least(value) => take_held(alloc, mine, Fold::Least, value),
        Accumulator::Greatest(value) => take_held(alloc, mine, Fold::Greatest, value),
    }
}

/// The aggregate of which an accumulator is.
pub(crate) fn fold_of(gathered: &Accumulator) -> Fold
    ensures { fold_view result ≡ aggregate_of (accumulator_view gathered.now) }
{
    match gathered {
        Accumulator::Count(_) => Fold::Count,
        Accumulator::Sum(_) => Fold::Sum,
        Accumulator::Least(_) => Fold::Least,
        Accumulator::Greatest(_) => Fold::Greatest,
    }
}
