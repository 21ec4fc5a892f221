//! What two accumulators of one aggregate have gathered together.

ghost use Rattle.std.specs.Prelude.{◌≡◌, ◌≤◌, ◌^◌, ◌*◌, ◌+ℤ◌, if◌then◌else◌};
ghost use Rattle.dr_meaning.specs.Query.{smaller, larger};
ghost use Rattle.dr_partials.specs.Accumulators as meant;
ghost use Rattle.dr_partials.specs.PartialBounds.{CanBeOf, AllCanBeOf};
ghost use Rattle.dr_partials.specs.Partials.{join_all};
ghost use Rattle.dr_group.specs.Views.{accumulator_view, cell_view};
ghost use Rattle.dr_group.specs.Groups.{accumulators_view};

use crate::accumulator::Accumulator;
use crate::group::Accumulators;
use crate::orders::value_order;
use dr_levels::ValueRef;
use dr_nested::Value;
use std::mem;

/// Joins to an accumulator what another one of the same aggregate has gathered, which is used up.
pub fn join(mine: &mut Accumulator, theirs: &mut Accumulator)
    requires mine { CanBeOf (2 ^ 60) (accumulator_view mine.old) }
    requires theirs { CanBeOf (2 ^ 60) (accumulator_view theirs.old) }
    ensures { accumulator_view mine.new ≡ meant.join (accumulator_view mine.old) (accumulator_view theirs.old) }
{
    match theirs {
        Accumulator::Count(count) => join_count(mine, *count),
        Accumulator::Sum(sum) => join_sum(mine, *sum),
        Accumulator::Least(value) => join_least(mine, value),
        Accumulator::Greatest(value) => join_greatest(mine, value),
    }
}

fn join_count(mine: &mut Accumulator, more: u64)
    requires mine { CanBeOf (2 ^ 60) (accumulator_view mine.old) }
    requires theirs { more ≤ 2 ^ 60 }
    ensures { accumulator_view mine.new ≡ meant.join (accumulator_view mine.old) (meant.counted more) }
{
    match mine {
        Accumulator::Count(count) => *count += more,
        Accumulator::Sum(_) | Accumulator::Least(_) | Accumulator::Greatest(_) => {}
    }
}

fn join_sum(mine: &mut Accumulator, more: Option<i128>)
    requires mine { CanBeOf (2 ^ 60) (accumulator_view mine.old) }
    requires theirs { CanBeOf (2 ^ 60) (meant.summed more) }
    ensures { accumulator_view mine.new ≡ meant.join (accumulator_view mine.old) (meant.summed more) }
{
    match mine {
        Accumulator::Sum(sum) => *sum = sum_of(*sum, more),
        Accumulator::Count(_) | Accumulator::Least(_) | Accumulator::Greatest(_) => {}
    }
}

/// The sum of two sums, where there are any.
fn sum_of(left: Option<i128>, right: Option<i128>) -> Option<i128>
    requires left { CanBeOf (2 ^ 60) (meant.summed left) }
    requires right { CanBeOf (2 ^ 60) (meant.summed right) }
    ensures { result ≡ meant.join_options (λ x y. x +ℤ y) left right }
{
    match left {
        None => right,
        Some(left) => match right {
            None => Some(left),
            Some(right) => Some(left + right),
        },
    }
}

fn join_least(mine: &mut Accumulator, theirs: &mut Option<Value>)
    ensures { accumulator_view mine.new ≡ meant.join (accumulator_view mine.old)
        (meant.least_of (cell_view theirs.old)) }
{
    match mine {
        Accumulator::Least(value) => keep_smaller(value, theirs),
        Accumulator::Count(_) | Accumulator::Sum(_) | Accumulator::Greatest(_) => {}
    }
}

fn join_greatest(mine: &mut Accumulator, theirs: &mut Option<Value>)
    ensures { accumulator_view mine.new ≡ meant.join (accumulator_view mine.old)
        (meant.greatest_of (cell_view theirs.old)) }
{
    match mine {
        Accumulator::Greatest(value) => keep_larger(value, theirs),
        Accumulator::Count(_) | Accumulator::Sum(_) | Accumulator::Least(_) => {}
    }
}

fn keep_smaller(mine: &mut Option<Value>, theirs: &mut Option<Value>)
    ensures { cell_view mine.new ≡ meant.join_options smaller (cell_view mine.old) (cell_view theirs.old) }
{
    if is_smaller(mine, theirs) {
        mem::swap(mine, theirs);
    }
}

fn keep_larger(mine: &mut Option<Value>, theirs: &mut Option<Value>)
    ensures { cell_view mine.new ≡ meant.join_options larger (cell_view mine.old) (cell_view theirs.old) }
{
    if is_larger(mine, theirs) {
        mem::swap(mine, theirs);
    }
}

/// Whether the other value takes the place of this one as the least.
fn is_smaller(mine: &Option<Value>, theirs: &Option<Value>) -> bool
    ensures { meant.join_options smaller (cell_view mine.now) (cell_view theirs.now)
        ≡ (if result then cell_view theirs.now else cell_view mine.now) }
{
    match mine {
        None => true,
        Some(held) => match theirs {
            None => false,
            Some(value) => value_order(ValueRef::of(value), ValueRef::of(held)).is_lt(),
        },
    }
}

/// Whether the other value takes the place of this one as the greatest.
fn is_larger(mine: &Option<Value>, theirs: &Option<Value>) -> bool
    ensures { meant.join_options larger (cell_view mine.now) (cell_view theirs.now)
        ≡ (if result then cell_view theirs.now else cell_view mine.now) }
{
    match mine {
        None => true,
        Some(held) => match theirs {
            None => false,
            Some(value) => value_order(ValueRef::of(held), ValueRef::of(value)).is_lt(),
        },
    }
}

/// Joins the accumulators of two groups, one with one; what has no partner is dropped.
pub fn join_each(mine: &mut Accumulators, theirs: &mut Accumulators)
    requires mine { AllCanBeOf (2 ^ 60) (accumulators_view (mine.old).items) }
    requires theirs { AllCanBeOf (2 ^ 60) (accumulators_view (theirs.old).items) }
    ensures { accumulators_view (mine.new).items
        ≡ join_all (accumulators_view (mine.old).items) (accumulators_view (theirs.old).items) }
{
    mine.truncate(theirs.len());
    'places: for place in 0..mine.len() {
        join(&mut mine[place], &mut theirs[place]);
    }
}
