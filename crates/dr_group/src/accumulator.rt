//! Accumulators: what an aggregate has gathered so far.

ghost use Rattle.std.specs.Prelude.{◌≡◌, ◌+ℤ◌, ◌∷◌, [], if◌then◌else◌};
ghost use Rattle.dr_meaning.specs.Query.{integer_sum, smaller, larger};
ghost use Rattle.dr_levels.specs.Views.{lent_value};
ghost use Rattle.dr_partials.specs.Accumulators.{join_options, take_row, take_value};
ghost use Rattle.dr_group.specs.Views.{accumulator_view, lent_cell, cell_view};
ghost use Rattle.dr_group.specs.Gathering.{Becomes, empty_of, gathering_view, take_by};
ghost use Rattle.dr_group.specs.RowPartials.{gathered_of_rows};

use crate::gathering::Gathering;
use crate::orders::value_order;
use dr_levels::ValueRef;
use dr_memory::NoMemory;
use dr_nested::Value;
use dr_plan::Fold;
use std::alloc::Global;

/// What an aggregate has gathered: how many, the exact sum, the least or the greatest value; the last three have none
/// where there was no value.
#[derive(Drop)]
pub enum Accumulator {
    Count(u64),
    Sum(Option<i128>),
    Least(Option<Value>),
    Greatest(Option<Value>),
}

/// That of rows, of which there are none.
impl Default for Accumulator {
    fn default() -> Accumulator {
        Accumulator::Count(0)
    }
}

impl Accumulator {
    /// Of no values.
    pub fn new(gathering: Gathering) -> Accumulator
        ensures { accumulator_view result ≡ empty_of gathering }
    {
        match gathering {
            Gathering::Rows | Gathering::Values(Fold::Count) => Accumulator::Count(0),
            Gathering::Values(Fold::Sum) => Accumulator::Sum(None),
            Gathering::Values(Fold::Least) => Accumulator::Least(None),
            Gathering::Values(Fold::Greatest) => Accumulator::Greatest(None),
        }
    }

    /// Of so many rows, of which no value is taken.
    pub(crate) fn of_rows(gathering: Gathering, rows: u64) -> Accumulator
        ensures { accumulator_view result ≡ gathered_of_rows rows (gathering_view gathering) }
    {
        match gathering {
            Gathering::Rows => Accumulator::Count(rows),
            Gathering::Values(_) => Accumulator::new(gathering),
        }
    }

    /// Takes a row with this value, or NULL.
    ///
    /// Errors: want of memory, or of room: a count is below 2^64, a sum within 128 bits. Nothing has changed then.
    #[inline(always)]
    pub fn take(
        &mut self,
        alloc: Global,
        gathering: Gathering,
        value: Option<ValueRef<'_>>,
    ) -> Result<(), NoMemory>
        ensures { Becomes (accumulator_view self.old) (accumulator_view self.new)
            (take_by gathering (lent_cell value.entry) (accumulator_view self.old)) result }
    {
        match (gathering, value) {
            (Gathering::Rows, _) => self.take_row(),
            (Gathering::Values(_), None) => Ok(()),
            (Gathering::Values(_), Some(value)) => self.take_value(alloc, value),
        }
    }

    /// Takes a row, whatever is in it.
    #[inline(always)]
    pub(crate) fn take_row(&mut self) -> Result<(), NoMemory>
        ensures { Becomes (accumulator_view self.old) (accumulator_view self.new)
            (take_row (accumulator_view self.old)) result }
    {
        if let Accumulator::Count(count) = self {
            let Some(more) = count.checked_add(1) else {
                return Err(NoMemory);
            };
            *count = more;
        }
        Ok(())
    }

    /// Takes a value.
    #[inline(always)]
    pub(crate) fn take_value(&mut self, alloc: Global, value: ValueRef<'_>) -> Result<(), NoMemory>
        ensures { Becomes (accumulator_view self.old) (accumulator_view self.new)
            (take_value (accumulator_view self.old) (Some (lent_value value.entry))) result }
    {
        match self {
            Accumulator::Count(_) => self.take_row(),
            Accumulator::Sum(sum) => add_number(sum, value),
            Accumulator::Least(least) => keep_least(alloc, least, value),
            Accumulator::Greatest(greatest) => keep_greatest(alloc, greatest, value),
        }
    }
}

/// Adds a number to a sum; what is no number counts as 0.
#[inline(always)]
fn add_number(sum: &mut Option<i128>, value: ValueRef<'_>) -> Result<(), NoMemory>
    ensures { Becomes sum.old sum.new (join_options (λ x y. x +ℤ y) sum.old
        (Some (integer_sum (lent_value value.entry ∷ [])))) result }
{
    let number = match value {
        ValueRef::Int(number) => i128::from(number),
        ValueRef::Bool(_) | ValueRef::Text(_) => 0,
    };
    match *sum {
        None => *sum = Some(number),
        Some(so_far) => {
            let Some(total) = so_far.checked_add(number) else {
                return Err(NoMemory);
            };
            *sum = Some(total);
        }
    }
    Ok(())
}

/// Keeps a value where it is less than the one that is held.
#[inline]
pub(crate) fn keep_least(
    alloc: Global,
    least: &mut Option<Value>,
    value: ValueRef<'_>,
) -> Result<(), NoMemory>
    ensures { Becomes (cell_view least.old) (cell_view least.new)
        (join_options smaller (cell_view least.old) (Some (lent_value value.entry))) result }
{
    if is_less(least, value) {
        *least = Some(value.to_value(alloc)?);
    }
    Ok(())
}

/// Keeps a value where it is greater than the one that is held.
#[inline]
pub(crate) fn keep_greatest(
    alloc: Global,
    greatest: &mut Option<Value>,
    value: ValueRef<'_>,
) -> Result<(), NoMemory>
    ensures { Becomes (cell_view greatest.old) (cell_view greatest.new)
        (join_options larger (cell_view greatest.old) (Some (lent_value value.entry))) result }
{
    if is_greater(greatest, value) {
        *greatest = Some(value.to_value(alloc)?);
    }
    Ok(())
}

/// Whether a value is less than the one that is held, if one is.
#[inline]
fn is_less(held: &Option<Value>, value: ValueRef<'_>) -> bool
    ensures { join_options smaller (cell_view held.now) (Some (lent_value value.entry))
        ≡ (if result then Some (lent_value value.entry) else cell_view held.now) }
{
    match held {
        None => true,
        Some(held) => value_order(value, ValueRef::of(held)).is_lt(),
    }
}

/// Whether a value is greater than the one that is held, if one is.
#[inline]
fn is_greater(held: &Option<Value>, value: ValueRef<'_>) -> bool
    ensures { join_options larger (cell_view held.now) (Some (lent_value value.entry))
        ≡ (if result then Some (lent_value value.entry) else cell_view held.now) }
{
    match held {
        None => true,
        Some(held) => value_order(ValueRef::of(held), value).is_lt(),
    }
}
