//! Values that are taken one after another.

ghost use Rattle.std.specs.Prelude.{◌≡◌, map, length, true, IfOk};
ghost use Rattle.std.specs.Int.{int_min, int_max};
ghost use Rattle.std.specs.List.{list_all};
ghost use Rattle.dr_meaning.specs.Record.{bool_value, int_value};
ghost use Rattle.dr_levels.specs.Texts.{is_text};
ghost use Rattle.dr_levels.specs.Dense.{text_values};
ghost use Rattle.dr_levels.specs.Lent.{lent_values};
ghost use Rattle.dr_partials.specs.Accumulators.{counted, summed, join};
ghost use Rattle.dr_group.specs.Views.{accumulator_view};
ghost use Rattle.dr_group.specs.Gathering.{Becomes};
ghost use Rattle.dr_group.specs.TakenValues.{take_each, is_counted, has_texts, sum_of, IsBest};

use crate::accumulator::{Accumulator, keep_greatest, keep_least};
use dr_levels::{TextPlace, ValueRef, ValuesRef};
use dr_memory::NoMemory;
use std::alloc::Global;

/// The least of some numbers.
fn least_of(numbers: &[i64]) -> Option<i64>
    ensures { IsBest int_min numbers.now result }
{
    let [first, rest @ ..] = numbers else {
        return None;
    };
    let mut least = *first;
    'rest: for number in rest {
        least = least.min(*number);
    }
    Some(least)
}

/// The greatest of some numbers.
fn greatest_of(numbers: &[i64]) -> Option<i64>
    ensures { IsBest int_max numbers.now result }
{
    let [first, rest @ ..] = numbers else {
        return None;
    };
    let mut greatest = *first;
    'rest: for number in rest {
        greatest = greatest.max(*number);
    }
    Some(greatest)
}

/// The sum of some numbers.
fn total_of(numbers: &[i64]) -> i128
    ensures { result ≡ sum_of numbers.now }
{
    let mut total = 0i128;
    'numbers: for number in numbers {
        total += i128::from(*number);
    }
    total
}

/// Adds numbers to a sum.
fn add_numbers(sum: &mut Option<i128>, numbers: &[i64]) -> Result<(), NoMemory>
    ensures { Becomes (summed sum.old) (summed sum.new)
        (take_each (summed sum.old) (map int_value numbers.now)) result }
{
    if numbers.is_empty() {
        return Ok(());
    }
    let total = total_of(numbers);
    match *sum {
        None => *sum = Some(total),
        Some(so_far) => {
            let Some(together) = so_far.checked_add(total) else {
                return Err(NoMemory);
            };
            *sum = Some(together);
        }
    }
    Ok(())
}

impl Accumulator {
    /// Whether it is a count.
    fn counts(&self) -> bool
        ensures { result ≡ is_counted (accumulator_view self.now) }
    {
        match self {
            Accumulator::Count(_) => true,
            Accumulator::Sum(_) | Accumulator::Least(_) | Accumulator::Greatest(_) => false,
        }
    }

    /// Takes so many rows.
    ///
    /// Errors: want of room: a count is below 2^64. Nothing has changed then.
    pub fn take_rows(&mut self, rows: u64) -> Result<(), NoMemory>
        ensures { Becomes (accumulator_view self.old) (accumulator_view self.new)
            (join (accumulator_view self.old) (counted rows)) result }
    {
        if let Accumulator::Count(count) = self {
            let Some(more) = count.checked_add(rows) else {
                return Err(NoMemory);
            };
            *count = more;
        }
        Ok(())
    }

    /// Takes numbers, one after another.
    fn take_numbers(&mut self, alloc: Global, numbers: &[i64]) -> Result<(), NoMemory>
        ensures { IfOk result (λ done. accumulator_view self.new
            ≡ take_each (accumulator_view self.old) (map int_value numbers.now)) }
    {
        match self {
            Accumulator::Count(_) => self.take_rows(numbers.len() as u64),
            Accumulator::Sum(sum) => add_numbers(sum, numbers),
            Accumulator::Least(least) => match least_of(numbers) {
                None => Ok(()),
                Some(number) => keep_least(alloc, least, ValueRef::Int(number)),
            },
            Accumulator::Greatest(greatest) => match greatest_of(numbers) {
                None => Ok(()),
                Some(number) => keep_greatest(alloc, greatest, ValueRef::Int(number)),
            },
        }
    }

    /// Takes truth values, one after another.
    fn take_truths(&mut self, alloc: Global, truths: &[bool]) -> Result<(), NoMemory>
        ensures { IfOk result (λ done. accumulator_view self.new
            ≡ take_each (accumulator_view self.old) (map bool_value truths.now)) }
    {
        if self.counts() {
            return self.take_rows(truths.len() as u64);
        }
        'truths: for truth in truths {
            self.take_value(alloc, ValueRef::Bool(*truth))?;
        }
        Ok(())
    }

    /// Takes texts, one after another.
    fn take_texts(
        &mut self,
        alloc: Global,
        bytes: &[u8],
        places: &[TextPlace],
    ) -> Result<(), NoMemory>
        requires { list_all (is_text bytes.now) places.now ≡ true }
        ensures { IfOk result (λ done. accumulator_view self.new
            ≡ take_each (accumulator_view self.old) (text_values bytes.now places.now)) }
    {
        if self.counts() {
            return self.take_rows(places.len() as u64);
        }
        'places: for place in places {
            let start = place.start as usize;
            let text = &bytes[start..start + place.length as usize];
            self.take_value(
                alloc,
                ValueRef::Text(unsafe { str::from_utf8_unchecked(text) }),
            )?;
        }
        Ok(())
    }

    /// Takes values, one after another.
    ///
    /// Errors: want of memory, or of room: a count is below 2^64, a sum within 128 bits.
    pub fn take_values(&mut self, alloc: Global, values: ValuesRef<'_>) -> Result<(), NoMemory>
        requires { has_texts values ≡ true }
        ensures { IfOk result (λ done. accumulator_view self.new
            ≡ take_each (accumulator_view self.old) (lent_values values.entry)) }
    {
        match values {
            ValuesRef::Bools(truths) => self.take_truths(alloc, truths),
            ValuesRef::Integers(numbers) => self.take_numbers(alloc, numbers),
            ValuesRef::Texts { bytes, places } => self.take_texts(alloc, bytes, places),
        }
    }
}
