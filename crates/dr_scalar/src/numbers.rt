//! Whole numbers.

ghost use Rattle.std.specs.Prelude.{◌≡◌, option_map};
ghost use Rattle.dr_meaning.specs.Record.{int_value};
ghost use Rattle.dr_scalar.specs.OverSlots.{number_over};
ghost use Rattle.dr_scalar.specs.Slots.{slot_value};

use crate::slots::number_in;
use dr_levels::ValueRef;
use dr_plan::Number;

/// A number's value, where it isn't NULL.
#[cycle(numbers)]
#[inline(always)]
pub(crate) fn number_of(number: &Number, row: &[Option<ValueRef<'_>>]) -> Option<i64>
    ensures { option_map int_value result ≡ number_over (slot_value row.now) number.now }
{
    match number {
        Number::Literal(value) => Some(*value),
        Number::Leaf(leaf) => number_in(row, *leaf),
        _ => computed(number, row),
    }
}

/// The same, where operands may have to be computed.
#[cycle(numbers)]
fn computed(number: &Number, row: &[Option<ValueRef<'_>>]) -> Option<i64>
    ensures { option_map int_value result ≡ number_over (slot_value row.now) number.now }
{
    match number {
        Number::Literal(value) => Some(*value),
        Number::Leaf(leaf) => number_in(row, *leaf),
        Number::Negative(operand) => 0i64.checked_sub(number_of(operand, row)?),
        Number::Add(left, right) => number_of(left, row)?.checked_add(number_of(right, row)?),
        Number::Subtract(left, right) => number_of(left, row)?.checked_sub(number_of(right, row)?),
        Number::Multiply(left, right) => number_of(left, row)?.checked_mul(number_of(right, row)?),
    }
}
