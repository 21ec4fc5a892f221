//! The values of leaves, by their numbers.

ghost use Rattle.std.specs.Prelude.{◌≡◌, option_map};
ghost use Rattle.dr_meaning.specs.BoundExpression.{number_type, text_type, truth_type};
ghost use Rattle.dr_meaning.specs.Record.{bool_value, int_value, text_value};
ghost use Rattle.dr_levels.specs.Views.{lent_value};
ghost use Rattle.dr_scalar.specs.Slots.{of_type, slot_value};

use dr_levels::ValueRef;

/// The value in the slot of a leaf.
#[inline(always)]
fn slot<'v>(row: &[Option<ValueRef<'v>>], leaf: u32) -> Option<ValueRef<'v>>
    ensures { option_map lent_value result ≡ slot_value row.now leaf }
{
    match row.get(leaf as usize) {
        Some(value) => *value,
        None => None,
    }
}

/// The whole number in the slot of a leaf.
#[inline(always)]
pub(crate) fn number_in(row: &[Option<ValueRef<'_>>], leaf: u32) -> Option<i64>
    ensures { option_map int_value result ≡ of_type number_type (slot_value row.now leaf) }
{
    match slot(row, leaf) {
        Some(ValueRef::Int(number)) => Some(number),
        _ => None,
    }
}

/// The truth value in the slot of a leaf.
#[inline(always)]
pub(crate) fn truth_in(row: &[Option<ValueRef<'_>>], leaf: u32) -> Option<bool>
    ensures { option_map bool_value result ≡ of_type truth_type (slot_value row.now leaf) }
{
    match slot(row, leaf) {
        Some(ValueRef::Bool(truth)) => Some(truth),
        _ => None,
    }
}

/// The text in the slot of a leaf.
#[inline(always)]
pub(crate) fn text_in<'v>(row: &[Option<ValueRef<'v>>], leaf: u32) -> Option<&'v str>
    ensures { option_map (λ t. text_value t.now) result ≡ of_type text_type (slot_value row.now leaf) }
{
    match slot(row, leaf) {
        Some(ValueRef::Text(text)) => Some(text),
        _ => None,
    }
}
