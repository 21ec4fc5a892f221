//! What is taken of a row.

ghost use Rattle.std.specs.Prelude.{◌≡◌, option_map, IfOk, IfSome};
ghost use Rattle.dr_meaning.specs.BoundExpression.{number_type, text_type};
ghost use Rattle.dr_levels.specs.Views.{lent_value};
ghost use Rattle.dr_scalar.specs.Slots.{of_type, slot_value};
ghost use Rattle.dr_scalar.specs.Views.{evaluated_view};
ghost use Rattle.dr_group.specs.Groups.{taken_view};
ghost use Rattle.dr_within.specs.Takings.{taking_view, value_read, taken_with, aggregate_for};
ghost use Rattle.dr_within.specs.Late.{taken_for as meant_taken};

use crate::keys::slot;
use dr_group::Taken;
use dr_levels::ValueRef;
use dr_memory::NoMemory;
use dr_plan::{Expr, Number, TextOf};
use dr_scalar::{Evaluated, eval};
use std::alloc::Global;

/// What is taken of each of some rows into its group. The numbers are those of aggregates.
#[derive(Clone, Copy)]
pub(crate) enum Taking<'p> {
    /// Nothing: the group is made where there is none.
    Nothing,
    /// The row, whatever its values.
    Row(u32),
    /// The value of an expression in the row.
    Value(u32, &'p Expr),
}

/// The value that is taken of what was read last of each leaf, where it isn't NULL.
#[inline(always)]
pub(crate) fn value_of<'a>(
    alloc: Global,
    taking: Taking<'a>,
    slots: &[Option<ValueRef<'a>>],
) -> Result<Option<Evaluated<'a>>, NoMemory>
    ensures { IfOk result (λ v. option_map evaluated_view v
        ≡ value_read (taking_view taking.entry) (slot_value slots.now)) }
{
    match taking {
        Taking::Nothing | Taking::Row(_) => Ok(None),
        Taking::Value(_, expression) => eval(alloc, expression, slots),
    }
}

/// What was read last of a leaf, where it is a whole number.
#[inline(always)]
fn number_in<'a>(slots: &[Option<ValueRef<'a>>], leaf: u32) -> Option<ValueRef<'a>>
    ensures { option_map lent_value result ≡ of_type number_type (slot_value slots.now leaf) }
{
    match slot(slots, leaf) {
        Some(ValueRef::Int(number)) => Some(ValueRef::Int(number)),
        Some(ValueRef::Bool(_) | ValueRef::Text(_)) | None => None,
    }
}

/// What was read last of a leaf, where it is a text.
#[inline(always)]
fn text_in<'a>(slots: &[Option<ValueRef<'a>>], leaf: u32) -> Option<ValueRef<'a>>
    ensures { option_map lent_value result ≡ of_type text_type (slot_value slots.now leaf) }
{
    match slot(slots, leaf) {
        Some(ValueRef::Text(text)) => Some(ValueRef::Text(text)),
        Some(ValueRef::Bool(_) | ValueRef::Int(_)) | None => None,
    }
}

/// The value that is taken of what was read last of each leaf, where nothing has to be computed: a leaf's own, or none.
#[inline(always)]
pub(crate) fn read_of<'a>(
    taking: Taking<'_>,
    slots: &[Option<ValueRef<'a>>],
) -> Option<Option<ValueRef<'a>>>
    ensures { IfSome result (λ v. option_map lent_value v
        ≡ value_read (taking_view taking.entry) (slot_value slots.now)) }
{
    match taking {
        Taking::Nothing | Taking::Row(_) => Some(None),
        Taking::Value(_, expression) => match expression {
            Expr::Number(Number::Leaf(leaf)) => Some(number_in(slots, *leaf)),
            Expr::Text(TextOf::Leaf(leaf)) => Some(text_in(slots, *leaf)),
            _ => None,
        },
    }
}

/// A value or NULL, lent.
#[inline(always)]
pub(crate) fn lent<'a>(value: &'a Option<Evaluated<'_>>) -> Option<ValueRef<'a>>
    ensures { option_map lent_value result ≡ option_map evaluated_view value.now }
{
    match value {
        Some(value) => Some(value.lend()),
        None => None,
    }
}

/// What is taken, if its value is this one.
#[inline(always)]
pub(crate) fn taken_as<'a>(
    taking: Taking<'_>,
    value: &'a Option<Evaluated<'_>>,
) -> Option<Taken<'a>>
    ensures { option_map taken_view result
        ≡ taken_with (taking_view taking.entry) (option_map evaluated_view value.now) }
{
    match taking {
        Taking::Nothing => None,
        Taking::Row(aggregate) | Taking::Value(aggregate, _) => Some(Taken {
            aggregate,
            value: lent(value),
        }),
    }
}

/// For which aggregate something is taken, if for one.
#[inline(always)]
pub(crate) fn aggregate_of(taking: Taking<'_>) -> Option<u32>
    ensures { result ≡ aggregate_for (taking_view taking.entry) }
{
    match taking {
        Taking::Nothing => None,
        Taking::Row(aggregate) | Taking::Value(aggregate, _) => Some(aggregate),
    }
}

/// What is taken for an aggregate, if for one, where its value is this one.
#[inline(always)]
pub(crate) fn taken_for<'a>(
    aggregate: Option<u32>,
    value: Option<ValueRef<'a>>,
) -> Option<Taken<'a>>
    ensures { option_map taken_view result ≡ meant_taken aggregate (option_map lent_value value.entry) }
{
    match aggregate {
        None => None,
        Some(aggregate) => Some(Taken { aggregate, value }),
    }
}
