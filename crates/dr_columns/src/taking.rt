//! What aggregates take of rows.

ghost use Rattle.std.specs.Prelude.{◌≡◌, ◌<◌, [], ◌∷◌, length, map, option_map, replicate, true, Some, IfOk, IfSome};
ghost use Rattle.std.specs.List.{slice_get};
ghost use Rattle.dr_meaning.specs.Record.{int_value};
ghost use Rattle.dr_meaning.specs.BoundExpression.{number_type, text_type};
ghost use Rattle.dr_levels.specs.Views.{lent_value};
ghost use Rattle.dr_group.specs.Groups.{put_of};
ghost use Rattle.dr_group.specs.ManyTaken.{many_view, many_puts};
ghost use Rattle.dr_group.specs.Maps.{gatherings_view, tuples_view};
ghost use Rattle.dr_scalar.specs.OverSlots.{expr_over};
ghost use Rattle.dr_scalar.specs.Slots.{of_type, slot_value};
ghost use Rattle.dr_scalar.specs.Views.{evaluated_view};
ghost use Rattle.dr_rows_beside.specs.ExprRows.{value_in};
ghost use Rattle.dr_columns.specs.Numbers.{put_at, row_puts, value_puts, tuples_at, are_among, HasPut};
ghost use Rattle.dr_rows_beside.specs.RowsView.{rows_view};

use crate::keys::slot;
use crate::numbering::short_number;
use dr_group::{GroupMap, Many, Taken};
use dr_levels::ValueRef;
use dr_memory::NoMemory;
use dr_plan::{Aggregate, Expr, Number, TextOf};
use dr_rows_beside::Rows;
use dr_scalar::{Evaluated, eval};
use std::alloc::Global;

/// An aggregate that takes of rows, by its number.
#[derive(Clone, Copy)]
pub(crate) struct Taking<'p> {
    pub(crate) number: u32,
    pub(crate) aggregate: &'p Aggregate,
}

ghost use Rattle.dr_columns.specs.Takings.{taking_view, takings_view, record_puts, end_puts};

/// What a row has of a leaf, where it is a whole number.
#[inline(always)]
fn number_in<'a>(slots: &[Option<ValueRef<'a>>], leaf: u32) -> Option<ValueRef<'a>>
    ensures { option_map lent_value result ≡ of_type number_type (slot_value slots.now leaf) }
{
    match slot(slots, leaf) {
        Some(ValueRef::Int(number)) => Some(ValueRef::Int(number)),
        Some(ValueRef::Bool(_) | ValueRef::Text(_)) | None => None,
    }
}

/// What a row has of a leaf, where it is a text.
#[inline(always)]
fn text_in<'a>(slots: &[Option<ValueRef<'a>>], leaf: u32) -> Option<ValueRef<'a>>
    ensures { option_map lent_value result ≡ of_type text_type (slot_value slots.now leaf) }
{
    match slot(slots, leaf) {
        Some(ValueRef::Text(text)) => Some(ValueRef::Text(text)),
        Some(ValueRef::Bool(_) | ValueRef::Int(_)) | None => None,
    }
}

/// The value of an expression in a row, where it is a leaf's own.
#[inline(always)]
fn read_of<'a>(expression: &Expr, slots: &[Option<ValueRef<'a>>]) -> Option<Option<ValueRef<'a>>>
    ensures { IfSome result (λ v. option_map lent_value v ≡ expr_over (slot_value slots.now) expression.now) }
{
    match expression {
        Expr::Number(Number::Leaf(leaf)) => Some(number_in(slots, *leaf)),
        Expr::Text(TextOf::Leaf(leaf)) => Some(text_in(slots, *leaf)),
        _ => None,
    }
}

/// A value or NULL, lent.
#[inline(always)]
fn lent<'a>(value: &'a Option<Evaluated<'_>>) -> Option<ValueRef<'a>>
    ensures { option_map lent_value result ≡ option_map evaluated_view value.now }
{
    match value {
        Some(value) => Some(value.lend()),
        None => None,
    }
}

/// Puts a value for an aggregate into the group of a number.
///
/// Errors: want of memory, or of room for a count or a sum.
#[inline(always)]
pub(crate) fn put_value(
    alloc: Global,
    aggregate: u32,
    value: Option<ValueRef<'_>>,
    group: u32,
    groups: &mut GroupMap,
) -> Result<(), NoMemory>
    requires { group < length (tuples_view groups.old) }
    ensures put { IfOk result (λ done. HasPut groups.old
        (put_at (tuples_view groups.old) group aggregate (option_map lent_value value.entry) ∷ []) groups.new) }
    ensures gatherings { gatherings_view groups.new ≡ gatherings_view groups.old }
    ensures tuples { tuples_view groups.new ≡ tuples_view groups.old }
{
    match value {
        None => put_integer(alloc, aggregate, None, group, groups),
        Some(ValueRef::Int(integer)) => put_integer(alloc, aggregate, Some(integer), group, groups),
        Some(ValueRef::Bool(_) | ValueRef::Text(_)) => {
            put_other(alloc, aggregate, value, group, groups)
        }
    }
}

/// Puts an integer, or NULL, for an aggregate into the group of a number.
#[inline(always)]
fn put_integer(
    alloc: Global,
    aggregate: u32,
    integer: Option<i64>,
    group: u32,
    groups: &mut GroupMap,
) -> Result<(), NoMemory>
    requires { group < length (tuples_view groups.old) }
    ensures put { IfOk result (λ done. HasPut groups.old
        (put_at (tuples_view groups.old) group aggregate (option_map int_value integer) ∷ []) groups.new) }
    ensures gatherings { gatherings_view groups.new ≡ gatherings_view groups.old }
    ensures tuples { tuples_view groups.new ≡ tuples_view groups.old }
{
    groups.take_integer(alloc, group as usize, aggregate, integer)
}

/// Puts a value of any kind for an aggregate into the group of a number.
#[inline(never)]
fn put_other(
    alloc: Global,
    aggregate: u32,
    value: Option<ValueRef<'_>>,
    group: u32,
    groups: &mut GroupMap,
) -> Result<(), NoMemory>
    requires { group < length (tuples_view groups.old) }
    ensures put { IfOk result (λ done. HasPut groups.old
        (put_at (tuples_view groups.old) group aggregate (option_map lent_value value.entry) ∷ []) groups.new) }
    ensures gatherings { gatherings_view groups.new ≡ gatherings_view groups.old }
    ensures tuples { tuples_view groups.new ≡ tuples_view groups.old }
{
    groups.take_in(alloc, group as usize, Some(Taken { aggregate, value }))
}

/// Puts values for an aggregate, one after another, into the group without keys.
///
/// Errors: want of memory, or of room for a count or a sum.
pub(crate) fn put_many(
    alloc: Global,
    aggregate: u32,
    many: Many<'_>,
    group: u32,
    groups: &mut GroupMap,
) -> Result<(), NoMemory>
    requires { slice_get (tuples_view groups.old) group ≡ Some [] }
    ensures put { IfOk result (λ done. HasPut groups.old (many_puts [] aggregate (many_view many.entry)) groups.new) }
    ensures gatherings { gatherings_view groups.new ≡ gatherings_view groups.old }
    ensures tuples { tuples_view groups.new ≡ tuples_view groups.old }
{
    groups.take_many(alloc, group as usize, aggregate, many)
}

/// Puts the value that is computed for a row.
fn put_computed<'a>(
    alloc: Global,
    aggregate: u32,
    expression: &'a Expr,
    slots: &[Option<ValueRef<'a>>],
    group: u32,
    groups: &mut GroupMap,
) -> Result<(), NoMemory>
    requires { group < length (tuples_view groups.old) }
    ensures put { IfOk result (λ done. HasPut groups.old (put_at (tuples_view groups.old) group aggregate
        (expr_over (slot_value slots.now) expression.now) ∷ []) groups.new) }
    ensures gatherings { gatherings_view groups.new ≡ gatherings_view groups.old }
    ensures tuples { tuples_view groups.new ≡ tuples_view groups.old }
{
    let value = eval(alloc, expression, slots)?;
    put_value(alloc, aggregate, lent(&value), group, groups)
}

/// Puts the value of an expression in a row.
#[inline(always)]
pub(crate) fn put_taken<'a>(
    alloc: Global,
    aggregate: u32,
    expression: &'a Expr,
    slots: &[Option<ValueRef<'a>>],
    group: u32,
    groups: &mut GroupMap,
) -> Result<(), NoMemory>
    requires { group < length (tuples_view groups.old) }
    ensures put { IfOk result (λ done. HasPut groups.old (put_at (tuples_view groups.old) group aggregate
        (expr_over (slot_value slots.now) expression.now) ∷ []) groups.new) }
    ensures gatherings { gatherings_view groups.new ≡ gatherings_view groups.old }
    ensures tuples { tuples_view groups.new ≡ tuples_view groups.old }
{
    match read_of(expression, slots) {
        Some(value) => put_value(alloc, aggregate, value, group, groups),
        None => put_computed(alloc, aggregate, expression, slots, group, groups),
    }
}

/// Takes a row for an aggregate into each of the groups of some numbers.
///
/// Errors: want of room for a count.
#[inline(never)]
pub(crate) fn take_rows(
    alloc: Global,
    aggregate: u32,
    numbers: &[u32],
    groups: &mut GroupMap,
) -> Result<(), NoMemory>
    requires { are_among (length (tuples_view groups.old)) numbers.now ≡ true }
    ensures put { IfOk result (λ done. HasPut groups.old
        (row_puts aggregate (tuples_at (tuples_view groups.old) numbers.now)) groups.new) }
    ensures gatherings { gatherings_view groups.new ≡ gatherings_view groups.old }
    ensures tuples { tuples_view groups.new ≡ tuples_view groups.old }
{
    'numbers: for number in numbers {
        put_value(alloc, aggregate, None, *number, groups)?;
    }
    Ok(())
}

/// Takes the value of an expression in each of some rows into its group, by the groups' numbers.
///
/// Errors: want of memory, or of room for a count or a sum.
pub(crate) fn take_values<'a>(
    alloc: Global,
    aggregate: u32,
    expression: &'a Expr,
    rows: &mut Rows<'a, '_>,
    numbers: &[u32],
    groups: &mut GroupMap,
) -> Result<(), NoMemory>
    requires { are_among (length (tuples_view groups.old)) numbers.now ≡ true }
    ensures put { IfOk result (λ done. HasPut groups.old (value_puts aggregate
        (tuples_at (tuples_view groups.old) numbers.now) (map (value_in expression.now) (rows_view rows.old)))
        groups.new) }
    ensures gatherings { gatherings_view groups.new ≡ gatherings_view groups.old }
    ensures tuples { tuples_view groups.new ≡ tuples_view groups.old }
{
    'numbers: for number in numbers {
        let Some(_) = rows.next() else {
            return Ok(());
        };
        put_taken(alloc, aggregate, expression, &rows.slots, *number, groups)?;
    }
    Ok(())
}

/// Takes of each of so many records, whatever is in them, for an aggregate that reads no leaf.
///
/// Errors: want of memory, or of room for a count or a sum.
fn take_record_values(
    alloc: Global,
    taking: Taking<'_>,
    records: usize,
    group: u32,
    groups: &mut GroupMap,
) -> Result<(), NoMemory>
    requires { slice_get (tuples_view groups.old) group ≡ Some [] }
    ensures put { IfOk result (λ done. HasPut groups.old (record_puts records (taking_view taking.entry)) groups.new) }
    ensures gatherings { gatherings_view groups.new ≡ gatherings_view groups.old }
    ensures tuples { tuples_view groups.new ≡ tuples_view groups.old }
{
    match taking.aggregate {
        Aggregate::Rows => { put_many(alloc, taking.number, Many::Nulls(records), group, groups) }
        Aggregate::Of(_, expression) => {
            let value = eval(alloc, expression, &[])?;
            put_times(alloc, taking.number, lent(&value), records, group, groups)
        }
    }
}

/// Puts a value so many times.
fn put_times(
    alloc: Global,
    aggregate: u32,
    value: Option<ValueRef<'_>>,
    times: usize,
    group: u32,
    groups: &mut GroupMap,
) -> Result<(), NoMemory>
    requires { slice_get (tuples_view groups.old) group ≡ Some [] }
    ensures put { IfOk result (λ done. HasPut groups.old (replicate times
        (put_of [] (Some (record { aggregate = aggregate; value = option_map lent_value value.entry })))) groups.new) }
    ensures gatherings { gatherings_view groups.new ≡ gatherings_view groups.old }
    ensures tuples { tuples_view groups.new ≡ tuples_view groups.old }
{
    'times: for _ in 0..times {
        put_value(alloc, aggregate, value, group, groups)?;
    }
    Ok(())
}

/// Takes of each of so many records for aggregates that read no leaf. They are all of the one group.
///
/// Errors: want of memory, or of room for a count, a sum or a number of a group.
pub(crate) fn take_records(
    alloc: Global,
    takings: &[Taking<'_>],
    records: usize,
    groups: &mut GroupMap,
) -> Result<(), NoMemory>
    ensures put { IfOk result (λ done. HasPut groups.old (end_puts records (takings_view takings.now)) groups.new) }
    ensures gatherings { gatherings_view groups.new ≡ gatherings_view groups.old }
{
    if takings.is_empty() {
        return Ok(());
    }
    let group = short_number(groups.group_of(alloc, &[])?)?;
    'takings: for taking in takings {
        take_record_values(alloc, *taking, records, group, groups)?;
    }
    Ok(())
}
