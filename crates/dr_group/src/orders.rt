//! The order of values, of cells and of key tuples.

ghost use Rattle.std.specs.Prelude.{◌≡◌, map};
ghost use Rattle.dr_meaning.specs.Query as meant;
ghost use Rattle.dr_levels.specs.Views.{lent_value};
ghost use Rattle.dr_group.specs.Views.{lent_cell, cell_view};

use dr_levels::ValueRef;
use dr_nested::Value;
use std::cmp::Ordering;

/// The order of two values: truth values, numbers, texts.
#[inline(always)]
pub fn value_order(left: ValueRef<'_>, right: ValueRef<'_>) -> Ordering
    ensures { result ≡ meant.value_order (lent_value left.entry) (lent_value right.entry) }
{
    match (left, right) {
        (ValueRef::Bool(a), ValueRef::Bool(b)) => a.cmp(&b),
        (ValueRef::Bool(_), _) => Ordering::Less,
        (_, ValueRef::Bool(_)) => Ordering::Greater,
        (ValueRef::Int(a), ValueRef::Int(b)) => a.cmp(&b),
        (ValueRef::Int(_), _) => Ordering::Less,
        (_, ValueRef::Int(_)) => Ordering::Greater,
        (ValueRef::Text(a), ValueRef::Text(b)) => a.cmp(b),
    }
}

/// The order of a lent cell and a held one: NULL before all values.
#[inline(always)]
fn cell_order(left: Option<ValueRef<'_>>, right: &Option<Value>) -> Ordering
    ensures { result ≡ meant.cell_order (lent_cell left.entry) (cell_view right.now) }
{
    match (left, right) {
        (None, None) => Ordering::Equal,
        (None, Some(_)) => Ordering::Less,
        (Some(_), None) => Ordering::Greater,
        (Some(a), Some(b)) => value_order(a, ValueRef::of(b)),
    }
}

/// The order of a lent key tuple and a held one: the first cells that differ decide.
#[inline(always)]
pub fn tuple_order(left: &[Option<ValueRef<'_>>], right: &[Option<Value>]) -> Ordering
    ensures { result ≡ meant.tuple_order (map lent_cell left.now) (map cell_view right.now) }
{
    'cells: for (number, cell) in left.iter().enumerate() {
        if number >= right.len() {
            return Ordering::Greater;
        }
        match cell_order(*cell, &right[number]) {
            Ordering::Equal => {}
            order => return order,
        }
    }
    left.len().cmp(&right.len())
}

/// The order of two held cells.
fn held_cell_order(left: &Option<Value>, right: &Option<Value>) -> Ordering
    ensures { result ≡ meant.cell_order (cell_view left.now) (cell_view right.now) }
{
    match left {
        None => cell_order(None, right),
        Some(value) => cell_order(Some(ValueRef::of(value)), right),
    }
}

/// The order of two held key tuples.
pub fn held_order(left: &[Option<Value>], right: &[Option<Value>]) -> Ordering
    ensures { result ≡ meant.tuple_order (map cell_view left.now) (map cell_view right.now) }
{
    'cells: for (number, cell) in left.iter().enumerate() {
        if number >= right.len() {
            return Ordering::Greater;
        }
        match held_cell_order(cell, &right[number]) {
            Ordering::Equal => {}
            order => return order,
        }
    }
    left.len().cmp(&right.len())
}
