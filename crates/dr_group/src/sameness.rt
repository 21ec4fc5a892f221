//! Whether lent cells and key tuples are the same as held ones.

ghost use Rattle.std.specs.Prelude.{◌≡◌, map, true, false};
ghost use Rattle.dr_nested.specs.Views.{value_view};
ghost use Rattle.dr_levels.specs.Views.{lent_value};
ghost use Rattle.dr_group.specs.Views.{lent_cell, cell_view};

use dr_levels::ValueRef;
use dr_nested::Value;

/// Whether a lent value and a held one are the same.
#[inline(always)]
fn is_same_value(left: ValueRef<'_>, right: &Value) -> bool
    ensures yes { result ≡ true → lent_value left.entry ≡ value_view right.now }
    ensures no { result ≡ false → lent_value left.entry ≡ value_view right.now → ⊥ }
{
    match (left, right) {
        (ValueRef::Bool(a), Value::Bool(b)) => a == *b,
        (ValueRef::Int(a), Value::Int(b)) => a == *b,
        (ValueRef::Text(a), Value::Text(b)) => a == b.as_str(),
        _ => false,
    }
}

/// Whether a lent cell and a held one are the same.
#[inline(always)]
fn is_same_cell(left: Option<ValueRef<'_>>, right: &Option<Value>) -> bool
    ensures yes { result ≡ true → lent_cell left.entry ≡ cell_view right.now }
    ensures no { result ≡ false → lent_cell left.entry ≡ cell_view right.now → ⊥ }
{
    match (left, right) {
        (None, None) => true,
        (Some(left), Some(right)) => is_same_value(left, right),
        (None, Some(_)) | (Some(_), None) => false,
    }
}

/// Whether a lent key tuple and a held one are the same.
#[inline(always)]
pub fn is_same_tuple(left: &[Option<ValueRef<'_>>], right: &[Option<Value>]) -> bool
    ensures yes { result ≡ true → map lent_cell left.now ≡ map cell_view right.now }
    ensures no { result ≡ false → map lent_cell left.now ≡ map cell_view right.now → ⊥ }
{
    if let ([left], [right]) = (left, right) {
        return is_same_cell(*left, right);
    }
    if left.len() != right.len() {
        return false;
    }
    'cells: for (number, cell) in left.iter().enumerate() {
        if !is_same_cell(*cell, &right[number]) {
            return false;
        }
    }
    true
}
