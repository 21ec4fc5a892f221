//! The values of triplets.

ghost use Rattle.std.specs.Prelude.{◌≡◌, option_map};
ghost use Rattle.dr_meaning.specs.Record as record_tree;
ghost use Rattle.dr_nested.specs.Views.{kind_view};
ghost use Rattle.dr_levels.specs.Views.{lent_value};
ghost use Rattle.dr_walk.specs.Standing.{fits as meant_fits};

use dr_levels::ValueRef;
use dr_nested::Kind;

/// Whether whole numbers of a kind include this one.
#[inline(always)]
fn is_number_of(kind: Kind, number: i64) -> bool
    ensures { result ≡ record_tree.is_of_kind (kind_view kind) (record_tree.int_value number) }
{
    match kind {
        Kind::I32 => i32::try_from(number).is_ok(),
        Kind::I64 => true,
        Kind::Bool | Kind::Text => false,
    }
}

/// Whether a text is of a kind.
#[inline(always)]
fn is_text_of(kind: Kind, text: &str) -> bool
    ensures { result ≡ record_tree.is_of_kind (kind_view kind) (record_tree.text_value text.now) }
{
    match kind {
        Kind::Text => true,
        Kind::Bool | Kind::I32 | Kind::I64 => false,
    }
}

/// Whether a value is of a kind, and a whole number in its range.
#[inline(always)]
fn is_of_kind(kind: Kind, value: ValueRef<'_>) -> bool
    ensures { result ≡ record_tree.is_of_kind (kind_view kind) (lent_value value.entry) }
{
    match value {
        ValueRef::Bool(_) => matches!(kind, Kind::Bool),
        ValueRef::Int(number) => is_number_of(kind, number),
        ValueRef::Text(text) => is_text_of(kind, text),
    }
}

/// Whether there is a value of this kind, or none where no kind is given.
#[inline(always)]
pub fn fits(kind: Option<Kind>, value: Option<ValueRef<'_>>) -> bool
    ensures { result ≡ meant_fits (option_map kind_view kind) (option_map lent_value value.entry) }
{
    match (kind, value) {
        (None, None) => true,
        (Some(kind), Some(value)) => is_of_kind(kind, value),
        (None, Some(_)) => false,
        (Some(_), None) => false,
    }
}
