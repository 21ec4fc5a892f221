//! What a schema element says of a leaf or a field.

ghost use Rattle.std.specs.Prelude.{◌≡◌, true, false, Some, None, option_map};
ghost use Rattle.dr_formats.specs.FileSchema.{repetition_from, is_open_conversion, kind_from, is_kind};
ghost use Rattle.dr_meta.specs.Views.{item_view};
ghost use Rattle.dr_nested.specs.Views.{rep_view, kind_view};
ghost use Rattle.dr_open.specs.Places.{element_kind, is_repetition};

use dr_meta::SchemaItem;
use dr_nested::{Kind, Rep};

/// The repetition of a number: REQUIRED 0, OPTIONAL 1, REPEATED 2.
pub(crate) fn repetition(item: &SchemaItem<'_>) -> Option<Rep>
    ensures { option_map rep_view result ≡ repetition_from item.now.repetition }
{
    match item.repetition {
        Some(0) => Some(Rep::Required),
        Some(1) => Some(Rep::Optional),
        Some(2) => Some(Rep::Repeated),
        _ => None,
    }
}

/// Whether a converted type is open: DECIMAL 5, UINT_32 13, UINT_64 14, BSON 20 and INTERVAL 21 are not.
fn is_open_converted(converted: Option<i64>) -> bool
    ensures { result ≡ is_open_conversion converted }
{
    !matches!(converted, Some(5 | 13 | 14 | 20 | 21))
}

/// The kind of a type: BOOLEAN 0, INT32 1, INT64 2, BYTE_ARRAY 6.
fn kind_of(kind: i64) -> Option<Kind>
    ensures { option_map kind_view result ≡ kind_from kind }
{
    match kind {
        0 => Some(Kind::Bool),
        1 => Some(Kind::I32),
        2 => Some(Kind::I64),
        6 => Some(Kind::Text),
        _ => None,
    }
}

/// The kind of an element, where it is a leaf whose type and converted type are open.
pub(crate) fn open_kind(item: &SchemaItem<'_>) -> Option<Kind>
    ensures { option_map kind_view result ≡ element_kind (item_view item.now) }
{
    if is_open_converted(item.converted) {
        kind_of(item.kind?)
    } else {
        None
    }
}

/// Whether an element is such a leaf of this kind.
pub(crate) fn is_open_as(item: &SchemaItem<'_>, kind: Kind) -> bool
    ensures { result ≡ is_kind (kind_view kind) (element_kind (item_view item.now)) }
{
    match (open_kind(item), kind) {
        (Some(Kind::Bool), Kind::Bool) => true,
        (Some(Kind::I32), Kind::I32) => true,
        (Some(Kind::I64), Kind::I64) => true,
        (Some(Kind::Text), Kind::Text) => true,
        _ => false,
    }
}

/// Whether an element has this repetition.
pub(crate) fn has_repetition(item: &SchemaItem<'_>, rep: Rep) -> bool
    ensures { result ≡ is_repetition (rep_view rep) (repetition_from item.now.repetition) }
{
    repetition(item) == Some(rep)
}
