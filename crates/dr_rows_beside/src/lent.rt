//! Values that are lent, one by one.

ghost use Rattle.std.specs.Prelude.{◌≡◌, ◌<◌, ◌+◌, ◌∷◌, length, drop, true};
ghost use Rattle.dr_levels.specs.Views.{lent_value};
ghost use Rattle.dr_levels.specs.Lent.{lent_values};
ghost use Rattle.dr_levels.specs.Texts.{is_text, bytes_at};
ghost use Rattle.dr_rows_beside.specs.Lent.{has_texts};

use dr_levels::{TextPlace, ValueRef, ValuesRef};

/// The text at a place of a buffer.
#[inline(always)]
fn text_at<'r>(bytes: &'r [u8], place: TextPlace) -> &'r str
    requires { is_text bytes.now place ≡ true }
    ensures { result.now ≡ bytes_at bytes.now place }
{
    let from = place.start as usize;
    let text = &bytes[from..from + place.length as usize];
    unsafe { str::from_utf8_unchecked(text) }
}

/// The value of this number.
#[inline(always)]
pub(crate) fn value_of<'r>(values: ValuesRef<'r>, number: usize) -> ValueRef<'r>
    requires within { number < length (lent_values values) }
    requires texts { has_texts values ≡ true }
    ensures { drop number (lent_values values.entry)
        ≡ lent_value result ∷ drop (number + 1) (lent_values values.entry) }
{
    match values {
        ValuesRef::Bools(truths) => ValueRef::Bool(truths[number]),
        ValuesRef::Integers(numbers) => {
            let value = numbers[number];
            ValueRef::Int(value)
        }
        ValuesRef::Texts { bytes, places } => {
            let place = places[number];
            ValueRef::Text(text_at(bytes, place))
        }
    }
}
