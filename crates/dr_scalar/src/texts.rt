//! Texts.

ghost use Rattle.std.specs.Prelude.{◌≡◌, IfOk, option_map, string_bytes};
ghost use Rattle.dr_scalar.specs.Appending.{Appends, IsNullOrText};
ghost use Rattle.dr_scalar.specs.OverSlots.{text_over};
ghost use Rattle.dr_scalar.specs.Slots.{slot_value};
ghost use Rattle.dr_scalar.specs.Views.{text_value_view};

use crate::slots::text_in;
use dr_levels::ValueRef;
use dr_memory::NoMemory;
use dr_plan::TextOf;
use std::alloc::Global;
use std::borrow::CowStr;

/// A text's value, where it isn't NULL: lent where it is a leaf's or a literal, and made where texts are joined.
///
/// Errors: want of memory alone.
#[inline]
pub(crate) fn text_of<'v>(
    alloc: Global,
    text: &'v TextOf,
    row: &[Option<ValueRef<'v>>],
) -> Result<Option<CowStr<'v, Global>>, NoMemory>
    ensures { IfOk result (λ v. option_map text_value_view v ≡ text_over (slot_value row.now) text.now) }
{
    match text {
        TextOf::Literal(literal) => Ok(Some(CowStr::Borrowed(literal.as_str()))),
        TextOf::Leaf(leaf) => match text_in(row, *leaf) {
            Some(lent) => Ok(Some(CowStr::Borrowed(lent))),
            None => Ok(None),
        },
        TextOf::Join(_, _) => {
            let mut all = String::new(alloc);
            if push_text(text, row, &mut all)? {
                Ok(Some(CowStr::Owned(all)))
            } else {
                Ok(None)
            }
        }
    }
}

/// Whether a text is NULL.
#[inline]
pub(crate) fn text_is_null(text: &TextOf, row: &[Option<ValueRef<'_>>]) -> bool
    ensures { IsNullOrText (text_over (slot_value row.now) text.now) result }
{
    match text {
        TextOf::Literal(_) => false,
        TextOf::Leaf(leaf) => text_in(row, *leaf).is_none(),
        TextOf::Join(left, right) => text_is_null(left, row) || text_is_null(right, row),
    }
}

/// Appends a text's value, and says whether it isn't NULL.
fn push_text(
    text: &TextOf,
    row: &[Option<ValueRef<'_>>],
    all: &mut String,
) -> Result<bool, NoMemory>
    ensures { IfOk result (λ there. Appends (text_over (slot_value row.now) text.now) (string_bytes all.old)
        (string_bytes all.new) there) }
{
    match text {
        TextOf::Literal(literal) => {
            all.push_str(literal.as_str())?;
            Ok(true)
        }
        TextOf::Leaf(leaf) => match text_in(row, *leaf) {
            Some(lent) => {
                all.push_str(lent)?;
                Ok(true)
            }
            None => Ok(false),
        },
        TextOf::Join(left, right) => Ok(push_text(left, row, all)? && push_text(right, row, all)?),
    }
}
