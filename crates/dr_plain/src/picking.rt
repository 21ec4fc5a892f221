//! Values of a dictionary.

ghost use Rattle.std.specs.Prelude.{◌≡◌, ℕ, List, Some, None, Err, IfOk};
ghost use Rattle.dr_formats.specs.Plain as plain;
ghost use Rattle.dr_plain.specs.Views.{values_view, HasTexts};
ghost use Rattle.dr_plain.specs.Picking.{picked};

use crate::values::{PickFault, Values};
use std::alloc::Global;

/// The dictionary's values at these indices, in their order. Texts stand in the same bytes as the dictionary's.
///
/// Errors: an index is not below the dictionary's size; want of memory.
pub fn pick(alloc: Global, dictionary: &Values, indices: &[u32]) -> Result<Values, PickFault>
    ensures picked { IfOk result (λ v. (bytes : List ℕ) → plain.pick (values_view bytes dictionary.now) indices.now
        ≡ Some (values_view bytes v)) }
    ensures texts { IfOk result (λ v. (bytes : List ℕ) → HasTexts bytes dictionary.now → HasTexts bytes v) }
    ensures bad { result ≡ Err PickFault.BadIndex → (bytes : List ℕ)
        → plain.pick (values_view bytes dictionary.now) indices.now ≡ None }
{
    match dictionary {
        Values::Bools(bools) => Ok(Values::Bools(items_at(alloc, bools, indices)?)),
        Values::Integers(integers) => Ok(Values::Integers(items_at(alloc, integers, indices)?)),
        Values::Texts(texts) => Ok(Values::Texts(items_at(alloc, texts, indices)?)),
    }
}

/// The items at these indices.
fn items_at<T: Copy + Drop>(
    alloc: Global,
    items: &[T],
    indices: &[u32],
) -> Result<Vec<T>, PickFault>
    ensures picked { IfOk result (λ v. picked items.now indices.now ≡ Some v.items) }
    ensures bad { result ≡ Err PickFault.BadIndex → picked items.now indices.now ≡ None }
{
    let Ok(mut found) = Vec::with_capacity(alloc, indices.len()) else {
        return Err(PickFault::NoMemory);
    };
    'indices: for index in indices {
        let index = *index as usize;
        if index >= items.len() {
            return Err(PickFault::BadIndex);
        }
        found.push_reserved(items[index]);
    }
    Ok(found)
}
