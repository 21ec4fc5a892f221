//! Values of a dictionary.

ghost use Rattle.std.specs.Prelude.{◌≡◌, ℕ, List, Some, None, Err, IfOk};
ghost use Rattle.dr_plain.specs.Views.{values_view, HasTexts};
ghost use Rattle.dr_formats.specs.Plain as plain;

use dr_plain::{PickFault, Values, pick};
use std::alloc::Global;

/// As `pick`.
pub fn pick_again(alloc: Global, dictionary: &Values, indices: &[u32]) -> Result<Values, PickFault>
    ensures picked { IfOk result (λ v. (bytes : List ℕ)
        → plain.pick (values_view bytes dictionary.now) indices.now ≡ Some (values_view bytes v)) }
    ensures texts { IfOk result (λ v. (bytes : List ℕ) → HasTexts bytes dictionary.now → HasTexts bytes v) }
    ensures bad { result ≡ Err PickFault.BadIndex → (bytes : List ℕ)
        → plain.pick (values_view bytes dictionary.now) indices.now ≡ None }
{
    pick(alloc, dictionary, indices)
}
