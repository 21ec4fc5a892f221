//! The next triplet of a leaf, taken of what is left of the columns.

ghost use Rattle.std.specs.Prelude.{◌≡◌, ℕ, option_map};
ghost use Rattle.dr_levels.specs.Views.{triplet_view};
ghost use Rattle.dr_walk.specs.Checking.{rest_at, rest_behind, next_at};

use dr_levels::{Triplet, Triplets};

/// Takes the next triplet of a leaf, if one is wanted.
#[inline(always)]
pub(crate) fn take_next<'a>(rests: &mut [Triplets<'a>], wanted: Option<u32>) -> Option<Triplet<'a>>
    ensures next { option_map triplet_view result ≡ next_at wanted (rest_at rests.old) }
    ensures rests { (i : ℕ) → rest_at rests.new i ≡ rest_behind wanted i (rest_at rests.old i) }
{
    let leaf = wanted? as usize;
    if leaf >= rests.len() {
        return None;
    }
    let mut rest = rests[leaf];
    let next = rest.next()?;
    rests[leaf] = rest;
    Some(next)
}
