//! Strips of leaves that come once each.

ghost use Rattle.std.specs.Prelude.{◌≡◌, ◌∷◌, [], ◌↔◌, IsTrue, IfOk, None, option_map};
ghost use Rattle.dr_levels.specs.Views.{triplet_view, triplets_view};
ghost use Rattle.dr_assemble.specs.Distinct.{AreDistinct};
ghost use Rattle.dr_assemble.specs.Comparing.{Compares, Passes};
ghost use Rattle.dr_assemble.specs.Views.{strip_view, strips_view};

use crate::strip::Strip;
use dr_levels::{Triplet, Triplets};
use dr_paths::same_path;
use std::alloc::{AllocError, Global};

/// What a strip is beside the last that was kept: of another leaf; of the same leaf, with the same triplets; or of the
/// same leaf, with others.
#[derive(Clone, Copy, PartialEq, Eq)]
pub enum Beside {
    New,
    Same,
    Other,
}

/// Passes a triplet, where it is the next.
fn passes(rest: &mut Triplets<'_>, triplet: Triplet<'_>) -> bool
    ensures { Passes (triplet_view triplet.entry ∷ []) (triplets_view rest.old) (triplets_view rest.new) result }
{
    match rest.next() {
        Some(next) => next == triplet,
        None => false,
    }
}

/// Whether two columns have the same triplets.
fn same_triplets(left: Triplets<'_>, right: Triplets<'_>) -> bool
    ensures { IsTrue result ↔ (triplets_view left.entry ≡ triplets_view right.entry) }
{
    let mut left_rest = left;
    let mut right_rest = right;
    'triplets: while let Some(triplet) = left_rest.next() {
        if !passes(&mut right_rest, triplet) {
            return false;
        }
    }
    right_rest.levels().is_empty()
}

/// What a strip is beside the last that was kept, if any was.
fn compare(last: Option<Strip<'_>>, strip: &Strip<'_>) -> Beside
    ensures { Compares (option_map strip_view last.entry) (strip_view strip.now) result }
{
    match last {
        None => Beside::New,
        Some(kept) => {
            if !same_path(kept.rest, strip.rest) {
                Beside::New
            } else if same_triplets(kept.triplets, strip.triplets) {
                Beside::Same
            } else {
                Beside::Other
            }
        }
    }
}

/// The strips without those of a leaf that was before, where the strips of one leaf stand side by side; none where two
/// of one leaf have other triplets.
pub fn distinct<'a>(
    alloc: Global,
    strips: &[Strip<'a>],
) -> Result<Option<Vec<Strip<'a>>>, AllocError>
    ensures { IfOk result (λ o. AreDistinct None (strips_view strips.now) (option_map (λ v. strips_view v.items) o)) }
{
    let mut kept = Vec::with_capacity(alloc, strips.len())?;
    let mut last = None;
    'strips: for strip in strips {
        match compare(last, strip) {
            Beside::New => {
                kept.push(*strip)?;
                last = Some(*strip);
            }
            Beside::Same => {}
            Beside::Other => return Ok(None),
        }
    }
    Ok(Some(kept))
}
