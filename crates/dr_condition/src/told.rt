//! What is known with a move.

ghost use Rattle.std.specs.Prelude.{◌≡◌, ◌<◌, ◌==◌, ◌&&◌};
ghost use Rattle.dr_levels.specs.Views.{move_view};
ghost use Rattle.dr_condition.specs.Watching.{innermost_dropped};

use dr_levels::{Branch, Kept, Move};

/// What is known with a move.
#[derive(Clone, Copy, PartialEq, Eq)]
pub struct Told {
    /// Whether each open branch is known to be kept.
    pub is_kept: bool,
    /// Whether the branch that the move leaves is dropped.
    pub is_dropped: bool,
}

/// Whether all open branches are kept.
#[inline(always)]
pub(crate) fn is_all_kept(kept: Kept) -> bool
    ensures { result ≡ ((kept.undecided == 0) && (kept.dropped == 0)) }
{
    kept.undecided == 0 && kept.dropped == 0
}

/// Whether the branch that a move leaves is dropped, where so many were open before it.
#[inline(always)]
pub(crate) fn is_left_dropped(kept: Kept, read: &Move<'_>, depth: u32) -> bool
    requires { depth < 64 }
    ensures { result ≡ innermost_dropped (move_view read.now) depth kept }
{
    match read {
        Move::Leave(_) => depth > 0 && kept.branch(depth - 1) == Branch::Dropped,
        Move::Enter(_) | Move::Leaf(_, _) => false,
    }
}
