//! Masks of open branches, by how many of the outermost are known in which way.

ghost use Rattle.std.specs.Prelude.{◌≡◌, ◌-◌, ◌^◌, ◌<◌, ◌≤◌};

use dr_levels::Kept;

/// The bits from one place up to another.
#[tactic(auto, using(std::proofs::lemmas::Nat::one_shl))]
#[inline(always)]
fn bits(from: u32, to: u32) -> u64
    requires order { from ≤ to }
    requires few { to < 64 }
    ensures { result ≡ 2 ^ to - 2 ^ from }
{
    (1u64 << to) - (1u64 << from)
}

/// Of the branches in front of `along`, those from `top` on are dropped, the others from `hit` on are undecided.
#[inline(always)]
pub(crate) fn known_between(hit: u32, top: u32, along: u32) -> Kept
    requires hits { hit ≤ top }
    requires tops { top ≤ along }
    requires few { along < 64 }
    ensures undecided { result.undecided ≡ 2 ^ top - 2 ^ hit }
    ensures dropped { result.dropped ≡ 2 ^ along - 2 ^ top }
{
    Kept {
        undecided: bits(hit, top),
        dropped: bits(top, along),
    }
}
