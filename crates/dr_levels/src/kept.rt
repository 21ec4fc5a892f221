//! What is known of the branches that are open in a walk.

ghost use Rattle.std.specs.Prelude.{◌≡◌, ◌<◌, ◌==◌};
ghost use Rattle.std.specs.Int.{bit_at};
ghost use Rattle.dr_levels.specs.Branches.{branch_at};

/// What is known of a branch: it is kept, it is dropped, or neither is known yet.
#[derive(Clone, Copy, PartialEq, Eq)]
pub enum Branch {
    Kept,
    Dropped,
    Undecided,
}

/// What is not kept of the open branches, the outermost first: bit i of each mask is for the branch at place i. A
/// branch with neither bit is kept; one that is undecided is not dropped yet, whatever its other bit.
#[derive(Clone, Copy, PartialEq, Eq)]
pub struct Kept {
    pub undecided: u64,
    pub dropped: u64,
}

#[tactic(auto, using(std::proofs::lemmas::Nat::Bits::shr_and_one))]
#[inline(always)]
fn has_bit(mask: u64, place: u32) -> bool
    requires { place < 64 }
    ensures { result ≡ (bit_at mask place == 1) }
{
    (mask >> place) & 1 == 1
}

impl Kept {
    /// What is known of the branch at a place.
    #[inline(always)]
    pub fn branch(self, place: u32) -> Branch
        requires { place < 64 }
        ensures { result ≡ branch_at self place }
    {
        if has_bit(self.undecided, place) {
            Branch::Undecided
        } else if has_bit(self.dropped, place) {
            Branch::Dropped
        } else {
            Branch::Kept
        }
    }
}
