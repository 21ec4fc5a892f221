ghost use Rattle.std.specs.Prelude.{◌≡◌, ℕ};

use std::marker::Brand;

/// What a leaf gives for a tablet.
pub trait Piece {
    ghost tablet_of: { Self → ℕ };

    /// The number of its tablet.
    fn tablet(&self) -> u32
        ensures { result ≡ tablet_of self.now };
}

/// Names a job, and what a piece of each tablet has to meet. Whoever makes a board picks it.
pub trait Naming<P> {
    ghost use Rattle.dr_dispatch.specs.Job.{Job};

    ghost job: { Job };

    /// Whether a piece is true of a tablet.
    ghost is_true: { ℕ → P → Type 0 };
}

impl<P> Naming<P> for Brand {
    ghost use Rattle.std.specs.Prelude.{[], ⊤};

    ghost job = { record { leaves = []; lag = 0 } };

    ghost is_true = { λ t p. ⊤ };
}
