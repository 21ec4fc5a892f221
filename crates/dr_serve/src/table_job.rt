use std::marker::Brand;

/// Names the job of a table, what is true of a tablet, and when something has grown of that. Whoever serves picks it.
pub trait TableJob {
    ghost use Rattle.std.specs.Prelude.{ℕ, Bool, List};
    ghost use Rattle.dr_dispatch.specs.Job.{Job};
    ghost use Rattle.dr_tree.specs.declared.growing.Growing.{Growing};
    ghost use Rattle.dr_serve.specs.declared.found.Found.{Found};

    ghost job: { Job };

    /// Whether what was found is true of a tablet.
    ghost is_true: { ℕ → Found → Type 0 };

    /// Whether it has grown of what is true, with a piece of each of these tablets.
    ghost has_grown: { Growing → List Bool → Type 0 };
}

impl TableJob for Brand {
    ghost use Rattle.std.specs.Prelude.{[], ⊤};

    ghost job = { record { leaves = []; lag = 0 } };

    ghost is_true = { λ t f. ⊤ };

    ghost has_grown = { λ g answered. ⊤ };
}
