//! The keys and the aggregates of an aggregate query.

ghost use Rattle.std.specs.Prelude.{◌≡◌, map, true};
ghost use Rattle.std.specs.List.{list_all};
ghost use Rattle.dr_nested.specs.PathView.{path_view};
ghost use Rattle.dr_plan.specs.Fitting.{aggregate_fits};
ghost use Rattle.dr_mean.specs.Keys.{are_leaves};

use dr_nested::Path;
use dr_plan::{Aggregate, Plan};

/// The keys of an aggregate query's plan, by the numbers of their leaves, and its aggregates.
#[derive(Clone, Copy)]
pub struct Grouping<'p> {
    pub plan: &'p Plan,
    pub leaves: &'p [Path],
    pub keys: &'p [u32],
    pub aggregates: &'p [Aggregate],
    pub ghost same: { leaves.now ≡ (plan.now).leaves.items },
    pub ghost keyed: { are_leaves (map path_view leaves.now) keys.now ≡ true },
    pub ghost fit: { list_all (aggregate_fits (map path_view leaves.now)) aggregates.now ≡ true },
}
