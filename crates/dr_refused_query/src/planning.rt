//! Plans of bound parts.

ghost use Rattle.std.specs.Prelude.{map, IfOk};
ghost use Rattle.dr_nested.specs.PathView.{path_view};
ghost use Rattle.dr_planning.specs.NamedLevels.{levels_view};
ghost use Rattle.dr_planning.specs.Planning as plan;

use dr_memory::NoMemory;
use dr_nested::Path;
use dr_plan::Plan;
use dr_planning::{Listed, plan_of};
use dr_resolve::BoundParts;
use std::alloc::Global;

/// As `plan_of`.
pub fn plan_of_parts(
    alloc: Global,
    levels: &[Listed],
    leaves: Vec<Path>,
    parts: BoundParts,
) -> Result<Plan, NoMemory>
    requires { plan.CanBePlanned (map path_view leaves.items) parts }
    ensures { IfOk result (plan.IsPlanOfParts (levels_view levels.now) (map path_view leaves.items) parts) }
{
    plan_of(alloc, levels, leaves, parts)
}
