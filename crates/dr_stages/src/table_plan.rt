//! The plan that reads the table.

ghost use Rattle.std.specs.Prelude.{◌≡◌};
ghost use Rattle.dr_meaning.specs.Schema as tree;
ghost use Rattle.dr_plan.specs.PlanOf.{IsPlanOf};
ghost use Rattle.dr_sub_meaning.specs.Nested as nested;
ghost use Rattle.dr_stages.specs.Results.{innermost_plan};
ghost use Rattle.dr_sub.specs.Texts.{ForNested};

use dr_plan::Plan;
use dr_sub::NestedPlan;

/// The innermost query's plan, which alone reads the table.
pub fn innermost(plans: &NestedPlan) -> &Plan
    ensures plan { result.now ≡ innermost_plan plans.now }
    ensures of_query { (s : tree.Schema) → ForNested s plans.now (λ n. IsPlanOf s (nested.innermost n.inner n.outer)
        result.now) }
{
    match plans.inner.as_slice() {
        [] => &plans.outer,
        [first, ..] => first,
    }
}
