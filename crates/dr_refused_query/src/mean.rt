//! Plans on records.

ghost use Rattle.std.specs.Prelude.{◌≡◌, IfOk, map};
ghost use Rattle.dr_plan.specs.Planned.{plan_view, planned_query};
ghost use Rattle.dr_group.specs.Partials.{partial_view, IsPartialOf};
ghost use Rattle.dr_mean.specs.Answers.{Answers};
ghost use Rattle.dr_nested.specs.PathView.{step_view, path_view};
ghost use Rattle.dr_plan.specs.Views.{expr_view, path_of};
ghost use Rattle.std.specs.List.{slice_get};
ghost use Rattle.dr_partials.specs.Partials as partials;
ghost use Rattle.dr_meaning.specs.Expression as meant;

use dr_group::Partial;
use dr_mean::partial_of;
use dr_memory::NoMemory;
use dr_nested::{Node, Path, Step};
use dr_paths::{expression_chain, keys_chain};
use dr_plan::{Expr, Plan};
use std::alloc::Global;

/// As `partial_of`.
pub fn partial_on(alloc: Global, plan: &Plan, records: &[Node]) -> Result<Partial, NoMemory>
    requires answers { Answers plan.now records.now }
    ensures partial { IfOk result (λ p. (a : Answers plan.now records.now)
        → partial_view p ≡ partials.partial_of a.schema.fields (planned_query (plan_view plan.now)) a.records) }
    ensures of_plan { IfOk result (λ p. IsPartialOf (plan_view plan.now) p) }
{
    partial_of(alloc, plan, records)
}

/// As `expression_chain`.
pub fn level_of<'p>(leaves: &'p [Path], expression: &Expr) -> &'p [Step]
    ensures { map step_view result.now ≡ meant.expression_chain (expr_view (map path_view leaves.now) expression.now) }
{
    expression_chain(leaves, expression)
}

/// As `keys_chain`.
pub fn chain_of_keys<'p>(leaves: &'p [Path], keys: &[u32]) -> &'p [Step]
    ensures { map step_view result.now ≡ meant.longest_chain
        (map (λ k. path_of (slice_get (map path_view leaves.now) k)) keys.now) }
{
    keys_chain(leaves, keys)
}
