//! The plan of parts that are bound.

ghost use Rattle.std.specs.Prelude.{◌≡◌, true, [], None, List, map, option_map, IfOk};
ghost use Rattle.std.specs.List.{list_all};
ghost use Rattle.dr_meaning.specs.Path as path_meaning;
ghost use Rattle.dr_nested.specs.PathView.{path_view};
ghost use Rattle.dr_plan.specs.Views.{joining_view, truth_view};
ghost use Rattle.dr_plan.specs.Fitting.{truth_fits};
ghost use Rattle.dr_planning.specs.NamedLevels.{levels_view};
ghost use Rattle.dr_planning.specs.Planning as plan;

use crate::groups::selected_groups;
use crate::listed::Listed;
use crate::records::selected_objects;
use dr_memory::NoMemory;
use dr_nested::Path;
use dr_paths::BoundPath;
use dr_plan::{CutCondition, Plan, Selection, conjuncts};
use dr_resolve::{BoundCondition, BoundItem, BoundParts};
use std::alloc::Global;

/// Of a query without a condition.
fn without_condition(alloc: Global) -> CutCondition
    ensures test { result.test.items ≡ [] }
    ensures joining { result.joining ≡ None }
{
    CutCondition {
        test: Vec::new(alloc),
        joining: None,
    }
}

/// The condition, cut at its top.
fn cut_condition(alloc: Global, condition: Option<BoundCondition>) -> Result<CutCondition, NoMemory>
    ensures view { IfOk result (λ c. (ls : List path_meaning.Leaf) → map (truth_view ls) c.test.items
        ≡ plan.condition_conjuncts ls condition) }
    ensures fits { IfOk result (λ c. (ls : List path_meaning.Leaf) → plan.condition_fits ls condition ≡ true
        → list_all (truth_fits ls) c.test.items ≡ true) }
    ensures joining { IfOk result (λ c. (ls : List path_meaning.Leaf) → option_map joining_view c.joining
        ≡ plan.condition_joining ls condition) }
{
    match condition {
        None => Ok(without_condition(alloc)),
        Some(condition) => conjuncts(alloc, Box::into_inner(condition.truth)),
    }
}

/// What parts of a query select.
fn selected(
    alloc: Global,
    levels: &[Listed],
    leaves: &[Path],
    is_record_query: bool,
    keys: &[BoundPath],
    items: Vec<BoundItem>,
) -> Result<Selection, NoMemory>
    ensures { IfOk result (λ s. plan.Selects is_record_query (levels_view levels.now)
        (map path_view leaves.now) keys.now items.items s) }
{
    if is_record_query {
        selected_objects(alloc, levels, items)
    } else {
        selected_groups(alloc, leaves, keys, items)
    }
}

/// The plan of parts over these leaves, by the schema's levels.
///
/// Errors: want of memory alone.
pub fn plan_of(
    alloc: Global,
    levels: &[Listed],
    leaves: Vec<Path>,
    parts: BoundParts,
) -> Result<Plan, NoMemory>
    requires { plan.CanBePlanned (map path_view leaves.items) parts }
    ensures { IfOk result (plan.IsPlanOfParts (levels_view levels.now) (map path_view leaves.items) parts) }
{
    let is_record_query = parts.is_record_query;
    let keys = parts.keys;
    let selection = selected(
        alloc,
        levels,
        leaves.as_slice(),
        is_record_query,
        keys.as_slice(),
        parts.items,
    )?;
    let condition = cut_condition(alloc, parts.condition)?;
    Ok(Plan {
        leaves,
        test: condition.test,
        joining: condition.joining,
        selection,
    })
}
