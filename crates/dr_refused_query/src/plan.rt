//! Conditions.

ghost use Rattle.std.specs.Prelude.{◌≡◌, true, List, map, Some, option_map, IfOk};
ghost use Rattle.std.specs.List.{list_all};
ghost use Rattle.dr_meaning.specs.Path.{Leaf};
ghost use Rattle.dr_plan.specs.Views.{joining_view, truth_view};
ghost use Rattle.dr_plan.specs.Fitting.{truth_fits};
ghost use Rattle.dr_plan.specs.Conjuncts as meant;

use dr_memory::NoMemory;
use dr_plan::{CutCondition, Truth, conjuncts};
use std::alloc::Global;

/// As `conjuncts`.
pub fn parts_of_condition(alloc: Global, condition: Truth) -> Result<CutCondition, NoMemory>
    ensures view { IfOk result (λ c. (ls : List Leaf)
        → map (truth_view ls) c.test.items ≡ meant.conjuncts (truth_view ls condition)) }
    ensures fits { IfOk result (λ c. (ls : List Leaf) → truth_fits ls condition ≡ true
        → list_all (truth_fits ls) c.test.items ≡ true) }
    ensures joining { IfOk result (λ c. (ls : List Leaf)
        → option_map joining_view c.joining ≡ Some (meant.joining_from 0 (truth_view ls condition))) }
{
    conjuncts(alloc, condition)
}
