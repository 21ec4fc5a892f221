//! Conditions cut at their top.

ghost use Rattle.std.specs.Prelude.{◌≡◌, ◌++◌, true, List, map, length, Some, option_map, IfOk, OnOk, ◌&&◌};
ghost use Rattle.std.specs.List.{list_all};
ghost use Rattle.dr_meaning.specs.Path.{Leaf};
ghost use Rattle.dr_plan.specs.Views.{joining_view, truth_view};
ghost use Rattle.dr_plan.specs.Fitting.{truth_fits};
ghost use Rattle.dr_plan.specs.Conjuncts as meant;

use crate::expression::Truth;
use crate::joining::Joining;
use dr_memory::NoMemory;
use std::alloc::Global;

/// A condition cut at its top: expressions all of which must be true, and how it joins them. Without a condition there
/// is neither.
#[derive(Drop)]
pub struct CutCondition {
    pub test: Vec<Truth>,
    pub joining: Option<Joining>,
}

/// A condition cut at its top.
///
/// Errors: want of memory alone.
pub fn conjuncts(alloc: Global, condition: Truth) -> Result<CutCondition, NoMemory>
    ensures view { IfOk result (λ c. (ls : List Leaf) → map (truth_view ls) c.test.items
        ≡ meant.conjuncts (truth_view ls condition)) }
    ensures fits { IfOk result (λ c. (ls : List Leaf) → truth_fits ls condition ≡ true
        → list_all (truth_fits ls) c.test.items ≡ true) }
    ensures joining { IfOk result (λ c. (ls : List Leaf) → option_map joining_view c.joining
        ≡ Some (meant.joining_from 0 (truth_view ls condition))) }
{
    let mut test = Vec::new(alloc);
    let joining = push_conjuncts(alloc, condition, &mut test)?;
    Ok(CutCondition {
        test,
        joining: Some(joining),
    })
}

/// Appends the conjuncts of a condition, and tells how it joins them.
fn push_conjuncts(
    alloc: Global,
    condition: Truth,
    test: &mut Vec<Truth>,
) -> Result<Joining, NoMemory>
    ensures view { OnOk result ((ls : List Leaf) → map (truth_view ls) (test.new).items
        ≡ map (truth_view ls) (test.old).items ++ meant.conjuncts (truth_view ls condition)) }
    ensures fits { OnOk result ((ls : List Leaf) → list_all (truth_fits ls) (test.new).items
        ≡ (list_all (truth_fits ls) (test.old).items && truth_fits ls condition)) }
    ensures joining { IfOk result (λ j. (ls : List Leaf) → joining_view j
        ≡ meant.joining_from (length (test.old).items) (truth_view ls condition)) }
{
    match condition {
        Truth::And(left, right) => {
            let left = push_conjuncts(alloc, Box::into_inner(left), test)?;
            let right = push_conjuncts(alloc, Box::into_inner(right), test)?;
            Joining::and(alloc, left, right)
        }
        other => {
            let number = test.len();
            test.push(other)?;
            Ok(Joining::Conjunct(number))
        }
    }
}
