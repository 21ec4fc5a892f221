//! What the condition of a plan leaves of a record.

ghost use Rattle.std.specs.Prelude.{◌≡◌, map, true, IfOk};
ghost use Rattle.dr_meaning.specs.Rows as rows_meaning;
ghost use Rattle.dr_nested.specs.Views.{node_view};
ghost use Rattle.dr_nested.specs.PathView.{step_view};
ghost use Rattle.dr_rows.specs.Pruning.{kept_if};
ghost use Rattle.dr_scalar.specs.Tests.{all_true};
ghost use Rattle.dr_mean.specs.RowsOf.{IsTyped, OverRows};
ghost use Rattle.dr_mean.specs.Condition.{plan_kept, plan_tests};

use dr_memory::NoMemory;
use dr_nested::{Node, Step};
use dr_paths::tests_chain;
use dr_plan::Plan;
use dr_rows::{Rows, prune, rows_of};
use dr_scalar::passes;
use std::alloc::Global;

/// The answers of a plan's condition for rows, in order.
fn answer_rows(alloc: Global, plan: &Plan, rows: &Rows<'_>) -> Result<Vec<bool>, NoMemory>
    ensures { IfOk result (λ v. OverRows (plan.now).leaves.items rows.now (λ chain n.
        v.items ≡ map (all_true (plan_tests plan.now)) (rows_meaning.rows chain n))) }
{
    let mut answers = Vec::with_capacity(alloc, rows.len())?;
    'rows: for number in 0..rows.len() {
        let row = rows.row(number);
        answers.push(passes(alloc, &plan.test, row.values)?)?;
    }
    Ok(answers)
}

/// The answers of a plan's condition for the rows of a record of a chain, in order.
fn answers_of(
    alloc: Global,
    plan: &Plan,
    chain: &[Step],
    whole: &Node,
) -> Result<Vec<bool>, NoMemory>
    ensures { IfOk result (λ v. IsTyped (plan.now).leaves.items (node_view whole.now)
        → v.items ≡ map (all_true (plan_tests plan.now)) (rows_meaning.rows (map step_view chain.now)
        (node_view whole.now))) }
{
    let rows = rows_of(alloc, &plan.leaves, chain, whole)?;
    answer_rows(alloc, plan, &rows)
}

/// What the condition of a plan leaves of a record: the branches with a row that passes. Tells whether anything is
/// left; where nothing is, the record isn't used any more. The record is one of the schema to which the plan is bound,
/// or a projection of one to the plan's leaves.
///
/// Errors: want of memory alone.
pub fn keep(alloc: Global, plan: &Plan, whole: &mut Node) -> Result<bool, NoMemory>
    ensures { IfOk result (λ b. IsTyped (plan.now).leaves.items (node_view whole.old) → kept_if b (node_view whole.new)
        ≡ plan_kept plan.now (node_view whole.old)) }
{
    if plan.test.is_empty() {
        return Ok(true);
    }
    let chain = tests_chain(&plan.leaves, &plan.test);
    let answers = answers_of(alloc, plan, chain, whole)?;
    Ok(prune(whole, chain, &answers))
}
