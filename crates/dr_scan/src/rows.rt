//! The groups of records of which no leaf is read.

ghost use Rattle.std.specs.Prelude.{◌≡◌, [], length, IfOk, IfSome};
ghost use Rattle.std.specs.List.{list_all};
ghost use Rattle.dr_meaning.specs.Schema.{Schema as MeantSchema};
ghost use Rattle.dr_plan.specs.Planned.{IsOfSchema, plan_view};
ghost use Rattle.dr_group.specs.Partials.{IsPartialOf, partial_view};
ghost use Rattle.dr_scan.specs.OfColumns.{IsOfColumns};
ghost use Rattle.dr_scan.specs.RowCounts.{counts_rows as is_count};

use dr_group::Partial;
use dr_memory::NoMemory;
use dr_plan::{Aggregate, Plan, Selection};
use dr_scalar::passes;
use std::alloc::Global;

/// Whether it is COUNT(*).
fn counts_rows(aggregate: &Aggregate) -> bool
    ensures { result ≡ is_count aggregate.now }
{
    matches!(aggregate, Aggregate::Rows)
}

/// Whether each of some aggregates is COUNT(*).
fn all_count_rows(aggregates: &[Aggregate]) -> bool
    ensures { result ≡ list_all is_count aggregates.now }
{
    aggregates.iter().all(|aggregate| counts_rows(aggregate))
}

/// A plan's partial of so many records, where it is known without a look at them: those of a plan that reads no leaf,
/// whose condition, which is the same for each of them, keeps none, or of which all aggregates count rows.
///
/// Errors: want of memory, or of room for the partial.
pub(crate) fn partial_of_rows(
    alloc: Global,
    plan: &Plan,
    rows: u64,
) -> Result<Option<Partial>, NoMemory>
    ensures partial { IfOk result (λ o. IfSome o (λ x. (s : MeantSchema) → IsOfSchema s plan.now
        → IsOfColumns s plan.now [] rows (partial_view x))) }
    ensures of_plan { IfOk result (λ o. IfSome o (IsPartialOf (plan_view plan.now))) }
    ensures no_leaf { IfOk result (λ o. IfSome o (λ x. length (plan.now).leaves.items ≡ 0)) }
{
    let Selection::Groups(_, aggregates, _) = &plan.selection else {
        return Ok(None);
    };
    if !plan.leaves.is_empty() {
        return Ok(None);
    }
    if !passes(alloc, &plan.test, &[])? {
        return Ok(Some(Partial::empty(alloc, plan)?));
    }
    if all_count_rows(aggregates) {
        return Ok(Some(Partial::of_rows(alloc, plan, rows)?));
    }
    Ok(None)
}
