//! What servers make of their children's results, as values.

ghost use Rattle.std.specs.Prelude.{◌≡◌, [], true, map, length, IfOk};
ghost use Rattle.dr_nested.specs.PathView.{path_view};
ghost use Rattle.dr_partials.specs.Rewriting.{inner_query, root_query};
ghost use Rattle.dr_plan.specs.Planned.{plan_leaves, plan_view, planned_query};
ghost use Rattle.dr_rewrite.specs.Merge.{MergesColumns, merge_leaves, merge_view, selected_columns};
ghost use Rattle.dr_rewrite.specs.RowColumns.{row_columns};
ghost use Rattle.dr_rewrite.specs.ServerItems.{are_placed, titled};

use crate::merged::{key_numbers, merging_aggregates};
use crate::row_columns::row_columns;
use crate::server_items::{copied_items, server_items};
use dr_memory::NoMemory;
use dr_nested::Path;
use dr_plan::{Aggregate, GroupItem, Plan, Selection};
use std::alloc::Global;

/// What is made of the results of children: they stand one behind another, or a query is run over their rows, whose
/// leaves are the rows' columns.
#[derive(Drop)]
pub enum Merge {
    Concatenate,
    Query(Plan),
}

/// What a query over the columns selects: groups by each key's column, with aggregates that merge each a column.
fn merging_selection(
    alloc: Global,
    keys: &[u32],
    aggregates: &[Aggregate],
    items: Vec<GroupItem>,
) -> Result<Selection, NoMemory>
    ensures { IfOk result (λ s. MergesColumns keys.now aggregates.now items s) }
{
    let numbers = key_numbers(alloc, keys)?;
    let merging = merging_aggregates(alloc, keys.len(), aggregates)?;
    Ok(Selection::Groups(numbers, merging, items))
}

/// The query over the columns of keys, by the numbers of their leaves, and of aggregates, that gives these items.
fn merging_plan(
    alloc: Global,
    leaves: &[Path],
    keys: &[u32],
    aggregates: &[Aggregate],
    items: Vec<GroupItem>,
) -> Result<Plan, NoMemory>
    requires { are_placed (length keys.now) (length aggregates.now) (map titled items.items) ≡ true }
    ensures leaves { IfOk result (λ p. plan_leaves p ≡ row_columns (map path_view leaves.now) keys.now aggregates.now) }
    ensures tests { IfOk result (λ p. p.test.items ≡ []) }
    ensures selects { IfOk result (λ p. MergesColumns keys.now aggregates.now items p.selection) }
{
    let columns = row_columns(alloc, leaves, keys, aggregates)?;
    let selection = merging_selection(alloc, keys, aggregates, items)?;
    Ok(Plan {
        leaves: columns,
        test: Vec::new(alloc),
        joining: None,
        selection,
    })
}

/// What an intermediate server makes of its children's results: it groups them by their keys again, and merges each
/// aggregate's column; those of a plan that lists objects stand one behind another.
///
/// Errors: want of memory alone.
pub fn inner_of(alloc: Global, plan: &Plan) -> Result<Merge, NoMemory>
    ensures query { IfOk result (λ m. merge_view m ≡ inner_query (planned_query (plan_view plan.now))) }
    ensures columns { IfOk result (λ m. merge_leaves m ≡ selected_columns (plan_leaves plan.now) (plan.now).selection) }
{
    match &plan.selection {
        Selection::Objects(_, _) => Ok(Merge::Concatenate),
        Selection::Groups(keys, aggregates, _) => {
            let items = server_items(alloc, keys, aggregates)?;
            let merging = merging_plan(alloc, &plan.leaves, keys, aggregates, items)?;
            Ok(Merge::Query(merging))
        }
    }
}

/// What the root makes of its children's results: as an intermediate server, but with the plan's items, their names and
/// their order.
///
/// Errors: want of memory alone.
pub fn root_of(alloc: Global, plan: &Plan) -> Result<Merge, NoMemory>
    ensures query { IfOk result (λ m. merge_view m ≡ root_query (planned_query (plan_view plan.now))) }
    ensures columns { IfOk result (λ m. merge_leaves m ≡ selected_columns (plan_leaves plan.now) (plan.now).selection) }
{
    match &plan.selection {
        Selection::Objects(_, _) => Ok(Merge::Concatenate),
        Selection::Groups(keys, aggregates, items) => {
            let items = copied_items(alloc, items)?;
            let merging = merging_plan(alloc, &plan.leaves, keys, aggregates, items)?;
            Ok(Merge::Query(merging))
        }
    }
}
