//! The item by which a result goes.

ghost use Rattle.std.specs.Prelude.{◌≡◌, IfOk, map, string_bytes};
ghost use Rattle.std.specs.List.{join_with_byte};
ghost use Rattle.dr_meaning.specs.Query as query;
ghost use Rattle.dr_nested.specs.PathView.{path_view};
ghost use Rattle.dr_ordering.specs.Ordered as meant;
ghost use Rattle.dr_plan.specs.Planned.{plan_view};
ghost use Rattle.dr_plan.specs.Views.{record_item_view};
ghost use Rattle.dr_cells.specs.PlanShapes.{row_names};
ghost use Rattle.dr_sql.specs.Views.{lent, maybe_order};
ghost use Rattle.dr_sub_meaning.specs.NestedBinding as binding;
ghost use Rattle.dr_sub.specs.NestedPlans.{BindsOrder};

use crate::chains::chain_of_term;
use crate::nested_fault::{NestedFault, NestedProblem};
use dr_memory::NoMemory;
use dr_nested::Path;
use dr_ordered::Order;
use dr_plan::{GroupItem, Plan, RecordItem, Selection};
use dr_sql::Order as OrderText;
use std::alloc::Global;

/// Names, joined by dots.
fn dotted(alloc: Global, names: &[&str]) -> Result<String, NoMemory>
    ensures { IfOk result (λ s. string_bytes s ≡ join_with_byte 46 (map lent names.now)) }
{
    Ok(names.join(alloc, ".")?)
}

/// The place of a name among those of the items that stand in no list.
fn place_in_object(leaves: &[Path], items: &[RecordItem], name: &str) -> Option<usize>
    ensures { result ≡ meant.place_of_name name.now
        (meant.record_names (map (record_item_view (map path_view leaves.now)) items.now)) }
{
    let mut place = 0;
    'items: for item in items {
        if chain_of_term(leaves, &item.term).is_empty() {
            if name == item.name.as_str() {
                return Some(place);
            }
            place += 1;
        }
    }
    None
}

/// The place of a name among those of the items of a row.
fn place_in_row(items: &[GroupItem], name: &str) -> Option<usize>
    ensures { result ≡ meant.place_of_name name.now (row_names items.now) }
{
    'items: for (place, item) in items.iter().enumerate() {
        if name == item.name.as_str() {
            return Some(place);
        }
    }
    None
}

/// The place of a name among those of the outermost object's items.
fn place_of_name(plan: &Plan, name: &str) -> Option<usize>
    ensures { result ≡ meant.place_of_name name.now (meant.outermost_names (plan_view plan.now).selection) }
{
    match &plan.selection {
        Selection::Objects(items, _) => place_in_object(&plan.leaves, items, name),
        Selection::Groups(_, _, items) => place_in_row(items, name),
    }
}

/// The item by which the result of a plan goes, where that is asked.
///
/// Errors: no item of the outermost object has the name, told at the path; want of memory.
pub(crate) fn bind_order(
    alloc: Global,
    plan: &Plan,
    order: &Option<OrderText<'_>>,
) -> Result<Option<Order>, NestedFault>
    ensures { BindsOrder (binding.bind_order (plan_view plan.now).selection (maybe_order order.now)) result }
{
    let Some(order) = order else {
        return Ok(None);
    };
    let name = dotted(alloc, &order.path.names)?;
    match place_of_name(plan, name.as_str()) {
        None => Err(NestedFault::Refused {
            place: order.path.place,
            problem: NestedProblem::BadOrder,
        }),
        Some(item) => Ok(Some(Order {
            item,
            descending: order.descending,
        })),
    }
}
