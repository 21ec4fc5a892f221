//! What a record query selects.

ghost use Rattle.std.specs.Prelude.{◌≡◌, map, IfOk, option_map};
ghost use Rattle.std.specs.List.{filter_map};
ghost use Rattle.dr_nested.specs.PathView.{lent_path};
ghost use Rattle.dr_planning.specs.NamedLevels.{levels_view};
ghost use Rattle.dr_planning.specs.Planning as plan;

use crate::listed::Listed;
use crate::objects::object_plan;
use dr_memory::NoMemory;
use dr_nested::Step;
use dr_paths::{chain_end, longest_chain};
use dr_plan::{ObjectPlan, RecordItem, RecordTerm, Selection, Within};
use dr_resolve::{BoundItem, BoundTerm};
use std::alloc::Global;

/// The term of a record query, if this is one.
fn record_term(term: BoundTerm) -> Option<RecordTerm>
    ensures { result ≡ plan.record_term_of term }
{
    match term {
        BoundTerm::Value(value) => { Some(RecordTerm::Value(Box::into_inner(value.expression))) }
        BoundTerm::Rows(_) => None,
        BoundTerm::Aggregated(fold, argument, within) => match within {
            None => None,
            Some(within) => Some(RecordTerm::Within(Within {
                fold,
                argument: Box::into_inner(argument.expression),
                node: within.node,
            })),
        },
    }
}

/// The item of a record query, if this is one.
fn record_item(item: BoundItem) -> Option<RecordItem>
    ensures { result ≡ plan.record_item_of item }
{
    let name = item.name;
    match record_term(item.term) {
        None => None,
        Some(term) => Some(RecordItem { name, term }),
    }
}

/// The items of a record query.
fn record_items(alloc: Global, items: Vec<BoundItem>) -> Result<Vec<RecordItem>, NoMemory>
    ensures { IfOk result (λ v. v.items ≡ filter_map plan.record_item_of items.items) }
{
    let mut made = Vec::new(alloc);
    'items: for item in items {
        match record_item(item) {
            None => {}
            Some(item) => made.push(item)?,
        }
    }
    Ok(made)
}

/// The chain of the object in which a term of a record query stands.
fn record_chain(term: &BoundTerm) -> Option<&[Step]>
    ensures { option_map lent_path result ≡ plan.record_chain term.now }
{
    match term {
        BoundTerm::Value(value) => Some(longest_chain(value.paths.as_slice())),
        BoundTerm::Rows(_) => None,
        BoundTerm::Aggregated(_, _, within) => match within {
            None => None,
            Some(within) => Some(chain_end(within.node.as_slice())),
        },
    }
}

/// The chains of the objects in which the items of a record query stand.
fn record_chains(alloc: Global, items: &[BoundItem]) -> Result<Vec<&[Step]>, NoMemory>
    ensures { IfOk result (λ v. map lent_path v.items ≡ plan.record_chains items.now) }
{
    let mut chains = Vec::new(alloc);
    'items: for item in items {
        if let Some(chain) = record_chain(&item.term) {
            chains.push(chain)?;
        }
    }
    Ok(chains)
}

/// The plan of the objects in which the items of a record query stand.
fn objects_of(alloc: Global, levels: &[Listed], items: &[BoundItem]) -> Result<ObjectPlan, NoMemory>
    ensures { IfOk result (λ o. plan.AreObjects (levels_view levels.now) (plan.record_chains items.now) o) }
{
    let own = record_chains(alloc, items)?;
    if own.len() > u32::MAX as usize {
        return Err(NoMemory);
    }
    object_plan(alloc, levels, own.as_slice())
}

/// The objects that a record query selects.
pub(crate) fn selected_objects(
    alloc: Global,
    levels: &[Listed],
    items: Vec<BoundItem>,
) -> Result<Selection, NoMemory>
    ensures { IfOk result (λ s. plan.SelectsObjects (levels_view levels.now) items.items s) }
{
    let objects = objects_of(alloc, levels, items.as_slice())?;
    let items = record_items(alloc, items)?;
    Ok(Selection::Objects(items, objects))
}
