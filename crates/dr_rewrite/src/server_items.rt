//! The items by which servers give keys and aggregates: k0, .., a0, ..

ghost use Rattle.std.specs.Prelude.{◌≡◌, ◌++◌, map, IfOk, OnOk};
ghost use Rattle.dr_rewrite.specs.ServerItems as meant;

use crate::columns::{aggregate_name, key_name};
use crate::numbers::number_of;
use dr_memory::NoMemory;
use dr_plan::{Aggregate, GroupItem, GroupTerm};
use std::alloc::Global;

/// A key as an item.
fn key_item(alloc: Global, place: usize) -> Result<GroupItem, NoMemory>
    ensures { IfOk result (λ i. meant.titled i ≡ meant.titled_key place) }
{
    let name = key_name(alloc, place)?;
    let number = number_of(place)?;
    Ok(GroupItem {
        name,
        term: GroupTerm::Key(number),
    })
}

/// An aggregate as an item.
fn aggregate_item(alloc: Global, place: usize) -> Result<GroupItem, NoMemory>
    ensures { IfOk result (λ i. meant.titled i ≡ meant.titled_aggregate place) }
{
    let name = aggregate_name(alloc, place)?;
    let number = number_of(place)?;
    Ok(GroupItem {
        name,
        term: GroupTerm::Aggregate(number),
    })
}

/// The items by which servers give keys and aggregates: each key, then each aggregate.
pub(crate) fn server_items(
    alloc: Global,
    keys: &[u32],
    aggregates: &[Aggregate],
) -> Result<Vec<GroupItem>, NoMemory>
    ensures { IfOk result (λ v. map meant.titled v.items ≡ meant.server_items keys.now aggregates.now) }
{
    let mut items = Vec::new(alloc);
    'keys: for (place, _) in keys.iter().enumerate() {
        items.push(key_item(alloc, place)?)?;
    }
    push_aggregate_items(alloc, aggregates, &mut items)?;
    Ok(items)
}

/// Appends the aggregates as items.
fn push_aggregate_items(
    alloc: Global,
    aggregates: &[Aggregate],
    items: &mut Vec<GroupItem>,
) -> Result<(), NoMemory>
    ensures { OnOk result (map meant.titled (items.new).items
        ≡ map meant.titled (items.old).items ++ meant.titled_aggregates aggregates.now) }
{
    'aggregates: for (place, _) in aggregates.iter().enumerate() {
        items.push(aggregate_item(alloc, place)?)?;
    }
    Ok(())
}

/// An item again.
fn copied_item(alloc: Global, item: &GroupItem) -> Result<GroupItem, NoMemory>
    ensures { IfOk result (λ i. meant.titled i ≡ meant.titled item.now) }
{
    let name = String::from_str(alloc, item.name.as_str())?;
    Ok(GroupItem {
        name,
        term: item.term,
    })
}

/// Items again.
pub(crate) fn copied_items(alloc: Global, items: &[GroupItem]) -> Result<Vec<GroupItem>, NoMemory>
    ensures { IfOk result (λ v. map meant.titled v.items ≡ map meant.titled items.now) }
{
    let mut copies = Vec::with_capacity(alloc, items.len())?;
    'items: for item in items {
        copies.push(copied_item(alloc, item)?)?;
    }
    Ok(copies)
}
