//! What an aggregate query selects.

ghost use Rattle.std.specs.Prelude.{◌≡◌, ◌++◌, [], map, length, IfOk, OnOk};
ghost use Rattle.dr_nested.specs.PathView.{path_view};
ghost use Rattle.dr_paths.specs.Views.{bound_path_view};
ghost use Rattle.dr_planning.specs.Planning as plan;

use dr_memory::NoMemory;
use dr_nested::Path;
use dr_paths::BoundPath;
use dr_plan::{Aggregate, GroupItem, GroupTerm, Selection};
use dr_resolve::{BoundExpression, BoundItem, BoundTerm, leaf_number, place_among};
use std::alloc::Global;

/// What an item of an aggregate query gives: a key by its number, or an aggregate.
#[derive(Drop)]
pub(crate) enum Grouped {
    Key(u32),
    Aggregate(Aggregate),
}

/// A number, in 32 bits.
fn narrow(number: usize) -> Result<u32, NoMemory>
    ensures { IfOk result (λ n. n ≡ number) }
{
    if number > u32::MAX as usize {
        return Err(NoMemory);
    }
    Ok(number as u32)
}

/// The number of the key at a place, if there is one.
fn numbered(place: Option<usize>) -> Result<Option<u32>, NoMemory>
    ensures { IfOk result (λ o. o ≡ place) }
{
    match place {
        None => Ok(None),
        Some(place) => Ok(Some(narrow(place)?)),
    }
}

/// The number of the key that an expression is, if it is one.
fn key_number(keys: &[BoundPath], value: &BoundExpression) -> Result<Option<u32>, NoMemory>
    ensures { IfOk result (λ o. o ≡ plan.key_number keys.now value.now) }
{
    if !value.is_path {
        return Ok(None);
    }
    match value.paths.as_slice() {
        [] => Ok(None),
        [path, ..] => numbered(place_among(keys, path.leaf.steps.as_slice())),
    }
}

/// What a term of an aggregate query gives, if it is one.
fn group_term(keys: &[BoundPath], term: BoundTerm) -> Result<Option<Grouped>, NoMemory>
    ensures { IfOk result (λ o. o ≡ plan.grouped_of keys.now term) }
{
    match term {
        BoundTerm::Value(value) => match key_number(keys, &value)? {
            None => Ok(None),
            Some(number) => Ok(Some(Grouped::Key(number))),
        },
        BoundTerm::Rows(within) => match within {
            None => Ok(Some(Grouped::Aggregate(Aggregate::Rows))),
            Some(_) => Ok(None),
        },
        BoundTerm::Aggregated(fold, argument, within) => match within {
            None => {
                let argument = Box::into_inner(argument.expression);
                Ok(Some(Grouped::Aggregate(Aggregate::Of(fold, argument))))
            }
            Some(_) => Ok(None),
        },
    }
}

/// Appends an item of an aggregate query, and its aggregate, if it gives one.
fn push_grouped(
    name: String,
    term: Option<Grouped>,
    aggregates: &mut Vec<Aggregate>,
    items: &mut Vec<GroupItem>,
) -> Result<(), NoMemory>
    ensures aggregates { OnOk result ((aggregates.new).items ≡ (aggregates.old).items ++ plan.with_aggregate term []) }
    ensures items { OnOk result ((items.new).items
        ≡ (items.old).items ++ plan.with_group_item (length (aggregates.old).items) name term (λ _. [])) }
{
    match term {
        None => Ok(()),
        Some(Grouped::Key(number)) => {
            let term = GroupTerm::Key(number);
            items.push(GroupItem { name, term })?;
            Ok(())
        }
        Some(Grouped::Aggregate(aggregate)) => {
            let number = aggregates.len();
            aggregates.push(aggregate)?;
            let number = narrow(number)?;
            let term = GroupTerm::Aggregate(number);
            items.push(GroupItem { name, term })?;
            Ok(())
        }
    }
}

/// The numbers of the keys' leaves.
fn key_leaves(alloc: Global, leaves: &[Path], keys: &[BoundPath]) -> Result<Vec<u32>, NoMemory>
    ensures { IfOk result (λ v. plan.AreNumbers (map path_view leaves.now) (map bound_path_view keys.now) v.items) }
{
    let mut numbers = Vec::new(alloc);
    'keys: for key in keys {
        numbers.push(leaf_number(leaves, key.leaf.steps.as_slice()))?;
    }
    Ok(numbers)
}

/// The groups that an aggregate query selects.
pub(crate) fn selected_groups(
    alloc: Global,
    leaves: &[Path],
    keys: &[BoundPath],
    items: Vec<BoundItem>,
) -> Result<Selection, NoMemory>
    ensures { IfOk result (λ s. plan.SelectsGroups (map path_view leaves.now) keys.now items.items s) }
{
    let numbers = key_leaves(alloc, leaves, keys)?;
    let mut aggregates = Vec::new(alloc);
    let mut made = Vec::new(alloc);
    'items: for item in items {
        let term = group_term(keys, item.term)?;
        push_grouped(item.name, term, &mut aggregates, &mut made)?;
    }
    Ok(Selection::Groups(numbers, aggregates, made))
}
