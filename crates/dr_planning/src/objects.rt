//! The plan of a result's objects.

ghost use Rattle.std.specs.Prelude.{◌≡◌, ◌<◌, ◌^◌, ◌∷◌, [], IfOk, OnOk, length, map};
ghost use Rattle.std.specs.List.{list_any};
ghost use Rattle.dr_meaning.specs.Path as path_meaning;
ghost use Rattle.dr_nested.specs.PathView.{lent_path, step_view};
ghost use Rattle.dr_planning.specs.NamedLevels.{level_view, levels_view};
ghost use Rattle.dr_planning.specs.Planning.{AreObjects};
ghost use Rattle.dr_planning.specs.Trees.{append_lists, list_view, lists_view, named_object, named_trees, numbers_at};
ghost use Rattle.dr_plan.specs.Objects.{object_tree, object_view};

use crate::listed::Listed;
use dr_memory::NoMemory;
use dr_nested::Step;
use dr_paths::{begins_with, same_path};
use dr_plan::{ListPlan, ObjectPlan};
use std::alloc::Global;

/// The plan of a result's objects, by a schema's levels and the chain of each item, in SELECT order.
///
/// Errors: want of memory alone.
pub fn object_plan(
    alloc: Global,
    levels: &[Listed],
    items: &[&[Step]],
) -> Result<ObjectPlan, NoMemory>
    requires { length items.now < 2 ^ 32 }
    ensures tree { IfOk result (λ o. object_view o ≡ named_object (map lent_path items.now) (levels_view levels.now)) }
    ensures meant { IfOk result (AreObjects (levels_view levels.now) (map lent_path items.now)) }
{
    object_at(alloc, levels, &[], items)
}

/// The object of a level, with a list for each level next below it that leads to items.
#[cycle(objects)]
fn object_at(
    alloc: Global,
    below: &[Listed],
    level: &[Step],
    items: &[&[Step]],
) -> Result<ObjectPlan, NoMemory>
    requires { length items.now < 2 ^ 32 }
    ensures { IfOk result (λ o. object_view o
        ≡ object_tree (numbers_at 0 (map lent_path items.now) (map step_view level.now))
        (named_trees (map lent_path items.now) (levels_view below.now))) }
{
    let own = numbers_of(alloc, items, level)?;
    let mut lists = Vec::new(alloc);
    'levels: for next in below {
        push_list(alloc, next, items, &mut lists)?;
    }
    Ok(ObjectPlan { items: own, lists })
}

/// Appends the list of a level, if it leads to items.
#[cycle(objects)]
fn push_list(
    alloc: Global,
    level: &Listed,
    items: &[&[Step]],
    lists: &mut Vec<ListPlan>,
) -> Result<(), NoMemory>
    requires { length items.now < 2 ^ 32 }
    ensures { OnOk result (lists_view (lists.new).items
        ≡ append_lists (lists_view (lists.old).items)
        (named_trees (map lent_path items.now) (levels_view (level.now ∷ [])))) }
{
    if !leads_to(items, &level.path) {
        return Ok(());
    }
    let object = object_at(alloc, &level.below, &level.path, items)?;
    lists.push(list_of(alloc, level, object)?)?;
    Ok(())
}

/// The list of a level, with an object for each instance.
fn list_of(alloc: Global, level: &Listed, object: ObjectPlan) -> Result<ListPlan, NoMemory>
    ensures { IfOk result (λ l. list_view l ≡ record
        { name = (level_view level.now).name; level = (level_view level.now).path; object = object_view object }) }
{
    Ok(ListPlan {
        name: String::from_str(alloc, level.name.as_str())?,
        level: level.path.to_vec(alloc)?,
        object,
    })
}

/// Whether a level leads to items.
fn leads_to(items: &[&[Step]], level: &[Step]) -> bool
    ensures { result ≡ list_any (λ q. path_meaning.begins_with (map step_view level.now) (lent_path q)) items.now }
{
    items.iter().any(|item| begins_with(level, item))
}

/// The numbers of the items that belong to a level.
fn numbers_of(alloc: Global, items: &[&[Step]], level: &[Step]) -> Result<Vec<u32>, NoMemory>
    requires { length items.now < 2 ^ 32 }
    ensures { IfOk result (λ v. v.items ≡ numbers_at 0 (map lent_path items.now) (map step_view level.now)) }
{
    let mut numbers = Vec::new(alloc);
    'items: for (number, item) in items.iter().enumerate() {
        if same_path(level, item) {
            numbers.push(number as u32)?;
        }
    }
    Ok(numbers)
}
