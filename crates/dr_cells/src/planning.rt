//! The shape of a plan's result.

ghost use Rattle.std.specs.Prelude.{◌≡◌, ◌++◌, [], IfOk, OnOk, map, string_bytes};
ghost use Rattle.std.specs.List.{slice_get};
ghost use Rattle.dr_plan.specs.Objects.{object_view};
ghost use Rattle.dr_plan.specs.Planned.{plan_view};
ghost use Rattle.dr_cells.specs.Results.{shape_tree, no_list_shapes};
ghost use Rattle.dr_cells.specs.Shapes.{shape_view, lists_view, plan_shape, names_at, with_name, tree_shape, tree_list_shapes};
ghost use Rattle.dr_cells.specs.PlanShapes.{item_names, row_names, plan_lists_view};

use crate::shape::{ListShape, Shape};
use dr_memory::NoMemory;
use dr_plan::{GroupItem, ListPlan, ObjectPlan, Plan, RecordItem, Selection};
use std::alloc::Global;

/// The shape of a plan's result objects: of a record query each object's items and lists, of an aggregate query its
/// items.
///
/// Errors: want of memory alone.
pub fn shape_of(alloc: Global, plan: &Plan) -> Result<Shape, NoMemory>
    ensures { IfOk result (λ s. shape_view s ≡ plan_shape (plan_view plan.now)) }
{
    match &plan.selection {
        Selection::Objects(items, object) => object_shape(alloc, items, object),
        Selection::Groups(_, _, items) => row_shape(alloc, items),
    }
}

/// The shape of a group's row.
fn row_shape(alloc: Global, items: &[GroupItem]) -> Result<Shape, NoMemory>
    ensures { IfOk result (λ s. shape_view s ≡ shape_tree (row_names items.now) no_list_shapes) }
{
    let mut names = Vec::with_capacity(alloc, items.len())?;
    'items: for item in items {
        names.push(String::from_str(alloc, item.name.as_str())?)?;
    }
    let lists = Vec::new(alloc);
    Ok(Shape { names, lists })
}

/// The shape of the objects that a record query makes at a level.
#[cycle(shapes)]
fn object_shape(alloc: Global, items: &[RecordItem], object: &ObjectPlan) -> Result<Shape, NoMemory>
    ensures { IfOk result (λ s. shape_view s ≡ tree_shape (item_names items.now) (object_view object.now)) }
{
    let names = names_of(alloc, items, &object.items)?;
    let lists = list_shapes(alloc, items, &object.lists)?;
    Ok(Shape { names, lists })
}

/// The lists in it.
#[cycle(shapes)]
fn list_shapes(
    alloc: Global,
    items: &[RecordItem],
    lists: &Vec<ListPlan>,
) -> Result<Vec<ListShape>, NoMemory>
    ensures { IfOk result (λ v. lists_view v.items
        ≡ tree_list_shapes (item_names items.now) (plan_lists_view (lists.now).items)) }
{
    let mut shapes = Vec::with_capacity(alloc, lists.len())?;
    'lists: for list in lists {
        let name = String::from_str(alloc, list.name.as_str())?;
        let shape = object_shape(alloc, items, &list.object)?;
        shapes.push(ListShape { name, shape })?;
    }
    Ok(shapes)
}

/// The names of the items at these places.
fn names_of(alloc: Global, items: &[RecordItem], places: &[u32]) -> Result<Vec<String>, NoMemory>
    ensures { IfOk result (λ v. map string_bytes v.items ≡ names_at (item_names items.now) places.now) }
{
    let mut names = Vec::with_capacity(alloc, places.len())?;
    'places: for place in places {
        push_name(alloc, items, *place as usize, &mut names)?;
    }
    Ok(names)
}

/// Appends the name of the item at a place, if there is one.
fn push_name(
    alloc: Global,
    items: &[RecordItem],
    place: usize,
    names: &mut Vec<String>,
) -> Result<(), NoMemory>
    ensures { OnOk result (map string_bytes (names.new).items
        ≡ map string_bytes (names.old).items ++ with_name (slice_get (item_names items.now) place) []) }
{
    match items.get(place) {
        Some(item) => {
            names.push(String::from_str(alloc, item.name.as_str())?)?;
            Ok(())
        }
        None => Ok(()),
    }
}
