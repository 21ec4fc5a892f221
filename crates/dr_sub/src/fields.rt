//! The fields of a result's schema.

ghost use Rattle.std.specs.Prelude.{◌≡◌, IfOk, OnOk};
ghost use Rattle.std.specs.List.{slice_get};
ghost use Rattle.dr_meaning.specs.SchemaText.{append_fields};
ghost use Rattle.dr_nested.specs.Views.{fields_view, kind_view};
ghost use Rattle.dr_plan.specs.Objects.{object_view};
ghost use Rattle.dr_cells.specs.PlanShapes.{plan_lists_view};
ghost use Rattle.dr_sub.specs.ResultFields as meant;

use crate::field_name::field_name;
use dr_memory::NoMemory;
use dr_nested::{Field, Kind, Rep, Shape};
use dr_plan::{Expr, Fold, ListPlan, ObjectPlan, RecordItem, RecordTerm};
use std::alloc::Global;

/// The kind of an expression's values.
fn value_kind(expression: &Expr) -> Kind
    ensures { kind_view result ≡ meant.value_kind expression.now }
{
    match expression {
        Expr::Truth(_) => Kind::Bool,
        Expr::Number(_) => Kind::I64,
        Expr::Text(_) => Kind::Text,
    }
}

/// The kind of the values that a term gives.
fn term_kind(term: &RecordTerm) -> Kind
    ensures { kind_view result ≡ meant.term_kind term.now }
{
    match term {
        RecordTerm::Value(value) => value_kind(value),
        RecordTerm::Within(within) => match within.fold {
            Fold::Count | Fold::Sum => Kind::I64,
            Fold::Least | Fold::Greatest => value_kind(&within.argument),
        },
    }
}

/// Appends the leaf of the item at a place, if there is one.
fn push_leaf(
    alloc: Global,
    items: &[RecordItem],
    place: usize,
    fields: &mut Vec<Field>,
) -> Result<(), NoMemory>
    ensures { OnOk result (fields_view (fields.new).items ≡ append_fields (fields_view (fields.old).items)
        (meant.leaf_at (slice_get (meant.leaves_of items.now) place))) }
{
    match items.get(place) {
        Some(item) => {
            let name = field_name(alloc, item.name.as_str())?;
            let shape = Shape::Leaf(term_kind(&item.term));
            let rep = Rep::Optional;
            fields.push(Field { name, rep, shape })?;
            Ok(())
        }
        None => Ok(()),
    }
}

/// Appends the leaves of the items at these places.
fn push_leaves(
    alloc: Global,
    items: &[RecordItem],
    places: &[u32],
    fields: &mut Vec<Field>,
) -> Result<(), NoMemory>
    ensures { OnOk result (fields_view (fields.new).items ≡ append_fields (fields_view (fields.old).items)
        (meant.leaves_at (meant.leaves_of items.now) places.now)) }
{
    'places: for place in places {
        push_leaf(alloc, items, *place as usize, fields)?;
    }
    Ok(())
}

/// The fields of an object: the leaves of its items, then a group for each of its lists.
///
/// Errors: want of memory alone.
#[cycle(fields)]
pub(crate) fn object_fields(
    alloc: Global,
    items: &[RecordItem],
    object: &ObjectPlan,
) -> Result<Vec<Field>, NoMemory>
    ensures { IfOk result (λ v. fields_view v.items
        ≡ meant.object_fields (meant.leaves_of items.now) (object_view object.now)) }
{
    let mut fields = Vec::new(alloc);
    push_leaves(alloc, items, &object.items, &mut fields)?;
    push_groups(alloc, items, &object.lists, &mut fields)?;
    Ok(fields)
}

/// Appends the group of each list.
#[cycle(fields)]
fn push_groups(
    alloc: Global,
    items: &[RecordItem],
    lists: &Vec<ListPlan>,
    fields: &mut Vec<Field>,
) -> Result<(), NoMemory>
    ensures { OnOk result (fields_view (fields.new).items ≡ append_fields (fields_view (fields.old).items)
        (meant.list_fields (meant.leaves_of items.now) (plan_lists_view (lists.now).items))) }
{
    'lists: for list in lists {
        let name = field_name(alloc, list.name.as_str())?;
        let inside = object_fields(alloc, items, &list.object)?;
        let rep = Rep::Repeated;
        let shape = Shape::Group(inside);
        fields.push(Field { name, rep, shape })?;
    }
    Ok(())
}
