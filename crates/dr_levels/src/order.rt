//! The orders in which the selected leaves of a schema are read.

ghost use Rattle.std.specs.Prelude.{◌≡◌, ◌++◌, ◌<◌, length, map, All, IfOk, OnOk};
ghost use Rattle.dr_meaning.specs.Automaton as automaton;
ghost use Rattle.dr_nested.specs.Views.{rep_view, shape_view, fields_view};
ghost use Rattle.dr_nested.specs.PathView.{path_view};
ghost use Rattle.dr_levels.specs.Orders.{pick_view, picks_at};

use dr_nested::{Field, NoMemory, Path, Rep, Schema, Shape, Step};
use std::alloc::{AllocError, Global};

/// The rest of a selected leaf's path, and the leaf's place in the selection.
#[derive(Clone, Copy)]
struct Pick<'a> {
    rest: &'a [Step],
    index: usize,
}

fn picks_of(alloc: Global, fields: &[Path]) -> Result<Vec<Pick<'_>>, AllocError>
    ensures { IfOk result (λ v. map pick_view v.items
        ≡ automaton.picks (map (λ (p : Path). (path_view p).path) fields.now)) }
{
    let mut picks = Vec::with_capacity(alloc, fields.len())?;
    'fields: for (index, field) in fields.iter().enumerate() {
        picks.push(Pick {
            rest: field.steps.as_slice(),
            index,
        })?;
    }
    Ok(picks)
}

/// The picks that go through the field at a place of a group, behind it.
fn picks_behind<'a>(
    alloc: Global,
    picks: &[Pick<'a>],
    place: usize,
) -> Result<Vec<Pick<'a>>, AllocError>
    ensures { IfOk result (λ v. map pick_view v.items ≡ picks_at place (map pick_view picks.now)) }
{
    let mut behind = Vec::new(alloc);
    'picks: for pick in picks {
        if let [first, rest @ ..] = pick.rest
            && first.place == place
        {
            behind.push(Pick {
                rest,
                index: pick.index,
            })?;
        }
    }
    Ok(behind)
}

fn add_indexes(picks: &[Pick], order: &mut Vec<usize>) -> Result<(), AllocError>
    ensures { OnOk result ((order.new).items ≡ (order.old).items ++ automaton.indexes (map pick_view picks.now)) }
{
    'picks: for pick in picks {
        order.push(pick.index)?;
    }
    Ok(())
}

#[cycle(by_schema)]
fn add_group_by_schema(
    alloc: Global,
    fields: &Vec<Field>,
    picks: &[Pick],
    order: &mut Vec<usize>,
) -> Result<(), AllocError>
    ensures { OnOk result ((order.new).items
        ≡ (order.old).items ++ automaton.schema_order_in (fields_view (fields.now).items) (map pick_view picks.now)) }
{
    'fields: for (place, field) in fields.iter().enumerate() {
        let behind = picks_behind(alloc, picks, place)?;
        add_by_schema(alloc, &field.shape, &behind, order)?;
    }
    Ok(())
}

#[cycle(by_schema)]
fn add_by_schema(
    alloc: Global,
    shape: &Shape,
    picks: &[Pick],
    order: &mut Vec<usize>,
) -> Result<(), AllocError>
    ensures { OnOk result ((order.new).items
        ≡ (order.old).items ++ automaton.shape_schema_order (shape_view shape.now) (map pick_view picks.now)) }
{
    match shape {
        Shape::Leaf(_) => add_indexes(picks, order),
        Shape::Group(fields) => add_group_by_schema(alloc, fields, picks, order),
    }
}

/// The leaves of one level: those that no further repeated field leads to.
#[cycle(near)]
fn add_group_near(
    alloc: Global,
    fields: &Vec<Field>,
    picks: &[Pick],
    order: &mut Vec<usize>,
) -> Result<(), AllocError>
    ensures { OnOk result ((order.new).items
        ≡ (order.old).items ++ automaton.near_order (fields_view (fields.now).items) (map pick_view picks.now)) }
{
    'fields: for (place, field) in fields.iter().enumerate() {
        let behind = picks_behind(alloc, picks, place)?;
        add_unless_repeated(alloc, field, &behind, order)?;
    }
    Ok(())
}

#[cycle(near)]
fn add_unless_repeated(
    alloc: Global,
    field: &Field,
    picks: &[Pick],
    order: &mut Vec<usize>,
) -> Result<(), AllocError>
    ensures { OnOk result ((order.new).items
        ≡ (order.old).items ++ automaton.unless_repeated (rep_view (field.now).rep)
        (automaton.shape_near_order (shape_view (field.now).shape) (map pick_view picks.now))) }
{
    match field.rep {
        Rep::Required | Rep::Optional => add_near(alloc, &field.shape, picks, order),
        Rep::Repeated => Ok(()),
    }
}

#[cycle(near)]
fn add_near(
    alloc: Global,
    shape: &Shape,
    picks: &[Pick],
    order: &mut Vec<usize>,
) -> Result<(), AllocError>
    ensures { OnOk result ((order.new).items
        ≡ (order.old).items ++ automaton.shape_near_order (shape_view shape.now) (map pick_view picks.now)) }
{
    match shape {
        Shape::Leaf(_) => add_indexes(picks, order),
        Shape::Group(fields) => add_group_near(alloc, fields, picks, order),
    }
}

fn add_where_repeated(
    alloc: Global,
    field: &Field,
    picks: &[Pick],
    order: &mut Vec<usize>,
) -> Result<(), AllocError>
    ensures { OnOk result ((order.new).items
        ≡ (order.old).items ++ automaton.where_repeated (rep_view (field.now).rep)
        (automaton.shape_near_order (shape_view (field.now).shape) (map pick_view picks.now))) }
{
    match field.rep {
        Rep::Required | Rep::Optional => Ok(()),
        Rep::Repeated => add_near(alloc, &field.shape, picks, order),
    }
}

/// The leaves below the next repeated fields.
#[cycle(far)]
fn add_group_far(
    alloc: Global,
    fields: &Vec<Field>,
    picks: &[Pick],
    order: &mut Vec<usize>,
) -> Result<(), AllocError>
    ensures { OnOk result ((order.new).items
        ≡ (order.old).items ++ automaton.far_order (fields_view (fields.now).items) (map pick_view picks.now)) }
{
    'fields: for (place, field) in fields.iter().enumerate() {
        let behind = picks_behind(alloc, picks, place)?;
        add_where_repeated(alloc, field, &behind, order)?;
        add_far(alloc, &field.shape, &behind, order)?;
    }
    Ok(())
}

#[cycle(far)]
fn add_far(
    alloc: Global,
    shape: &Shape,
    picks: &[Pick],
    order: &mut Vec<usize>,
) -> Result<(), AllocError>
    ensures { OnOk result ((order.new).items
        ≡ (order.old).items ++ automaton.shape_far_order (shape_view shape.now) (map pick_view picks.now)) }
{
    match shape {
        Shape::Leaf(_) => Ok(()),
        Shape::Group(fields) => add_group_far(alloc, fields, picks, order),
    }
}

fn places_by_schema(
    alloc: Global,
    schema: &Schema,
    fields: &[Path],
) -> Result<Vec<usize>, AllocError>
    ensures { IfOk result (λ v. v.items ≡ automaton.schema_order (fields_view (schema.now).fields.items)
        (map (λ (p : Path). (path_view p).path) fields.now)) }
{
    let picks = picks_of(alloc, fields)?;
    let mut order = Vec::with_capacity(alloc, fields.len())?;
    add_group_by_schema(alloc, &schema.fields, &picks, &mut order)?;
    Ok(order)
}

fn places_by_level(
    alloc: Global,
    schema: &Schema,
    fields: &[Path],
) -> Result<Vec<usize>, AllocError>
    ensures { IfOk result (λ v. v.items ≡ automaton.reading_order (fields_view (schema.now).fields.items)
        (map (λ (p : Path). (path_view p).path) fields.now)) }
{
    let picks = picks_of(alloc, fields)?;
    let mut order = Vec::with_capacity(alloc, fields.len())?;
    add_group_near(alloc, &schema.fields, &picks, &mut order)?;
    add_group_far(alloc, &schema.fields, &picks, &mut order)?;
    Ok(order)
}

/// The selected leaves in schema order, depth first, by their places in the selection.
///
/// Errors: want of memory alone.
pub fn schema_order(alloc: Global, schema: &Schema, fields: &[Path]) -> Result<Vec<usize>, NoMemory>
    ensures order { IfOk result (λ v. v.items
        ≡ automaton.schema_order (fields_view (schema.now).fields.items)
        (map (λ (p : Path). (path_view p).path) fields.now)) }
    ensures within { IfOk result (λ v. All (λ i. i < length fields.now) v.items) }
{
    match places_by_schema(alloc, schema, fields) {
        Ok(order) => Ok(order),
        Err(_) => Err(NoMemory),
    }
}

/// The selected leaves in reading order, by their places in the selection: level by level, and within a level in schema
/// order, before the leaves below each next repeated field.
///
/// Errors: want of memory alone.
pub fn reading_order(
    alloc: Global,
    schema: &Schema,
    fields: &[Path],
) -> Result<Vec<usize>, NoMemory>
    ensures order { IfOk result (λ v. v.items
        ≡ automaton.reading_order (fields_view (schema.now).fields.items)
        (map (λ (p : Path). (path_view p).path) fields.now)) }
    ensures within { IfOk result (λ v. All (λ i. i < length fields.now) v.items) }
{
    match places_by_level(alloc, schema, fields) {
        Ok(order) => Ok(order),
        Err(_) => Err(NoMemory),
    }
}
