//! Laying out the course of a schema and selected leaves.

ghost use Rattle.std.specs.Prelude.{◌≡◌, ◌≤◌, ◌<◌, ◌+◌, ◌^◌, ◌++◌, [], List, length, map, OnOk, IfOk};
ghost use Rattle.dr_meaning.specs.Schema.{depth, shape_depth, greatest_depth, repeated_fields, shape_repeated_fields, repetition_count};
ghost use Rattle.dr_meaning.specs.Schema as tree;
ghost use Rattle.dr_nested.specs.Views.{rep_view, shape_view, fields_view};
ghost use Rattle.dr_moves.specs.Course.{near_items, field_near_items, shape_near_items, where_selected, gated as meant_gated, course, Gate as MeantGate};
ghost use Rattle.dr_walk.specs.Laying.{lay, laying, no_level, closed, visited, lap_of, plain_visit};
ghost use Rattle.dr_walk.specs.Views.{picks_view, gates_view, level_view, items_view, lap_view, visit_view};
ghost use Rattle.dr_walk.specs.Flat.{visit_at, is_laid, is_table, field_near, group_far, field_far, shape_far, laid_in, JoinsLevel, body_laid};
ghost use Rattle.dr_nested.specs.PathView.{lent_path};

use crate::counting::count_repeated;
use crate::items::{Gate, Item, Lap, Visit};
use crate::level::{Level, copied, nulls_in};
use crate::picks::{Pick, first_leaf, picks_behind, picks_of};
use dr_nested::{Field, NoMemory, Rep, Schema, Shape, Step};
use std::alloc::Global;

/// Where a level is: the number of its next repeated field, and the repetition and definition level round it.
#[derive(Clone, Copy)]
pub struct Depth {
    pub number: u32,
    pub level: u8,
    pub definition: u8,
}

/// These gates, and that of an optional group in which these leaves are.
fn with_gate(
    alloc: Global,
    gates: &[Gate],
    picks: &[Pick],
    definition: u8,
) -> Result<Vec<Gate>, NoMemory>
    ensures { IfOk result (λ v. gates_view v.items ≡ meant_gated tree.optional (picks_view picks.now) definition
        (gates_view gates.now)) }
{
    let mut more = copied(alloc, gates)?;
    more.push(Gate {
        leaf: first_leaf(picks),
        definition,
    })?;
    Ok(more)
}

/// Adds the leaves of a group's level.
#[cycle(near)]
fn add_group_near(
    alloc: Global,
    fields: &Vec<Field>,
    picks: &[Pick],
    gates: &[Gate],
    definition: u8,
    level: &mut Level,
) -> Result<(), NoMemory>
    requires { definition + depth (fields_view (fields.now).items) ≤ greatest_depth }
    ensures { OnOk result (JoinsLevel (near_items (fields_view (fields.now).items) (picks_view picks.now)
        (gates_view gates.now) definition) level.old level.new) }
{
    'fields: for (place, field) in fields.iter().enumerate() {
        let behind = picks_behind(alloc, picks, place)?;
        add_field_near(alloc, field, &behind, gates, definition, level)?;
    }
    Ok(())
}

/// Adds the leaves of a field that are of the level around it.
#[cycle(near)]
fn add_field_near(
    alloc: Global,
    field: &Field,
    picks: &[Pick],
    gates: &[Gate],
    definition: u8,
    level: &mut Level,
) -> Result<(), NoMemory>
    requires { definition + 1 + shape_depth (shape_view (field.now).shape) ≤ greatest_depth }
    ensures { OnOk result (JoinsLevel (field_near field.now picks.now gates.now definition) level.old level.new) }
{
    match field.rep {
        Rep::Required => add_shape_near(alloc, &field.shape, picks, gates, definition, level),
        Rep::Optional => add_optional_near(alloc, &field.shape, picks, gates, definition, level),
        Rep::Repeated => Ok(()),
    }
}

/// Adds the leaves of an optional field that are of the level around it.
#[cycle(near)]
fn add_optional_near(
    alloc: Global,
    shape: &Shape,
    picks: &[Pick],
    gates: &[Gate],
    definition: u8,
    level: &mut Level,
) -> Result<(), NoMemory>
    requires { definition + 1 + shape_depth (shape_view shape.now) ≤ greatest_depth }
    ensures { OnOk result (JoinsLevel (field_near_items tree.optional (shape_view shape.now) (picks_view picks.now)
        (gates_view gates.now) definition) level.old level.new) }
{
    match shape {
        Shape::Leaf(kind) => {
            level.add_gives(alloc, *kind, picks, gates, definition, definition + 1)
        }
        Shape::Group(fields) => {
            let gates = with_gate(alloc, gates, picks, definition)?;
            add_group_near(alloc, fields, picks, &gates, definition + 1, level)
        }
    }
}

/// Adds the leaves of the level of an instance.
#[cycle(near)]
fn add_shape_near(
    alloc: Global,
    shape: &Shape,
    picks: &[Pick],
    gates: &[Gate],
    definition: u8,
    level: &mut Level,
) -> Result<(), NoMemory>
    requires { definition + shape_depth (shape_view shape.now) ≤ greatest_depth }
    ensures { OnOk result (JoinsLevel (shape_near_items (shape_view shape.now) (picks_view picks.now)
        (gates_view gates.now) definition) level.old level.new) }
{
    match shape {
        Shape::Leaf(kind) => level.add_gives(alloc, *kind, picks, gates, definition, definition),
        Shape::Group(fields) => add_group_near(alloc, fields, picks, gates, definition, level),
    }
}

/// Adds a level that is whole to the array, with its beginning and its end.
fn close(mut level: Level, end: Option<Lap>, code: &mut Vec<Item>) -> Result<(), NoMemory>
    ensures { OnOk result (items_view (code.new).items ≡ items_view (code.old).items
        ++ closed (is_laid end) (level_view level)) }
{
    level.gates.reverse();
    code.push(Item::Look(level.gates))?;
    code.append(&mut level.items)?;
    code.push(Item::End(end))?;
    Ok(())
}

/// The end of an instance of a repeated field, whose items begin at a place.
fn lap_at(picks: &[Pick], at: Depth, body: usize) -> Lap
    requires { at.level < greatest_depth }
    ensures { (s : tree.Shape) (G : List MeantGate) → lap_view result
        ≡ lap_of (visit_at s (picks_view picks.now) at G) body }
{
    Lap {
        number: at.number,
        level: at.level + 1,
        leaf: first_leaf(picks),
        body,
    }
}

/// A repeated field, with so many NULLs behind it, the items of whose instances begin at a place.
fn visit_of(picks: &[Pick], at: Depth, gates: &[Gate], nulls: usize, body: usize) -> Visit
    ensures { (s : tree.Shape) → visit_view result ≡ plain_visit (visit_at s (picks_view picks.now) at (gates_view
        gates.now)) nulls body }
{
    Visit {
        number: at.number,
        leaf: first_leaf(picks),
        low: at.definition,
        gated: !gates.is_empty(),
        nulls,
        body,
    }
}

/// Adds a repeated field, the level of whose instances this is.
fn add_visit(
    alloc: Global,
    picks: &[Pick],
    at: Depth,
    gates: &[Gate],
    body: Level,
    code: &mut Vec<Item>,
    level: &mut Level,
) -> Result<(), NoMemory>
    requires { at.level < greatest_depth }
    ensures { OnOk result ((s : tree.Shape) → laid_in code.new level.new
        ≡ visited (visit_at s (picks_view picks.now) at (gates_view gates.now)) (laid_in code.old body)
        (level_view level.old)) }
{
    let nulls = nulls_in(alloc, &body.items)?;
    let place = code.len();
    close(body, Some(lap_at(picks, at, place)), code)?;
    let visit = visit_of(picks, at, gates, nulls.len(), place);
    level.add(alloc, gates, Item::Visit(visit))?;
    level.add_nulls(nulls)?;
    Ok(())
}

/// Adds the next repeated fields of a group.
#[cycle(far)]
fn add_group_far(
    alloc: Global,
    fields: &Vec<Field>,
    picks: &[Pick],
    at: Depth,
    gates: &[Gate],
    code: &mut Vec<Item>,
    level: &mut Level,
) -> Result<(), NoMemory>
    requires levels { at.level + depth (fields_view (fields.now).items) ≤ greatest_depth }
    requires definitions { at.definition + depth (fields_view (fields.now).items) ≤ greatest_depth }
    requires numbers { at.number + repeated_fields (fields_view (fields.now).items) < 2 ^ 32 }
    ensures { OnOk result (laid_in code.new level.new
        ≡ lay (group_far (fields.now).items picks.now at gates.now) (laid_in code.old level.old)) }
{
    let mut at = at;
    'fields: for (place, field) in fields.iter().enumerate() {
        let behind = picks_behind(alloc, picks, place)?;
        add_selected_far(alloc, field, &behind, at, gates, code, level)?;
        at.number += count_repeated(field);
    }
    Ok(())
}

/// Adds what is far of a field, where selected leaves are in it.
#[cycle(far)]
fn add_selected_far(
    alloc: Global,
    field: &Field,
    picks: &[Pick],
    at: Depth,
    gates: &[Gate],
    code: &mut Vec<Item>,
    level: &mut Level,
) -> Result<(), NoMemory>
    requires levels { at.level + 1 + shape_depth (shape_view (field.now).shape) ≤ greatest_depth }
    requires definitions { at.definition + 1 + shape_depth (shape_view (field.now).shape) ≤ greatest_depth }
    requires numbers { at.number + (repetition_count (rep_view (field.now).rep) + shape_repeated_fields (shape_view
        (field.now).shape)) < 2 ^ 32 }
    ensures { OnOk result (laid_in code.new level.new
        ≡ lay (where_selected (picks_view picks.now) (field_far field.now picks.now at gates.now))
        (laid_in code.old level.old)) }
{
    match picks {
        [] => Ok(()),
        [_, ..] => add_field_far(alloc, field, picks, at, gates, code, level),
    }
}

/// Adds a field that is repeated, or else the next repeated fields below it.
#[cycle(far)]
fn add_field_far(
    alloc: Global,
    field: &Field,
    picks: &[Pick],
    at: Depth,
    gates: &[Gate],
    code: &mut Vec<Item>,
    level: &mut Level,
) -> Result<(), NoMemory>
    requires levels { at.level + 1 + shape_depth (shape_view (field.now).shape) ≤ greatest_depth }
    requires definitions { at.definition + 1 + shape_depth (shape_view (field.now).shape) ≤ greatest_depth }
    requires numbers { at.number + (repetition_count (rep_view (field.now).rep) + shape_repeated_fields (shape_view
        (field.now).shape)) < 2 ^ 32 }
    ensures { OnOk result (laid_in code.new level.new
        ≡ lay (field_far field.now picks.now at gates.now) (laid_in code.old level.old)) }
{
    match field.rep {
        Rep::Required => add_shape_far(alloc, &field.shape, picks, at, gates, code, level),
        Rep::Optional => {
            let gates = with_gate(alloc, gates, picks, at.definition)?;
            let inside = Depth {
                number: at.number,
                level: at.level,
                definition: at.definition + 1,
            };
            add_shape_far(alloc, &field.shape, picks, inside, &gates, code, level)
        }
        Rep::Repeated => {
            let body = body_of(alloc, &field.shape, picks, at, code)?;
            add_visit(alloc, picks, at, gates, body, code, level)
        }
    }
}

/// The level of the instances of a repeated field that has this shape.
#[cycle(far)]
fn body_of(
    alloc: Global,
    shape: &Shape,
    picks: &[Pick],
    at: Depth,
    code: &mut Vec<Item>,
) -> Result<Level, NoMemory>
    requires levels { at.level + 1 + shape_depth (shape_view shape.now) ≤ greatest_depth }
    requires definitions { at.definition + 1 + shape_depth (shape_view shape.now) ≤ greatest_depth }
    requires numbers { at.number + (1 + shape_repeated_fields (shape_view shape.now)) < 2 ^ 32 }
    ensures { IfOk result (λ level. laid_in code.new level ≡ body_laid (shape_view shape.now) (picks_view picks.now)
        at (laying (items_view (code.old).items) no_level)) }
{
    let mut level = Level::new(alloc);
    let inside = Depth {
        number: at.number + 1,
        level: at.level + 1,
        definition: at.definition + 1,
    };
    add_shape_near(alloc, shape, picks, &[], inside.definition, &mut level)?;
    add_shape_far(alloc, shape, picks, inside, &[], code, &mut level)?;
    Ok(level)
}

/// Adds the repeated fields in a shape.
#[cycle(far)]
fn add_shape_far(
    alloc: Global,
    shape: &Shape,
    picks: &[Pick],
    at: Depth,
    gates: &[Gate],
    code: &mut Vec<Item>,
    level: &mut Level,
) -> Result<(), NoMemory>
    requires levels { at.level + shape_depth (shape_view shape.now) ≤ greatest_depth }
    requires definitions { at.definition + shape_depth (shape_view shape.now) ≤ greatest_depth }
    requires numbers { at.number + shape_repeated_fields (shape_view shape.now) < 2 ^ 32 }
    ensures { OnOk result (laid_in code.new level.new
        ≡ lay (shape_far shape.now picks.now at gates.now) (laid_in code.old level.old)) }
{
    match shape {
        Shape::Leaf(_) => Ok(()),
        Shape::Group(fields) => add_group_far(alloc, fields, picks, at, gates, code, level),
    }
}

/// A course laid out, and where the items of a record begin.
#[derive(Drop)]
pub struct Table {
    pub items: Vec<Item>,
    pub root: usize,
}

/// The course of a schema and selected leaves.
///
/// Errors: want of memory alone.
pub fn table_of(alloc: Global, schema: &Schema, fields: &[&[Step]]) -> Result<Table, NoMemory>
    requires { length fields.now < 2 ^ 32 }
    ensures { IfOk result (λ t. is_table (course (fields_view (schema.now).fields.items) (map lent_path fields.now))
        t) }
{
    let picks = picks_of(alloc, fields)?;
    let mut items = Vec::new(alloc);
    let mut level = Level::new(alloc);
    let top = Depth {
        number: 1,
        level: 0,
        definition: 0,
    };
    add_group_near(alloc, &schema.fields, &picks, &[], 0, &mut level)?;
    add_group_far(
        alloc,
        &schema.fields,
        &picks,
        top,
        &[],
        &mut items,
        &mut level,
    )?;
    let root = items.len();
    close(level, None, &mut items)?;
    Ok(Table { items, root })
}
