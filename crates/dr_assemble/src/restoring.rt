//! Restoring nodes of the triplets of their leaves.

ghost use Rattle.std.specs.Prelude.{◌≡◌, ◌≤◌, ◌+◌, [], ◌∷◌, map, nat_lt, option_map};
ghost use Rattle.dr_meaning.specs.Schema.{depth, shape_depth, greatest_depth};
ghost use Rattle.dr_meaning.specs.Record as record_tree;
ghost use Rattle.dr_nested.specs.Views.{rep_view, kind_view, shape_view, fields_view, value_view, instance_view, slot_view, node_view};
ghost use Rattle.dr_levels.specs.Views.{lent_value, triplets_view};
ghost use Rattle.dr_assemble.specs.Restoring as restoring;
ghost use Rattle.dr_assemble.specs.Views.{strips_view, Restores};

use crate::strip::{Strip, copied, count_pieces, cut, front_length, without_steps};
use dr_levels::{Triplets, ValueRef};
use dr_nested::{Field, Instance, Kind, Node, Rep, Shape, Slot, Value, is_of_kind};
use dr_walk::AssembleFault;
use std::alloc::Global;

/// The value of the first triplet.
fn first_value<'a>(triplets: Triplets<'a>) -> Option<ValueRef<'a>>
    ensures { option_map lent_value result ≡ restoring.first_value (triplets_view triplets.entry) }
{
    let mut rest = triplets;
    match rest.next() {
        Some(first) => first.value,
        None => None,
    }
}

/// The first strip's first value.
pub fn first_strip_value<'a>(strips: &[Strip<'a>]) -> Option<ValueRef<'a>>
    ensures { option_map lent_value result ≡ restoring.first_strip_value (strips_view strips.now) }
{
    match strips {
        [first, ..] => first_value(first.triplets),
        [] => None,
    }
}

/// A leaf's instance, where the value is of its kind.
fn instance_of_kind(kind: Kind, value: Value) -> Result<Instance, AssembleFault>
    ensures { Restores instance_view (restoring.atom_of (kind_view kind) (value_view value)) result }
{
    if is_of_kind(kind, &value) {
        Ok(Instance::Atom(value))
    } else {
        Err(AssembleFault::BadData)
    }
}

/// A value of a leaf of this kind.
fn atom_of(alloc: Global, kind: Kind, value: ValueRef<'_>) -> Result<Instance, AssembleFault>
    ensures { Restores instance_view (restoring.atom_of (kind_view kind) (lent_value value.entry)) result }
{
    let value = value.to_value(alloc)?;
    instance_of_kind(kind, value)
}

/// A leaf's instance.
fn restore_atom(alloc: Global, kind: Kind, strips: &[Strip]) -> Result<Instance, AssembleFault>
    ensures { Restores instance_view (restoring.restored_atom (kind_view kind) (strips_view strips.now)) result }
{
    match first_strip_value(strips) {
        Some(value) => atom_of(alloc, kind, value),
        None => Err(AssembleFault::BadData),
    }
}

/// Whether the first definition level is above that of the group.
pub fn is_present(triplets: Triplets<'_>, definition: u32) -> bool
    ensures { result ≡ nat_lt definition (restoring.first_definition (triplets_view triplets.entry)) }
{
    match triplets.levels() {
        [first, ..] => definition < u32::from(first.definition),
        [] => false,
    }
}

/// An instance of a leaf or a group, below this many repeated fields, with this definition level.
#[cycle(restoring)]
fn restore_instance(
    alloc: Global,
    shape: &Shape,
    strips: &[Strip],
    level: u32,
    definition: u32,
) -> Result<Instance, AssembleFault>
    requires levels { level + shape_depth (shape_view shape.now) ≤ greatest_depth }
    requires definitions { definition + shape_depth (shape_view shape.now) ≤ greatest_depth }
    ensures { Restores instance_view (restoring.assembled_one (shape_view shape.now) level definition
        (strips_view strips.now)) result }
{
    match shape {
        Shape::Leaf(kind) => restore_atom(alloc, *kind, strips),
        Shape::Group(fields) => match restore_node(alloc, fields, strips, level, definition) {
            Ok(node) => Ok(Instance::Group(node)),
            Err(fault) => Err(fault),
        },
    }
}

/// The only instance of a field.
#[cycle(restoring)]
fn restore_single(
    alloc: Global,
    shape: &Shape,
    strips: &[Strip],
    level: u32,
    definition: u32,
) -> Result<Vec<Instance>, AssembleFault>
    requires levels { level + shape_depth (shape_view shape.now) ≤ greatest_depth }
    requires definitions { definition + shape_depth (shape_view shape.now) ≤ greatest_depth }
    ensures { Restores (λ v. map instance_view v.items)
        (option_map (λ x. x ∷ []) (restoring.assembled_one (shape_view shape.now) level definition
        (strips_view strips.now))) result }
{
    let mut instances = Vec::with_capacity(alloc, 1)?;
    instances.push(restore_instance(alloc, shape, strips, level, definition)?)?;
    Ok(instances)
}

/// So many instances of a repeated field, each of the first pieces of what the earlier ones left.
#[cycle(restoring)]
fn restore_each(
    alloc: Global,
    shape: &Shape,
    strips: &[Strip],
    count: usize,
    level: u32,
    definition: u32,
) -> Result<Vec<Instance>, AssembleFault>
    requires levels { level + shape_depth (shape_view shape.now) ≤ greatest_depth }
    requires definitions { definition + shape_depth (shape_view shape.now) ≤ greatest_depth }
    ensures { Restores (λ v. map instance_view v.items)
        (restoring.restored_each (restoring.assembled_one (shape_view shape.now) level definition) level count
        (strips_view strips.now)) result }
{
    let mut instances = Vec::with_capacity(alloc, count)?;
    let mut left = copied(alloc, strips)?;
    let mut first = copied(alloc, strips)?;
    'instances: for done in 0..count {
        cut(&mut left, &mut first, level);
        instances.push(restore_instance(alloc, shape, &first, level, definition)?)?;
    }
    Ok(instances)
}

/// The instances of a field, in a group below this many repeated fields, with this definition level.
#[cycle(restoring)]
fn restore_instances(
    alloc: Global,
    field: &Field,
    lead: Triplets<'_>,
    strips: &[Strip],
    level: u32,
    definition: u32,
) -> Result<Vec<Instance>, AssembleFault>
    requires levels { level + 1 + shape_depth (shape_view (field.now).shape) ≤ greatest_depth }
    requires definitions { definition + 1 + shape_depth (shape_view (field.now).shape) ≤ greatest_depth }
    ensures { Restores (λ v. map instance_view v.items)
        (restoring.field_instances (rep_view (field.now).rep) (shape_view (field.now).shape) level definition
        (triplets_view lead.entry) (strips_view strips.now)) result }
{
    match field.rep {
        Rep::Required => restore_single(alloc, &field.shape, strips, level, definition),
        _ if !is_present(lead, definition) => Ok(Vec::new(alloc)),
        Rep::Optional => restore_single(alloc, &field.shape, strips, level, definition + 1),
        Rep::Repeated => {
            let count = count_pieces(lead, level + 1);
            restore_each(
                alloc,
                &field.shape,
                strips,
                count,
                level + 1,
                definition + 1,
            )
        }
    }
}

/// A field's slot: a gap where no strip leads into the field.
#[cycle(restoring)]
fn restore_slot(
    alloc: Global,
    field: &Field,
    strips: &[Strip],
    level: u32,
    definition: u32,
) -> Result<Slot, AssembleFault>
    requires levels { level + 1 + shape_depth (shape_view (field.now).shape) ≤ greatest_depth }
    requires definitions { definition + 1 + shape_depth (shape_view (field.now).shape) ≤ greatest_depth }
    ensures { Restores slot_view (restoring.assembled_field (rep_view (field.now).rep)
        (shape_view (field.now).shape) level definition (strips_view strips.now)) result }
{
    match strips {
        [] => Ok(Slot::Gap),
        [first, ..] => {
            match restore_instances(alloc, field, first.triplets, strips, level, definition) {
                Ok(instances) => Ok(Slot::Held(instances)),
                Err(fault) => Err(fault),
            }
        }
    }
}

/// A node of a group, below this many repeated fields, with this definition level. The strips come field after field.
#[cycle(restoring)]
pub fn restore_node(
    alloc: Global,
    fields: &Vec<Field>,
    strips: &[Strip],
    level: u32,
    definition: u32,
) -> Result<Node, AssembleFault>
    requires levels { level + depth (fields_view (fields.now).items) ≤ greatest_depth }
    requires definitions { definition + depth (fields_view (fields.now).items) ≤ greatest_depth }
    ensures { Restores node_view (restoring.assembled (fields_view (fields.now).items) 0 level definition
        (strips_view strips.now)) result }
{
    let rests = without_steps(alloc, strips)?;
    let mut slots = Vec::with_capacity(alloc, fields.len())?;
    let mut from = 0;
    'fields: for (place, field) in fields.iter().enumerate() {
        let to = from + front_length(&strips[from..], place);
        slots.push(restore_slot(alloc, field, &rests[from..to], level, definition)?)?;
        from = to;
    }
    Ok(Node { slots })
}
