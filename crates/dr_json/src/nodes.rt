//! Nodes and instances of fields from JSON values.

ghost use Rattle.std.specs.Prelude.{◌≡◌, true, option_map};
ghost use Rattle.serde_json.specs.Find.{get_member};
ghost use Rattle.serde_json.specs.View.{view, items_view, members_view};
ghost use Rattle.dr_meaning.specs.JsonRecord as line;
ghost use Rattle.dr_meaning.specs.JsonRecord.{given, each_element, field_instances};
ghost use Rattle.dr_meaning.specs.Record.{single};
ghost use Rattle.dr_meaning.specs.Schema.{is_group, is_shape};
ghost use Rattle.dr_nested.specs.Views.{fields_view, shape_view, rep_view, node_view, slots_view, instance_view, instances_view};
ghost use Rattle.dr_nested.specs.Faults.{Gives};
ghost use Rattle.dr_json.specs.Faults.{record_fault_view};
ghost use Rattle.dr_json.specs.Reading.{members_node};

use crate::fault::{RecordFault, RecordProblem};
use crate::keys::has_only_known_keys;
use crate::leaf::leaf_of;
use dr_nested::{Field, Instance, Node, Rep, Shape, Slot};
use serde_json::{Map, Value as Json};
use std::alloc::Global;

/// The node of an object's members: first that each key is a field's name, and then the fields in schema order.
#[cycle(reading)]
pub fn node_of(
    alloc: Global,
    fields: &[Field],
    object: &Map<String, Json>,
) -> Result<Node, RecordFault>
    requires { is_group (fields_view fields.now) ≡ true }
    ensures { Gives node_view record_fault_view
        (members_node (fields_view fields.now) (members_view object.now.entries)) result }
{
    if !has_only_known_keys(fields, object) {
        return Err(RecordFault::Refused(RecordProblem::UnknownField));
    }
    let slots = slots_of(alloc, fields, object)?;
    Ok(Node { slots })
}

/// The slots of a group's fields, in schema order.
#[cycle(reading)]
fn slots_of(
    alloc: Global,
    fields: &[Field],
    object: &Map<String, Json>,
) -> Result<Vec<Slot>, RecordFault>
    requires { is_group (fields_view fields.now) ≡ true }
    ensures { Gives (λ v. slots_view v.items) record_fault_view
        (line.slots_of (fields_view fields.now) (members_view object.now.entries)) result }
{
    let mut slots = Vec::with_capacity(alloc, fields.len())?;
    for field in fields {
        let found = present(member(object, field.name.as_str()));
        let instances = instances_of(alloc, field, found)?;
        slots.push(Slot::Held(instances))?;
    }
    Ok(slots)
}

/// The value of a key, if the object has it.
pub fn member<'v>(object: &'v Map<String, Json>, key: &str) -> Option<&'v Json>
    ensures { option_map (λ v. view v.now) result ≡ get_member key.now (members_view object.now.entries) }
{
    object.get(key)
}

/// What stands for a field: nothing, where its key is missing or its value is null.
pub fn present(found: Option<&Json>) -> Option<&Json>
    ensures { option_map (λ v. view v.now) result ≡ given (option_map (λ v. view v.now) found.entry) }
{
    match found {
        Some(value) if !value.is_null() => Some(value),
        _ => None,
    }
}

/// The instances of a field.
#[cycle(reading)]
fn instances_of(
    alloc: Global,
    field: &Field,
    found: Option<&Json>,
) -> Result<Vec<Instance>, RecordFault>
    requires { is_shape (shape_view (field.now).shape) ≡ true }
    ensures { Gives (λ v. instances_view v.items) record_fault_view
        (field_instances (rep_view (field.now).rep) (line.instance_of (shape_view (field.now).shape))
        (option_map (λ v. view v.now) found.entry)) result }
{
    match (field.rep, found) {
        (Rep::Required, None) => Err(RecordFault::Refused(RecordProblem::MissingField)),
        (Rep::Optional | Rep::Repeated, None) => Ok(Vec::new(alloc)),
        (Rep::Required | Rep::Optional, Some(value)) => one_instance(alloc, &field.shape, value),
        (Rep::Repeated, Some(value)) => match value.as_array() {
            Some(items) => elements_of(alloc, &field.shape, items),
            None => Err(RecordFault::Refused(RecordProblem::WrongKind)),
        },
    }
}

/// The only instance of a field.
#[cycle(reading)]
fn one_instance(alloc: Global, shape: &Shape, value: &Json) -> Result<Vec<Instance>, RecordFault>
    requires { is_shape (shape_view shape.now) ≡ true }
    ensures { Gives (λ v. instances_view v.items) record_fault_view
        (line.then_give single (line.instance_of (shape_view shape.now) (view value.now))) result }
{
    let mut instances = Vec::with_capacity(alloc, 1)?;
    instances.push(instance_of(alloc, shape, value)?)?;
    Ok(instances)
}

/// The instances of a list's elements.
#[cycle(reading)]
fn elements_of(alloc: Global, shape: &Shape, items: &[Json]) -> Result<Vec<Instance>, RecordFault>
    requires { is_shape (shape_view shape.now) ≡ true }
    ensures { Gives (λ v. instances_view v.items) record_fault_view
        (each_element (line.instance_of (shape_view shape.now)) (items_view items.now)) result }
{
    let mut instances = Vec::with_capacity(alloc, items.len())?;
    for item in items {
        if item.is_null() {
            return Err(RecordFault::Refused(RecordProblem::NullElement));
        }
        instances.push(instance_of(alloc, shape, item)?)?;
    }
    Ok(instances)
}

/// An instance of a leaf or a group.
#[cycle(reading)]
fn instance_of(alloc: Global, shape: &Shape, value: &Json) -> Result<Instance, RecordFault>
    requires { is_shape (shape_view shape.now) ≡ true }
    ensures { Gives instance_view record_fault_view (line.instance_of (shape_view shape.now) (view value.now)) result }
{
    match shape {
        Shape::Leaf(kind) => Ok(Instance::Atom(leaf_of(alloc, *kind, value)?)),
        Shape::Group(fields) => match value.as_object() {
            Some(object) => Ok(Instance::Group(node_of(alloc, fields, object)?)),
            None => Err(RecordFault::Refused(RecordProblem::WrongKind)),
        },
    }
}
