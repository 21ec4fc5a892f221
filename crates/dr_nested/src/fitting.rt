//! Whether a node is a record of a schema.

ghost use Rattle.std.specs.Prelude.{◌≡◌};
ghost use Rattle.dr_meaning.specs.Record as record_tree;
ghost use Rattle.dr_nested.specs.Views.{rep_view, kind_view, field_view, shape_view, fields_view, value_view, instance_view, instances_view, slot_view, node_view};
ghost use Rattle.dr_nested.specs.Fitting.{fits_slot};

use crate::record::{Instance, Node, Slot, Value};
use crate::schema::Schema;
use crate::shape::{Field, Kind, Rep, Shape};

/// Whether whole numbers of a kind include this one.
fn is_number_of(kind: Kind, number: i64) -> bool
    ensures { result ≡ record_tree.is_of_kind (kind_view kind) (record_tree.int_value number) }
{
    match kind {
        Kind::I32 => i32::try_from(number).is_ok(),
        Kind::I64 => true,
        Kind::Bool | Kind::Text => false,
    }
}

/// Whether a text is of a kind.
fn is_text_of(kind: Kind, text: &str) -> bool
    ensures { result ≡ record_tree.is_of_kind (kind_view kind) (record_tree.text_value text.now) }
{
    match kind {
        Kind::Text => true,
        Kind::Bool | Kind::I32 | Kind::I64 => false,
    }
}

/// Whether a value is of a kind, and a whole number in its range.
pub fn is_of_kind(kind: Kind, value: &Value) -> bool
    ensures { result ≡ record_tree.is_of_kind (kind_view kind) (value_view value.now) }
{
    match value {
        Value::Bool(_) => matches!(kind, Kind::Bool),
        Value::Int(number) => is_number_of(kind, *number),
        Value::Text(text) => is_text_of(kind, text.as_str()),
    }
}

/// Whether a field may have so many instances.
fn fits_repetition(rep: Rep, count: usize) -> bool
    ensures { result ≡ record_tree.fits_repetition (rep_view rep) count }
{
    match rep {
        Rep::Required => count == 1,
        Rep::Optional => count <= 1,
        Rep::Repeated => true,
    }
}

/// Whether a value or a node is an instance of a shape.
#[cycle(fitting)]
fn is_instance(instance: &Instance, shape: &Shape) -> bool
    ensures { result ≡ record_tree.is_instance (shape_view shape.now) (instance_view instance.now) }
{
    match shape {
        Shape::Leaf(kind) => match instance {
            Instance::Atom(value) => is_of_kind(*kind, value),
            Instance::Group(_) => false,
        },
        Shape::Group(fields) => match instance {
            Instance::Atom(_) => false,
            Instance::Group(node) => is_group(node, fields),
        },
    }
}

/// Whether all of a field's instances are of its shape.
#[cycle(fitting)]
fn are_instances(instances: &Vec<Instance>, shape: &Shape) -> bool
    ensures { result ≡ record_tree.all_instances (record_tree.is_instance (shape_view shape.now))
        (instances_view (instances.now).items) }
{
    'instances: for instance in instances {
        if !is_instance(instance, shape) {
            return false;
        }
    }
    true
}

/// Whether a slot is one of a field.
#[cycle(fitting)]
fn is_slot(slot: &Slot, field: &Field) -> bool
    ensures { result ≡ fits_slot (field_view field.now) (slot_view slot.now) }
{
    match slot {
        Slot::Gap => false,
        Slot::Held(instances) => {
            fits_repetition(field.rep, instances.len()) && are_instances(instances, &field.shape)
        }
    }
}

/// Whether a node is one of a group of fields.
#[cycle(fitting)]
fn is_group(node: &Node, fields: &Vec<Field>) -> bool
    ensures { result ≡ record_tree.is_record (fields_view (fields.now).items) (node_view node.now) }
{
    if node.slots.len() != fields.len() {
        return false;
    }
    'slots: for (place, slot) in node.slots.iter().enumerate() {
        if !is_slot(slot, &fields[place]) {
            return false;
        }
    }
    true
}

/// Whether a node is a record of a schema: a slot for each field, with as many instances as its repetition allows, each
/// of the field's shape.
pub fn is_record(schema: &Schema, node: &Node) -> bool
    ensures { result ≡ record_tree.is_record (fields_view (schema.now).fields.items) (node_view node.now) }
{
    is_group(node, &schema.fields)
}
