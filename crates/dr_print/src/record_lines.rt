//! The line of a record: compact JSON, ended by LF.

ghost use Rattle.std.specs.Prelude.{◌≡◌, ◌++◌, ◌||◌, false, Some, string_bytes, IfOk, OnOk};
ghost use Rattle.dr_meaning.specs.Print as print;
ghost use Rattle.dr_nested.specs.Views.{rep_view, field_view, shape_view, fields_view, value_view, instance_view, instances_view, slot_view, node_view};
ghost use Rattle.dr_print.specs.Members.{has_parts, held_text, texts_in, members_in};
ghost use Rattle.dr_meaning.specs.Lists.{separated};

use crate::parts::{push_comma, push_name, push_quoted};
use crate::triplet_lines::push_int;
use dr_nested::{Field, Instance, NoMemory, Node, Rep, Schema, Shape, Slot, Value};
use std::alloc::{AllocError, Global};

/// Appends a value as compact JSON.
fn push_value(alloc: Global, text: &mut String, value: &Value) -> Result<(), AllocError>
    ensures { OnOk result (string_bytes text.new ≡ string_bytes text.old ++ print.value_text (value_view value.now)) }
{
    match value {
        Value::Bool(true) => text.push_str("true"),
        Value::Bool(false) => text.push_str("false"),
        Value::Int(number) => push_int(text, *number),
        Value::Text(value) => push_quoted(alloc, text, value.as_str()),
    }
}

/// Whether a field with these instances is printed: a repeated field always, another one where it has an instance.
fn is_printed(field: &Field, instances: &Vec<Instance>) -> bool
    ensures { result ≡ has_parts (members_in (field_view field.now) (Some (instances_view (instances.now).items))) }
{
    match field.rep {
        Rep::Repeated => true,
        Rep::Required | Rep::Optional => !instances.is_empty(),
    }
}

/// Appends an instance of a shape; nothing where a leaf has a node or a group a value.
#[cycle(members)]
fn push_instance(
    alloc: Global,
    text: &mut String,
    instance: &Instance,
    shape: &Shape,
) -> Result<(), AllocError>
    ensures { OnOk result (string_bytes text.new
        ≡ string_bytes text.old ++ print.shape_text (shape_view shape.now) (instance_view instance.now)) }
{
    match shape {
        Shape::Leaf(_) => match instance {
            Instance::Atom(value) => push_value(alloc, text, value),
            Instance::Group(_) => Ok(()),
        },
        Shape::Group(fields) => match instance {
            Instance::Atom(_) => Ok(()),
            Instance::Group(node) => push_node(alloc, text, node, fields),
        },
    }
}

/// Appends the instances of a field, separated by commas.
#[cycle(members)]
fn push_instances(
    alloc: Global,
    text: &mut String,
    instances: &Vec<Instance>,
    shape: &Shape,
) -> Result<(), AllocError>
    ensures { OnOk result (string_bytes text.new
        ≡ string_bytes text.old ++ separated false
        (print.instance_texts (print.shape_text (shape_view shape.now)) (instances_view (instances.now).items))) }
{
    let mut behind = false;
    'instances: for instance in instances {
        push_comma(text, behind)?;
        push_instance(alloc, text, instance, shape)?;
        behind = true;
    }
    Ok(())
}

/// Appends what stands behind a field's name: a list, or the one instance.
#[cycle(members)]
fn push_held(
    alloc: Global,
    text: &mut String,
    instances: &Vec<Instance>,
    field: &Field,
) -> Result<(), AllocError>
    ensures { OnOk result (string_bytes text.new
        ≡ string_bytes text.old ++ held_text (rep_view (field.now).rep)
        (texts_in (field_view field.now) (instances_view (instances.now).items))) }
{
    match field.rep {
        Rep::Repeated => {
            text.push_str("[")?;
            push_instances(alloc, text, instances, &field.shape)?;
            text.push_str("]")
        }
        Rep::Required | Rep::Optional => match instances.first() {
            Some(instance) => push_instance(alloc, text, instance, &field.shape),
            None => Ok(()),
        },
    }
}

/// Appends a field, if it is printed, and tells whether something stands before the next one.
#[cycle(members)]
fn push_slot(
    alloc: Global,
    text: &mut String,
    slot: &Slot,
    field: &Field,
    behind: bool,
) -> Result<bool, AllocError>
    ensures text { OnOk result (string_bytes text.new
        ≡ string_bytes text.old ++ separated behind (members_in (field_view field.now) (slot_view slot.now))) }
    ensures behind { IfOk result (λ b. b ≡ (behind || has_parts
        (members_in (field_view field.now) (slot_view slot.now)))) }
{
    match slot {
        Slot::Gap => Ok(behind),
        Slot::Held(instances) => {
            if !is_printed(field, instances) {
                return Ok(behind);
            }
            push_comma(text, behind)?;
            push_name(alloc, text, field.name.as_str())?;
            push_held(alloc, text, instances, field)?;
            Ok(true)
        }
    }
}

/// Appends the members of a group, separated by commas.
#[cycle(members)]
fn push_members(
    alloc: Global,
    text: &mut String,
    node: &Node,
    fields: &Vec<Field>,
) -> Result<(), AllocError>
    ensures { OnOk result (string_bytes text.new
        ≡ string_bytes text.old ++ separated false
        (print.record_members (fields_view (fields.now).items) (node_view node.now))) }
{
    let mut behind = false;
    'slots: for (place, slot) in node.slots.iter().enumerate() {
        if place >= fields.len() {
            return Ok(());
        }
        behind = push_slot(alloc, text, slot, &fields[place], behind)?;
    }
    Ok(())
}

/// Appends a group as an object.
#[cycle(members)]
fn push_node(
    alloc: Global,
    text: &mut String,
    node: &Node,
    fields: &Vec<Field>,
) -> Result<(), AllocError>
    ensures { OnOk result (string_bytes text.new
        ≡ string_bytes text.old ++ print.braced (print.record_members (fields_view (fields.now).items)
        (node_view node.now))) }
{
    text.push_str("{")?;
    push_members(alloc, text, node, fields)?;
    text.push_str("}")
}

/// Appends a record's line: compact JSON (RFC 8259) with the fields in the schema's order, ended by LF. An absent
/// optional field and a field that a projection dropped aren't printed; a repeated field always is, as a list.
///
/// Errors: want of memory alone; the text may then have a part of the line behind what it had.
pub fn push_record_text(
    alloc: Global,
    text: &mut String,
    schema: &Schema,
    node: &Node,
) -> Result<(), NoMemory>
    ensures { OnOk result (string_bytes text.new
        ≡ string_bytes text.old ++ print.record_text (fields_view (schema.now).fields.items) (node_view node.now)) }
{
    push_node(alloc, text, node, &schema.fields)?;
    text.push_str("\n")?;
    Ok(())
}

/// A record's line, as `push_record_text` appends it.
///
/// Errors: want of memory alone.
pub fn record_text(alloc: Global, schema: &Schema, node: &Node) -> Result<String, NoMemory>
    ensures { IfOk result (λ s. string_bytes s
        ≡ print.record_text (fields_view (schema.now).fields.items) (node_view node.now)) }
{
    let mut text = String::new(alloc);
    push_record_text(alloc, &mut text, schema, node)?;
    Ok(text)
}
