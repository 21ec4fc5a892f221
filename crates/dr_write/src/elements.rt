//! The elements of a schema.

ghost use Rattle.std.specs.Prelude.{◌≡◌, ◌++◌, IfOk, OnOk};
ghost use Rattle.dr_formats.specs.Writing.{type_from, repetition_number, converted_from, leaf_element, group_element, elements, shape_elements, schema_elements};
ghost use Rattle.dr_nested.specs.Views.{rep_view, kind_view, shape_view, fields_view};
ghost use Rattle.dr_nested.specs.SchemaView.{schema_view};
ghost use Rattle.std.specs.Prelude.{pos};
ghost use Rattle.dr_meta.specs.Views.{item_view, items_view};

use dr_memory::NoMemory;
use dr_meta::SchemaItem;
use dr_nested::{Field, Kind, Rep, Schema, Shape};
use std::alloc::Global;

/// The number of a kind's type.
pub(crate) fn type_number(kind: Kind) -> i64
    ensures { result ≡ pos (type_from (kind_view kind)) }
{
    match kind {
        Kind::Bool => 0,
        Kind::I32 => 1,
        Kind::I64 => 2,
        Kind::Text => 6,
    }
}

/// The number of a repetition.
fn repetition_number(rep: Rep) -> i64
    ensures { result ≡ pos (repetition_number (rep_view rep)) }
{
    match rep {
        Rep::Required => 0,
        Rep::Optional => 1,
        Rep::Repeated => 2,
    }
}

/// The number of the converted type of a kind: texts are UTF-8.
fn converted_number(kind: Kind) -> Option<i64>
    ensures { result ≡ converted_from (kind_view kind) }
{
    match kind {
        Kind::Bool | Kind::I32 | Kind::I64 => None,
        Kind::Text => Some(0),
    }
}

/// The element of a leaf.
fn leaf_item<'a>(name: &'a str, rep: Rep, kind: Kind) -> SchemaItem<'a>
    ensures { item_view result ≡ leaf_element name.now (rep_view rep) (kind_view kind) }
{
    SchemaItem {
        kind: Some(type_number(kind)),
        kind_length: None,
        repetition: Some(repetition_number(rep)),
        name: name.as_bytes(),
        children: None,
        converted: converted_number(kind),
    }
}

/// The element of a group, whose repetition has this number.
fn group_item<'a>(name: &'a str, repetition: Option<i64>, fields: &Vec<Field>) -> SchemaItem<'a>
    ensures { item_view result ≡ group_element name.now repetition (fields_view (fields.now).items) }
{
    SchemaItem {
        kind: None,
        kind_length: None,
        repetition,
        name: name.as_bytes(),
        children: Some(fields.len() as i64),
        converted: None,
    }
}

/// The elements of a schema: the root, and the fields, depth first.
///
/// Errors: want of memory alone.
pub(crate) fn schema_items<'a>(
    alloc: Global,
    schema: &'a Schema,
) -> Result<Vec<SchemaItem<'a>>, NoMemory>
    ensures { IfOk result (λ v. items_view v ≡ schema_elements (schema_view schema.now)) }
{
    let mut items = Vec::new(alloc);
    items.push(group_item(schema.name.as_str(), None, &schema.fields))?;
    push_fields(&schema.fields, &mut items)?;
    Ok(items)
}

/// Appends the elements of the fields of a group.
#[cycle(elements)]
fn push_fields<'a>(fields: &'a Vec<Field>, items: &mut Vec<SchemaItem<'a>>) -> Result<(), NoMemory>
    ensures { OnOk result (items_view items.new ≡ items_view items.old ++ elements (fields_view (fields.now).items)) }
{
    'fields: for field in fields {
        push_shape(field.name.as_str(), field.rep, &field.shape, items)?;
    }
    Ok(())
}

/// Appends the elements of a field.
#[cycle(elements)]
fn push_shape<'a>(
    name: &'a str,
    rep: Rep,
    shape: &'a Shape,
    items: &mut Vec<SchemaItem<'a>>,
) -> Result<(), NoMemory>
    ensures { OnOk result (items_view items.new
        ≡ items_view items.old ++ shape_elements name.now (rep_view rep) (shape_view shape.now)) }
{
    match shape {
        Shape::Leaf(kind) => {
            items.push(leaf_item(name, rep, *kind))?;
            Ok(())
        }
        Shape::Group(fields) => {
            items.push(group_item(name, Some(repetition_number(rep)), fields))?;
            push_fields(fields, items)
        }
    }
}
