//! Whether a value is a record of a schema, and how large it is: nothing is copied.

ghost use Rattle.std.specs.Prelude.{◌≡◌, true, option_map};
ghost use Rattle.serde_json.specs.Find.{as_object};
ghost use Rattle.serde_json.specs.View.{view, items_view, members_view};
ghost use Rattle.dr_meaning.specs.JsonRecord as line;
ghost use Rattle.dr_meaning.specs.JsonRecord.{each_element, field_instances, leaf_value, node_within_limits};
ghost use Rattle.dr_meaning.specs.Record.{Node, atom, single, no_instances};
ghost use Rattle.dr_meaning.specs.Schema.{is_group, is_shape};
ghost use Rattle.dr_nested.specs.Views.{fields_view, shape_view, rep_view, kind_view};
ghost use Rattle.dr_levels.specs.Views.{lent_value};
ghost use Rattle.dr_json.specs.Reading.{members_node};
ghost use Rattle.dr_json.specs.Size.{node_size, instances_size, instance_size};
ghost use Rattle.dr_json.specs.Held.{leaf_held, before_held, each_held, field_held, slots_held, instance_held, object_held};
ghost use Rattle.dr_json.specs.Checks.{Checks, ChecksOne, ChecksFields, ChecksRecord, given_count};

use crate::fault::RecordProblem;
use crate::keys::has_only_known_keys;
use crate::leaf::lent_leaf;
use crate::line::{MOST_INSTANCES, MOST_TEXT_BYTES};
use crate::nodes::{member, present};
use crate::size::Size;
use dr_levels::ValueRef;
use dr_nested::{Field, Kind, Rep, Shape};
use serde_json::{Map, Value as Json};

/// What a group's fields have: how large it is, and how many of them have a key.
#[derive(Clone, Copy, PartialEq, Eq)]
pub struct Given {
    pub size: Size,
    pub count: usize,
}

/// Whether a value is a record of a schema, within the limits of records.
///
/// Errors: its first problem, as `record_of` tells it.
pub fn check_record(fields: &[Field], value: &Json) -> Result<(), RecordProblem>
    requires { is_group (fields_view fields.now) ≡ true }
    ensures { ChecksRecord (line.record_of_value (fields_view fields.now) (view value.now))
        (object_held (fields_view fields.now) (as_object (view value.now))) result }
{
    match value.as_object() {
        Some(object) => check_limits(check_node(fields, object)?),
        None => Err(RecordProblem::WrongKind),
    }
}

/// Whether a size is within the limits.
#[inline(always)]
pub fn check_limits(size: Size) -> Result<(), RecordProblem>
    ensures { (n : Node) → size ≡ node_size n → ChecksRecord (node_within_limits n) n result }
{
    if size.instances > MOST_INSTANCES || size.text_bytes > MOST_TEXT_BYTES {
        Err(RecordProblem::TooLarge)
    } else {
        Ok(())
    }
}

/// The size of the node of an object's members. Each key is looked up once: only where a field has a fault, they are
/// gone through again, since an unknown key comes first.
#[cycle(checking)]
fn check_node(fields: &[Field], object: &Map<String, Json>) -> Result<Size, RecordProblem>
    requires { is_group (fields_view fields.now) ≡ true }
    ensures { Checks node_size (members_node (fields_view fields.now) (members_view object.now.entries))
        (slots_held (fields_view fields.now) (members_view object.now.entries)) result }
{
    match check_fields(fields, object) {
        Ok(given) if given.count == object.len() => Ok(given.size),
        Ok(_) => Err(RecordProblem::UnknownField),
        Err(problem) if has_only_known_keys(fields, object) => Err(problem),
        Err(_) => Err(RecordProblem::UnknownField),
    }
}

/// What the fields of a group have in an object, in schema order.
#[cycle(checking)]
fn check_fields(fields: &[Field], object: &Map<String, Json>) -> Result<Given, RecordProblem>
    requires { is_group (fields_view fields.now) ≡ true }
    ensures { ChecksFields (line.slots_of (fields_view fields.now) (members_view object.now.entries))
        (slots_held (fields_view fields.now) (members_view object.now.entries))
        (given_count (members_view object.now.entries) fields.now) result }
{
    let mut size = Size::NOTHING;
    let mut count = 0;
    'fields: for field in fields {
        let found = member(object, field.name.as_str());
        count += usize::from(found.is_some());
        size = size.plus(check_field(field, present(found))?);
    }
    Ok(Given { size, count })
}

/// The size of a field's instances.
#[cycle(checking)]
fn check_field(field: &Field, found: Option<&Json>) -> Result<Size, RecordProblem>
    requires { is_shape (shape_view (field.now).shape) ≡ true }
    ensures { Checks instances_size (field_instances (rep_view (field.now).rep)
        (line.instance_of (shape_view (field.now).shape)) (option_map (λ v. view v.now) found.entry))
        (field_held (rep_view (field.now).rep) (instance_held (shape_view (field.now).shape))
        (option_map (λ v. view v.now) found.entry)) result }
{
    match (field.rep, found) {
        (Rep::Required, None) => Err(RecordProblem::MissingField),
        (Rep::Optional | Rep::Repeated, None) => Ok(Size::NOTHING),
        (Rep::Required | Rep::Optional, Some(value)) => check_only(&field.shape, value),
        (Rep::Repeated, Some(value)) => match value.as_array() {
            Some(items) => check_elements(&field.shape, items),
            None => Err(RecordProblem::WrongKind),
        },
    }
}

/// The size of the only instance of a field.
#[cycle(checking)]
fn check_only(shape: &Shape, value: &Json) -> Result<Size, RecordProblem>
    requires { is_shape (shape_view shape.now) ≡ true }
    ensures { Checks instances_size
        (line.then_give single (line.instance_of (shape_view shape.now) (view value.now)))
        (before_held (instance_held (shape_view shape.now) (view value.now)) no_instances) result }
{
    let inside = check_instance(shape, value)?;
    Ok(inside.plus_instance())
}

/// The size of a list's elements.
#[cycle(checking)]
fn check_elements(shape: &Shape, items: &[Json]) -> Result<Size, RecordProblem>
    requires { is_shape (shape_view shape.now) ≡ true }
    ensures { Checks instances_size (each_element (line.instance_of (shape_view shape.now)) (items_view items.now))
        (each_held (instance_held (shape_view shape.now)) (items_view items.now)) result }
{
    let mut size = Size::NOTHING;
    'items: for item in items {
        if item.is_null() {
            return Err(RecordProblem::NullElement);
        }
        size = size.plus(check_instance(shape, item)?.plus_instance());
    }
    Ok(size)
}

/// The size of what is in an instance of a leaf or a group.
#[cycle(checking)]
fn check_instance(shape: &Shape, value: &Json) -> Result<Size, RecordProblem>
    requires { is_shape (shape_view shape.now) ≡ true }
    ensures { ChecksOne (line.instance_of (shape_view shape.now) (view value.now))
        (instance_held (shape_view shape.now) (view value.now)) result }
{
    match shape {
        Shape::Leaf(kind) => check_leaf(*kind, value),
        Shape::Group(fields) => match value.as_object() {
            Some(object) => check_node(fields, object),
            None => Err(RecordProblem::WrongKind),
        },
    }
}

/// The size of a leaf's value.
fn check_leaf(kind: Kind, value: &Json) -> Result<Size, RecordProblem>
    ensures { ChecksOne (line.then_give atom (leaf_value (kind_view kind) (view value.now)))
        (leaf_held (leaf_value (kind_view kind) (view value.now))) result }
{
    Ok(lent_size(lent_leaf(kind, value)?))
}

/// The size of a leaf's value, lent.
#[inline(always)]
pub fn lent_size(lent: ValueRef<'_>) -> Size
    ensures { result ≡ instance_size (atom (lent_value lent.entry)) }
{
    match lent {
        ValueRef::Text(text) => Size {
            instances: 0,
            text_bytes: text.len() as u64,
        },
        ValueRef::Bool(_) | ValueRef::Int(_) => Size::NOTHING,
    }
}
