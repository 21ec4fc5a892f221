//! Whether a line's own value is plainly a record of a schema, and how large it is. A value that isn't so plain, as one
//! with a key twice, may be a record all the same.

ghost use Rattle.std.specs.Prelude.{◌≡◌, true, ⊤, option_map};
ghost use Rattle.json.specs.Value.{value_view, items_view, members_view};
ghost use Rattle.dr_meaning.specs.Schema.{is_group, is_shape, leaf};
ghost use Rattle.dr_nested.specs.Views.{fields_view, shape_view, rep_view, kind_view};
ghost use Rattle.dr_json.specs.Plain.{PlainOne, PlainOnly, PlainField, PlainItems, PlainNode, PlainRecord};

use crate::check::{check_limits, lent_size};
use crate::raw::{Member, next_member, present, raw_leaf};
use crate::size::Size;
use dr_nested::{Field, Kind, Rep, Shape};
use json::Value as Raw;

/// Whether the members of a line's object are plainly a record of a schema, within the limits of records.
pub fn is_plain_record(fields: &[Field], members: &[Member<'_>]) -> bool
    requires { is_group (fields_view fields.now) ≡ true }
    ensures { PlainRecord (fields_view fields.now) (members_view members.now) result }
{
    match plain_node(fields, members) {
        Some(size) => check_limits(size).is_ok(),
        None => false,
    }
}

/// The size of the node of an object's members. Members mostly stand in schema order: so each is looked for first
/// behind the one that was found last. Where as many fields have a member as there are members, all keys are known, and
/// none is there twice.
#[cycle(plain)]
fn plain_node(fields: &[Field], members: &[Member<'_>]) -> Option<Size>
    requires { is_group (fields_view fields.now) ≡ true }
    ensures { PlainNode (fields_view fields.now) (members_view members.now) result }
{
    let mut size = Size::NOTHING;
    let mut count = 0;
    let mut next = 0;
    'fields: for field in fields {
        let found = next_member(members, &mut next, field.name.as_str());
        count += usize::from(found.is_some());
        size = size.plus(plain_field(field, present(found))?);
    }
    if count == members.len() {
        Some(size)
    } else {
        None
    }
}

/// The size of a field's instances.
#[cycle(plain)]
#[inline(always)]
fn plain_field(field: &Field, found: Option<&Raw<'_>>) -> Option<Size>
    requires { is_shape (shape_view (field.now).shape) ≡ true }
    ensures { PlainField (rep_view (field.now).rep) (shape_view (field.now).shape)
        (option_map (λ v. value_view v.now) found.entry) result }
{
    match (field.rep, found) {
        (Rep::Required, None) => None,
        (Rep::Optional | Rep::Repeated, None) => Some(Size::NOTHING),
        (Rep::Required, Some(value)) => plain_only(&field.shape, value),
        (Rep::Optional, Some(value)) => plain_only(&field.shape, value),
        (Rep::Repeated, Some(value)) => match value {
            Raw::Array(items) => plain_elements(&field.shape, items),
            _ => None,
        },
    }
}

/// The size of the only instance of a field.
#[cycle(plain)]
#[inline(always)]
fn plain_only(shape: &Shape, value: &Raw<'_>) -> Option<Size>
    requires { is_shape (shape_view shape.now) ≡ true }
    ensures { PlainOnly (shape_view shape.now) (value_view value.now) result }
{
    let inside = plain_instance(shape, value)?;
    Some(inside.plus_instance())
}

/// The size of a list's elements.
#[cycle(plain)]
#[inline(always)]
fn plain_elements(shape: &Shape, items: &[Raw<'_>]) -> Option<Size>
    requires { is_shape (shape_view shape.now) ≡ true }
    ensures { PlainItems (shape_view shape.now) (items_view items.now) result }
{
    let mut size = Size::NOTHING;
    'items: for item in items {
        if item.is_null() {
            return None;
        }
        size = size.plus(plain_instance(shape, item)?.plus_instance());
    }
    Some(size)
}

/// The size of what is in an instance of a leaf or a group.
#[cycle(plain)]
#[inline(always)]
fn plain_instance(shape: &Shape, value: &Raw<'_>) -> Option<Size>
    requires { is_shape (shape_view shape.now) ≡ true }
    ensures { PlainOne (shape_view shape.now) (value_view value.now) result }
{
    match shape {
        Shape::Leaf(kind) => plain_leaf(*kind, value),
        Shape::Group(fields) => match value {
            Raw::Object(members) => plain_node(fields, members),
            _ => None,
        },
    }
}

/// The size of a leaf's value.
#[inline(always)]
fn plain_leaf(kind: Kind, value: &Raw<'_>) -> Option<Size>
    ensures { PlainOne (leaf (kind_view kind)) (value_view value.now) result }
{
    let lent = raw_leaf(kind, value)?;
    Some(lent_size(lent))
}
