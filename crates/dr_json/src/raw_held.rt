//! The values of lines as the lines have them, as records are held in them.

ghost use Rattle.std.specs.Prelude.{◌≡◌, option_map, string_bytes, IfSome, IfNone};
ghost use Rattle.json.specs.Value.{value_view, items_view, members_view};
ghost use Rattle.dr_meaning.specs.Record as record_tree;
ghost use Rattle.dr_meaning.specs.Record.{instances_at};
ghost use Rattle.dr_nested.specs.Views.{fields_view, rep_view, shape_view};
ghost use Rattle.dr_json.specs.Parts.{raw_part_view, raw_parts_view};
ghost use Rattle.dr_json.specs.Raw.{present as present_in, near, field_raw, each_raw, slots_raw, instance_raw};

use crate::raw::{Member, member_near, present, raw_leaf};
use dr_levels::ValueRef;
use dr_nested::{Field, Rep, Shape};
use dr_striper::Held;
use json::Value as Raw;
use std::slice;

/// An instance of a field: a leaf's value, or a group's fields with an object's members.
#[derive(Clone, Copy)]
pub enum RawPart<'v, 'r> {
    Leaf(ValueRef<'r>),
    Group(&'v [Field], &'v [Member<'r>]),
}

/// The instances of a field in order: none, or some values with their shape. They end before the first value that is
/// no instance.
#[derive(Clone, Copy)]
pub enum RawParts<'v, 'r> {
    Nothing,
    Items(&'v Shape, &'v [Raw<'r>]),
}

/// The instance that a line's own value is, if it is one.
#[inline(always)]
fn raw_part_of<'v, 'r>(shape: &'v Shape, value: &'v Raw<'r>) -> Option<RawPart<'v, 'r>>
    ensures { option_map raw_part_view result ≡ instance_raw (shape_view shape.now) (value_view value.now) }
{
    match shape {
        Shape::Leaf(kind) => match raw_leaf(*kind, value) {
            Some(lent) => Some(RawPart::Leaf(lent)),
            None => None,
        },
        Shape::Group(fields) => match value {
            Raw::Object(members) => Some(RawPart::Group(fields, members)),
            _ => None,
        },
    }
}

/// The instances of a field for which a line's own value stands.
#[inline(always)]
fn raw_parts_of<'v, 'r>(field: &'v Field, found: Option<&'v Raw<'r>>) -> RawParts<'v, 'r>
    ensures { raw_parts_view result ≡ field_raw (rep_view (field.now).rep) (instance_raw (shape_view (field.now).shape))
        (option_map (λ v. value_view v.now) found.entry) }
{
    match (field.rep, found) {
        (_, None) => RawParts::Nothing,
        (Rep::Required | Rep::Optional, Some(value)) => {
            RawParts::Items(&field.shape, slice::from_ref(value))
        }
        (Rep::Repeated, Some(value)) => match value {
            Raw::Array(items) => RawParts::Items(&field.shape, items),
            _ => RawParts::Nothing,
        },
    }
}

/// The instances of a field of an object of a line, whose member is looked for first at the field's place.
#[inline(always)]
fn raw_instances<'v, 'r>(
    field: &'v Field,
    place: usize,
    members: &'v [Member<'r>],
) -> RawParts<'v, 'r>
    ensures { raw_parts_view result ≡ field_raw (rep_view (field.now).rep) (instance_raw (shape_view (field.now).shape))
        (present_in (near place (string_bytes (field.now).name) (members_view members.now))) }
{
    match member_near(members, place, field.name.as_str()) {
        Some((_, value)) => raw_parts_of(field, present(Some(value))),
        None => RawParts::Nothing,
    }
}

/// The first of some values of a line, which is an instance of a shape, and those behind it.
#[inline(always)]
fn cut_raw_items<'v, 'r>(
    shape: &'v Shape,
    values: &'v [Raw<'r>],
) -> Option<(RawPart<'v, 'r>, RawParts<'v, 'r>)>
    ensures first { IfSome result (λ r. each_raw (instance_raw (shape_view shape.now)) (items_view values.now)
        ≡ record_tree.instance (raw_part_view r.0) (raw_parts_view r.1)) }
    ensures empty { IfNone result (each_raw (instance_raw (shape_view shape.now)) (items_view values.now)
        ≡ record_tree.no_instances) }
{
    let [first, later @ ..] = values else {
        return None;
    };
    match raw_part_of(shape, first) {
        Some(part) => Some((part, RawParts::Items(shape, later))),
        None => None,
    }
}

/// The instances of the field at a place of a group that an object of a line is. Its member is looked for first at the
/// field's place.
#[inline(always)]
fn raw_group_instances<'v, 'r>(
    fields: &'v [Field],
    members: &'v [Member<'r>],
    place: usize,
) -> RawParts<'v, 'r>
    ensures { raw_parts_view result
        ≡ instances_at place (slots_raw (fields_view fields.now) 0 (members_view members.now)) }
{
    match fields.get(place) {
        Some(field) => raw_instances(field, place, members),
        None => RawParts::Nothing,
    }
}

impl<'v, 'r> Held for RawPart<'v, 'r> {
    type List = RawParts<'v, 'r>;

    ghost shows = { raw_part_view };

    ghost lists = { raw_parts_view };

    #[inline(always)]
    fn value(&self) -> Option<ValueRef<'_>> {
        match self {
            RawPart::Leaf(lent) => Some(*lent),
            RawPart::Group(_, _) => None,
        }
    }

    #[inline(always)]
    fn instances_in(self, place: usize) -> RawParts<'v, 'r> {
        match self {
            RawPart::Leaf(_) => RawParts::Nothing,
            RawPart::Group(fields, members) => raw_group_instances(fields, members, place),
        }
    }

    #[inline(always)]
    fn cut_first(list: RawParts<'v, 'r>) -> Option<(RawPart<'v, 'r>, RawParts<'v, 'r>)> {
        match list {
            RawParts::Nothing => None,
            RawParts::Items(shape, values) => cut_raw_items(shape, values),
        }
    }
}
