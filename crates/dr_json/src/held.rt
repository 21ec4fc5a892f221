//! Values, as records are held in them.

ghost use Rattle.std.specs.Prelude.{◌≡◌, option_map};
ghost use Rattle.serde_json.specs.View.{view};
ghost use Rattle.dr_nested.specs.Views.{rep_view, shape_view};
ghost use Rattle.dr_json.specs.Held.{instance_held, field_held};
ghost use Rattle.dr_json.specs.Parts.{part_view, parts_view};

use crate::leaf::lent_leaf;
use crate::nodes::{member, present};
use crate::part::{Part, Parts};
use dr_levels::ValueRef;
use dr_nested::{Field, Rep, Shape};
use dr_striper::Held;
use serde_json::Value as Json;
use std::slice;

/// The instance that a value is, if it is one.
fn part_of<'v>(shape: &'v Shape, value: &'v Json) -> Option<Part<'v>>
    ensures { option_map part_view result ≡ instance_held (shape_view shape.now) (view value.now) }
{
    match shape {
        Shape::Leaf(kind) => match lent_leaf(*kind, value) {
            Ok(lent) => Some(Part::Leaf(lent)),
            Err(_) => None,
        },
        Shape::Group(fields) => match value.as_object() {
            Some(object) => Some(Part::Group(fields, object)),
            None => None,
        },
    }
}

/// The instances of a field for which a value stands.
fn parts_of<'v>(field: &'v Field, found: Option<&'v Json>) -> Parts<'v>
    ensures { parts_view result ≡ field_held (rep_view (field.now).rep) (instance_held (shape_view (field.now).shape))
        (option_map (λ v. view v.now) found.entry) }
{
    match (field.rep, found) {
        (_, None) => Parts::Nothing,
        (Rep::Required | Rep::Optional, Some(value)) => {
            Parts::Items(&field.shape, slice::from_ref(value))
        }
        (Rep::Repeated, Some(value)) => match value.as_array() {
            Some(items) => Parts::Items(&field.shape, items),
            None => Parts::Nothing,
        },
    }
}

impl<'v> Held for Part<'v> {
    type List = Parts<'v>;

    ghost shows = { part_view };

    ghost lists = { parts_view };

    fn value(&self) -> Option<ValueRef<'_>> {
        match self {
            Part::Leaf(lent) => Some(*lent),
            Part::Group(_, _) => None,
        }
    }

    fn instances_in(self, place: usize) -> Parts<'v> {
        let Part::Group(fields, object) = self else {
            return Parts::Nothing;
        };
        match fields.get(place) {
            Some(field) => parts_of(field, present(member(object, field.name.as_str()))),
            None => Parts::Nothing,
        }
    }

    fn cut_first(list: Parts<'v>) -> Option<(Part<'v>, Parts<'v>)> {
        let Parts::Items(shape, [first, later @ ..]) = list else {
            return None;
        };
        match part_of(shape, first) {
            Some(part) => Some((part, Parts::Items(shape, later))),
            None => None,
        }
    }
}
