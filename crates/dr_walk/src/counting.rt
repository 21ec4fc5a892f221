//! How many repeated fields there are.

ghost use Rattle.std.specs.Prelude.{◌≡◌, ◌<◌, ◌+◌, ◌^◌};
ghost use Rattle.dr_meaning.specs.Schema.{repeated_fields, shape_repeated_fields, repetition_count};
ghost use Rattle.dr_nested.specs.Views.{rep_view, shape_view, fields_view};

use dr_nested::{Field, Rep, Shape};

/// How many repeated fields stand in a group.
#[cycle(counting)]
fn count_in_group(fields: &Vec<Field>) -> u32
    requires { repeated_fields (fields_view (fields.now).items) < 2 ^ 32 }
    ensures { result ≡ repeated_fields (fields_view (fields.now).items) }
{
    let mut count = 0;
    'fields: for field in fields.iter() {
        count += count_repeated(field);
    }
    count
}

/// How many repeated fields a field is or holds, at any depth.
#[cycle(counting)]
pub fn count_repeated(field: &Field) -> u32
    requires { repetition_count (rep_view (field.now).rep) + shape_repeated_fields (shape_view (field.now).shape) <
        2 ^ 32 }
    ensures { result ≡ repetition_count (rep_view (field.now).rep) + shape_repeated_fields (shape_view
        (field.now).shape) }
{
    let own = match field.rep {
        Rep::Required | Rep::Optional => 0,
        Rep::Repeated => 1,
    };
    match &field.shape {
        Shape::Leaf(_) => own,
        Shape::Group(fields) => own + count_in_group(fields),
    }
}
