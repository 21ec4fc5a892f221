//! Where the names of a path lead in a schema.

ghost use Rattle.std.specs.Prelude.{◌≡◌, Some, None, map, option_map, IfOk, MatchOption};
ghost use Rattle.dr_meaning.specs.Path as paths;
ghost use Rattle.dr_nested.specs.Views.{field_view, fields_view};
ghost use Rattle.dr_nested.specs.Finding.{found_at};
ghost use Rattle.dr_resolve.specs.Resolved.{end_view, found_view};
ghost use Rattle.dr_sql.specs.Views.{lent};

use dr_nested::{Field, Kind, Shape, Step};
use std::alloc::{AllocError, Global};

/// What stands at a path's end: a group's fields, or a leaf of a kind.
#[derive(Clone, Copy)]
pub(crate) enum End<'a> {
    Group(&'a Vec<Field>),
    Leaf(Kind),
}

/// The steps to a field, and what it is.
#[derive(Drop)]
pub(crate) struct Found<'a> {
    pub steps: Vec<Step>,
    pub end: End<'a>,
}

/// The field of a name in a group, with its place.
fn find_field<'a>(fields: &'a Vec<Field>, name: &str) -> Option<(usize, &'a Field)>
    ensures { MatchOption result (paths.named_field name.now 0 (fields_view (fields.now).items) ≡ None)
        (λ f. paths.named_field name.now 0 (fields_view (fields.now).items)
        ≡ Some (found_at f.0 (field_view f.1.now))) }
{
    'fields: for (place, field) in fields.iter().enumerate() {
        if name == field.name.as_str() {
            return Some((place, field));
        }
    }
    None
}

/// What a field is.
fn end_of(field: &Field) -> End<'_>
    ensures { end_view result ≡ (field_view field.now).shape }
{
    match &field.shape {
        Shape::Leaf(kind) => End::Leaf(*kind),
        Shape::Group(fields) => End::Group(fields),
    }
}

/// The field of a message to which names lead, if there is one.
pub(crate) fn resolve<'a>(
    alloc: Global,
    fields: &'a Vec<Field>,
    names: &[&str],
) -> Result<Option<Found<'a>>, AllocError>
    ensures { IfOk result (λ o. option_map found_view o
        ≡ paths.find_path (map lent names.now) (fields_view (fields.now).items)) }
{
    let mut steps = Vec::new(alloc);
    let mut end = End::Group(fields);
    'names: for name in names {
        let End::Group(inner) = end else {
            return Ok(None);
        };
        let Some((place, field)) = find_field(inner, name) else {
            return Ok(None);
        };
        let rep = field.rep;
        steps.push(Step { place, rep })?;
        end = end_of(field);
    }
    Ok(Some(Found { steps, end }))
}
