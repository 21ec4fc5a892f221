//! The leaf of a schema that a text names.

ghost use Rattle.std.specs.Prelude.{◌≡◌, ◌<◌, ◌∷◌, [], Some, None, length, map, string_bytes, MatchOption, IfOk, IfSome};
ghost use Rattle.dr_meaning.specs.Schema as tree;
ghost use Rattle.dr_meaning.specs.Path as path_meaning;
ghost use Rattle.dr_nested.specs.Views.{field_view, fields_view};
ghost use Rattle.dr_nested.specs.Faults.{Gives, path_fault_view};
ghost use Rattle.dr_nested.specs.PathView.{path_view, step_view};
ghost use Rattle.dr_nested.specs.Finding.{found_at, Enters, Leads};

use crate::fault::{PathFault, PathProblem};
use crate::path::{Path, Step};
use crate::schema::Schema;
use crate::shape::{Field, Kind, Shape};
use std::alloc::{AllocError, Global};

/// A text before and behind its first dot, if it has one.
fn cut_once(text: &str) -> Option<(&str, &str)>
    ensures cut { MatchOption result (path_meaning.cut_at_dots text.now ≡ text.now ∷ [])
        (λ x. path_meaning.cut_at_dots text.now ≡ x.0.now ∷ path_meaning.cut_at_dots x.1.now) }
    ensures shorter { IfSome result (λ x. length x.1.now < length text.now) }
{
    text.split_once('.')
}

/// The parts of a text between its dots.
fn cut_at_dots(alloc: Global, text: &str) -> Result<Vec<String>, AllocError>
    ensures { IfOk result (λ v. map string_bytes v.items ≡ path_meaning.cut_at_dots text.now) }
{
    let mut names = Vec::new(alloc);
    let mut rest = text;
    'parts: while let Some((name, more)) = cut_once(rest) {
        names.push(String::from_str(alloc, name)?)?;
        rest = more;
    }
    names.push(String::from_str(alloc, rest)?)?;
    Ok(names)
}

/// The field of a name in a group, with its place.
fn find_field<'a>(fields: &'a Vec<Field>, name: &str) -> Option<(usize, &'a Field)>
    ensures { MatchOption result (path_meaning.named_field name.now 0 (fields_view (fields.now).items) ≡ None)
        (λ f. path_meaning.named_field name.now 0 (fields_view (fields.now).items)
        ≡ Some (found_at f.0 (field_view f.1.now))) }
{
    'fields: for (place, field) in fields.iter().enumerate() {
        if name == field.name.as_str() {
            return Some((place, field));
        }
    }
    None
}

/// The shape of the field of a name in a group, whose step joins those so far.
fn enter<'a>(
    fields: &'a Vec<Field>,
    name: &str,
    steps: &mut Vec<Step>,
) -> Result<&'a Shape, PathFault>
    ensures { Enters (map step_view (steps.old).items)
        (path_meaning.named_field name.now 0 (fields_view (fields.now).items))
        (map step_view (steps.new).items) result }
{
    match find_field(fields, name) {
        None => Err(PathFault::Refused(PathProblem::UnknownField)),
        Some((place, field)) => {
            let rep = field.rep;
            steps.push(Step { place, rep })?;
            Ok(&field.shape)
        }
    }
}

/// Goes along the parts of a text below a group: the kind of the leaf there, whose steps join those so far.
fn walk(fields: &Vec<Field>, text: &str, steps: &mut Vec<Step>) -> Result<Kind, PathFault>
    ensures { Leads (map step_view (steps.old).items)
        (path_meaning.find_path (path_meaning.cut_at_dots text.now) (fields_view (fields.now).items))
        (map step_view (steps.new).items) result }
{
    match cut_once(text) {
        None => {
            let last = enter(fields, text, steps)?;
            match last {
                Shape::Leaf(kind) => Ok(*kind),
                Shape::Group(_) => Err(PathFault::Refused(PathProblem::NotALeaf)),
            }
        }
        Some((name, rest)) => {
            let next = enter(fields, name, steps)?;
            match next {
                Shape::Leaf(_) => Err(PathFault::Refused(PathProblem::UnknownField)),
                Shape::Group(inner) => walk(inner, rest, steps),
            }
        }
    }
}

/// The leaf of a schema that a text names: the names on its path, joined by dots.
///
/// Errors: the text, cut at its dots, leads to no field, or to a group; want of memory.
pub fn find(alloc: Global, schema: &Schema, text: &str) -> Result<Path, PathFault>
    ensures { Gives path_view path_fault_view
        (path_meaning.find_leaf text.now (fields_view (schema.now).fields.items)) result }
{
    let mut steps = Vec::new(alloc);
    let kind = walk(&schema.fields, text, &mut steps)?;
    let names = cut_at_dots(alloc, text)?;
    Ok(Path { names, steps, kind })
}
