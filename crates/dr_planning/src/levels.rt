//! The levels of a schema.

ghost use Rattle.std.specs.Prelude.{◌≡◌, ◌++◌, ◌∷◌, [], map, IfOk, OnOk, string_bytes};
ghost use Rattle.dr_meaning.specs.Query as meant;
ghost use Rattle.dr_nested.specs.PathView.{step_view};
ghost use Rattle.dr_nested.specs.SchemaView.{schema_view};
ghost use Rattle.dr_nested.specs.Views.{fields_view, rep_view, shape_view};
ghost use Rattle.dr_planning.specs.NamedLevels.{append_named, field_named, fields_named, joined, levels_view, shape_named};

use crate::listed::Listed;
use dr_memory::NoMemory;
use dr_nested::{Field, Rep, Schema, Shape, Step};
use std::alloc::Global;

/// The levels of a schema next below the record, each with the levels below it, in the schema's order.
///
/// Errors: want of memory alone.
pub fn levels_of(alloc: Global, schema: &Schema) -> Result<Vec<Listed>, NoMemory>
    ensures { IfOk result (λ v. levels_view v.items ≡ joined (meant.levels_of (schema_view schema.now).fields)) }
{
    let mut levels = Vec::new(alloc);
    push_fields(alloc, "", &[], &schema.fields, &mut levels)?;
    Ok(levels)
}

/// A text behind another.
fn joined_text(alloc: Global, front: &str, text: &str) -> Result<String, NoMemory>
    ensures { IfOk result (λ t. string_bytes t ≡ front.now ++ text.now) }
{
    let mut all = String::with_capacity(alloc, front.len())?;
    all.push_str(front)?;
    all.push_str(text)?;
    Ok(all)
}

/// A path with one more step.
fn with_step(alloc: Global, path: &[Step], step: Step) -> Result<Vec<Step>, NoMemory>
    ensures { IfOk result (λ v. v.items ≡ path.now ++ step ∷ []) }
{
    let mut steps = path.to_vec(alloc)?;
    steps.push(step)?;
    Ok(steps)
}

/// Appends the next levels in a group below a path, where a text holds the names since the level above, with a dot
/// behind each.
#[cycle(levels)]
fn push_fields(
    alloc: Global,
    names: &str,
    path: &[Step],
    fields: &Vec<Field>,
    levels: &mut Vec<Listed>,
) -> Result<(), NoMemory>
    ensures { OnOk result (levels_view (levels.new).items
        ≡ append_named (levels_view (levels.old).items)
        (fields_named (fields_view (fields.now).items) 0 names.now (map step_view path.now))) }
{
    'fields: for (place, field) in fields.iter().enumerate() {
        let rep = field.rep;
        let steps = with_step(alloc, path, Step { place, rep })?;
        let name = joined_text(alloc, names, field.name.as_str())?;
        push_field(alloc, name, steps, rep, &field.shape, levels)?;
    }
    Ok(())
}

/// Appends the next levels of a field, by the names and the path to it.
#[cycle(levels)]
fn push_field(
    alloc: Global,
    name: String,
    path: Vec<Step>,
    rep: Rep,
    shape: &Shape,
    levels: &mut Vec<Listed>,
) -> Result<(), NoMemory>
    ensures { OnOk result (levels_view (levels.new).items
        ≡ append_named (levels_view (levels.old).items)
        (field_named (rep_view rep) (shape_view shape.now) (string_bytes name) (map step_view path.items))) }
{
    match rep {
        Rep::Required | Rep::Optional => {
            let names = joined_text(alloc, name.as_str(), ".")?;
            push_shape(alloc, names.as_str(), &path, shape, levels)
        }
        Rep::Repeated => {
            let mut below = Vec::new(alloc);
            push_shape(alloc, "", &path, shape, &mut below)?;
            levels.push(Listed { name, path, below })?;
            Ok(())
        }
    }
}

/// Appends the next levels of what a field is.
#[cycle(levels)]
fn push_shape(
    alloc: Global,
    names: &str,
    path: &[Step],
    shape: &Shape,
    levels: &mut Vec<Listed>,
) -> Result<(), NoMemory>
    ensures { OnOk result (levels_view (levels.new).items
        ≡ append_named (levels_view (levels.old).items)
        (shape_named (shape_view shape.now) names.now (map step_view path.now))) }
{
    match shape {
        Shape::Leaf(_) => Ok(()),
        Shape::Group(fields) => push_fields(alloc, names, path, fields, levels),
    }
}
