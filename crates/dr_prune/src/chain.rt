//! The numbers of a condition's chain.

ghost use Rattle.std.specs.Prelude.{◌≡◌, ◌<◌, ◌≤◌, ◌+◌, ◌^◌, ◌++◌, ◌∷◌, length, map, IfOk, OnOk};
ghost use Rattle.dr_meaning.specs.Schema.{repeated_fields, shape_repeated_fields, repetition_count};
ghost use Rattle.dr_nested.specs.Views.{rep_view, shape_view, fields_view};
ghost use Rattle.dr_nested.specs.PathView.{step_view};
ghost use Rattle.dr_kept_laws.specs.ChainNumbers as meant;

use dr_memory::NoMemory;
use dr_nested::{Field, Rep, Schema, Shape, Step};
use dr_walk::count_repeated;
use std::alloc::Global;

/// The numbers of the repeated fields on a path of a schema, outermost first, as the moves of a walk name them: the
/// schema's first repeated field has the number 1. The record's 0 isn't among them.
///
/// Errors: want of memory alone.
pub fn chain_numbers(alloc: Global, schema: &Schema, path: &[Step]) -> Result<Vec<u32>, NoMemory>
    ensures numbers { IfOk result (λ v. v.items ≡ meant.chain_numbers (fields_view (schema.now).fields.items)
        (map step_view path.now)) }
    ensures few { IfOk result (λ v. length v.items ≤ 32) }
{
    let mut numbers = Vec::new(alloc);
    add_in_group(&schema.fields, 1, path, &mut numbers)?;
    Ok(numbers)
}

/// Adds the numbers on a path in a group, whose first repeated field has this number.
#[cycle(chain)]
fn add_in_group(
    fields: &Vec<Field>,
    first: u32,
    path: &[Step],
    numbers: &mut Vec<u32>,
) -> Result<(), NoMemory>
    requires { first + repeated_fields (fields_view (fields.now).items) < 2 ^ 32 }
    ensures { OnOk result ((numbers.new).items ≡ (numbers.old).items ++ meant.numbers_in (fields_view
        (fields.now).items) first (map step_view path.now)) }
{
    match path {
        [] => Ok(()),
        [step, rest @ ..] => add_from_step(fields, first, step, rest, numbers),
    }
}

/// Adds the numbers on a path that begins with this step.
#[cycle(chain)]
fn add_from_step(
    fields: &Vec<Field>,
    first: u32,
    step: &Step,
    rest: &[Step],
    numbers: &mut Vec<u32>,
) -> Result<(), NoMemory>
    requires { first + repeated_fields (fields_view (fields.now).items) < 2 ^ 32 }
    ensures { OnOk result ((numbers.new).items ≡ (numbers.old).items ++ meant.numbers_in (fields_view
        (fields.now).items) first (step_view step.now ∷ map step_view rest.now)) }
{
    let mut number = first;
    'fields: for (place, field) in fields.iter().enumerate() {
        if place == step.place {
            return add_of_field(field, number, rest, numbers);
        }
        number += count_repeated(field);
    }
    Ok(())
}

/// Adds the field's own number, if it is repeated, and those on the path below it.
#[cycle(chain)]
fn add_of_field(
    field: &Field,
    number: u32,
    path: &[Step],
    numbers: &mut Vec<u32>,
) -> Result<(), NoMemory>
    requires { number + (repetition_count (rep_view (field.now).rep) + shape_repeated_fields (shape_view
        (field.now).shape)) < 2 ^ 32 }
    ensures { OnOk result ((numbers.new).items ≡ (numbers.old).items ++ meant.own_number (rep_view (field.now).rep)
        number (λ k. meant.shape_numbers (shape_view (field.now).shape) k (map step_view path.now))) }
{
    match field.rep {
        Rep::Required | Rep::Optional => add_in_shape(&field.shape, number, path, numbers),
        Rep::Repeated => {
            numbers.push(number)?;
            add_in_shape(&field.shape, number + 1, path, numbers)
        }
    }
}

/// Adds the numbers on a path below a shape, whose first repeated field has this number.
#[cycle(chain)]
fn add_in_shape(
    shape: &Shape,
    first: u32,
    path: &[Step],
    numbers: &mut Vec<u32>,
) -> Result<(), NoMemory>
    requires { first + shape_repeated_fields (shape_view shape.now) < 2 ^ 32 }
    ensures { OnOk result ((numbers.new).items ≡ (numbers.old).items ++ meant.shape_numbers (shape_view shape.now) first
        (map step_view path.now)) }
{
    match shape {
        Shape::Leaf(_) => Ok(()),
        Shape::Group(fields) => add_in_group(fields, first, path, numbers),
    }
}
