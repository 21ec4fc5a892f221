//! Printing records of the triplets of their leaves.

ghost use Rattle.std.specs.Prelude.{◌≡◌, ◌≤◌, ◌+◌, ◌++◌, ◌||◌, false, string_bytes, IfOk, OnOk};
ghost use Rattle.dr_meaning.specs.Lists.{separated};
ghost use Rattle.dr_meaning.specs.Schema.{depth, shape_depth, greatest_depth, repetition_count, definition_count};
ghost use Rattle.dr_meaning.specs.Schema as tree;
ghost use Rattle.dr_nested.specs.Views.{rep_view, shape_view, fields_view};
ghost use Rattle.dr_assemble.specs.Lines as lines;
ghost use Rattle.dr_assemble.specs.Lines.{text_held, text_member, text_members, text_one, text_each};
ghost use Rattle.dr_assemble.specs.Restoring.{first_strip_value};
ghost use Rattle.dr_assemble.specs.Views.{strips_view};

use crate::restoring::{first_strip_value, is_present};
use crate::spare::Spare;
use crate::strip::{Strip, count_pieces, cut, front_length};
use dr_nested::{Field, Rep, Shape};
use dr_print::{push_comma, push_lent_value, push_name};
use std::alloc::{AllocError, Global};

/// Appends a leaf's instance: the first strip's first value.
fn push_atom(alloc: Global, text: &mut String, strips: &[Strip]) -> Result<(), AllocError>
    ensures { OnOk result (string_bytes text.new
        ≡ string_bytes text.old ++ lines.text_of_value (first_strip_value (strips_view strips.now))) }
{
    match first_strip_value(strips) {
        Some(value) => push_lent_value(alloc, text, value),
        None => Ok(()),
    }
}

/// Whether a field is printed, in a group with this definition level.
fn is_printed(field: &Field, strips: &[Strip], definition: u32) -> bool
    ensures { result ≡ lines.is_printed (rep_view (field.now).rep) definition (strips_view strips.now) }
{
    match strips {
        [] => false,
        [first, ..] => match field.rep {
            Rep::Required | Rep::Repeated => true,
            Rep::Optional => is_present(first.triplets, definition),
        },
    }
}

/// How many instances of this level a repeated field has, in a group with this definition level.
fn list_count(strips: &[Strip], level: u32, definition: u32) -> usize
    ensures { result ≡ lines.list_count level definition (strips_view strips.now) }
{
    match strips {
        [] => 0,
        [first, ..] if is_present(first.triplets, definition) => count_pieces(
            first.triplets,
            level,
        ),
        _ => 0,
    }
}

/// Appends an instance of a leaf or a group, below this many repeated fields, with this definition level.
#[cycle(printing)]
fn push_instance<'a>(
    alloc: Global,
    text: &mut String,
    spare: &mut Spare<'a>,
    shape: &Shape,
    strips: &[Strip<'a>],
    level: u32,
    definition: u32,
) -> Result<(), AllocError>
    requires levels { level + shape_depth (shape_view shape.now) ≤ greatest_depth }
    requires definitions { definition + shape_depth (shape_view shape.now) ≤ greatest_depth }
    ensures { OnOk result (string_bytes text.new
        ≡ string_bytes text.old ++ text_one (shape_view shape.now) level definition (strips_view strips.now)) }
{
    match shape {
        Shape::Leaf(_) => push_atom(alloc, text, strips),
        Shape::Group(fields) => push_group(alloc, text, spare, fields, strips, level, definition),
    }
}

/// Appends so many instances of a repeated field, separated by commas, each of the first pieces of what the earlier
/// ones left.
#[cycle(printing)]
fn push_each<'a>(
    alloc: Global,
    text: &mut String,
    spare: &mut Spare<'a>,
    shape: &Shape,
    strips: &[Strip<'a>],
    count: usize,
    level: u32,
    definition: u32,
) -> Result<(), AllocError>
    requires levels { level + shape_depth (shape_view shape.now) ≤ greatest_depth }
    requires definitions { definition + shape_depth (shape_view shape.now) ≤ greatest_depth }
    ensures { OnOk result (string_bytes text.new ≡ string_bytes text.old ++ separated false
        (text_each (text_one (shape_view shape.now) level definition) level count (strips_view strips.now))) }
{
    let mut left = spare.copied(strips)?;
    let mut first = spare.copied(strips)?;
    'instances: for done in 0..count {
        cut(&mut left, &mut first, level);
        push_comma(text, done > 0)?;
        push_instance(alloc, text, spare, shape, &first, level, definition)?;
    }
    spare.give_back(left)?;
    spare.give_back(first)
}

/// Appends what stands behind a field's name, in a group below this many repeated fields, with this definition level: a
/// list, or the one instance.
#[cycle(printing)]
fn push_held<'a>(
    alloc: Global,
    text: &mut String,
    spare: &mut Spare<'a>,
    field: &Field,
    strips: &[Strip<'a>],
    level: u32,
    definition: u32,
) -> Result<(), AllocError>
    requires levels { level + 1 + shape_depth (shape_view (field.now).shape) ≤ greatest_depth }
    requires definitions { definition + 1 + shape_depth (shape_view (field.now).shape) ≤ greatest_depth }
    ensures { OnOk result (string_bytes text.new ≡ string_bytes text.old ++ text_held (rep_view (field.now).rep)
        (text_one (shape_view (field.now).shape) (level + repetition_count (rep_view (field.now).rep))
        (definition + definition_count (rep_view (field.now).rep)))
        (level + repetition_count (rep_view (field.now).rep)) definition (strips_view strips.now)) }
{
    match field.rep {
        Rep::Required => push_instance(alloc, text, spare, &field.shape, strips, level, definition),
        Rep::Optional => push_instance(
            alloc,
            text,
            spare,
            &field.shape,
            strips,
            level,
            definition + 1,
        ),
        Rep::Repeated => {
            let count = list_count(strips, level + 1, definition);
            text.push_str("[")?;
            push_each(
                alloc,
                text,
                spare,
                &field.shape,
                strips,
                count,
                level + 1,
                definition + 1,
            )?;
            text.push_str("]")
        }
    }
}

/// Appends a field's member, if it is printed, and tells whether something stands before the next one.
#[cycle(printing)]
fn push_member<'a>(
    alloc: Global,
    text: &mut String,
    spare: &mut Spare<'a>,
    field: &Field,
    strips: &[Strip<'a>],
    level: u32,
    definition: u32,
    behind: bool,
) -> Result<bool, AllocError>
    requires levels { level + 1 + shape_depth (shape_view (field.now).shape) ≤ greatest_depth }
    requires definitions { definition + 1 + shape_depth (shape_view (field.now).shape) ≤ greatest_depth }
    ensures text { OnOk result (string_bytes text.new ≡ string_bytes text.old ++ separated behind
        (text_member (rep_view (field.now).rep) (string_bytes (field.now).name)
        (text_one (shape_view (field.now).shape) (level + repetition_count (rep_view (field.now).rep))
        (definition + definition_count (rep_view (field.now).rep))) level definition (strips_view strips.now))) }
    ensures behind { IfOk result (λ b. b
        ≡ (behind || lines.is_printed (rep_view (field.now).rep) definition (strips_view strips.now))) }
{
    if !is_printed(field, strips, definition) {
        return Ok(behind);
    }
    push_comma(text, behind)?;
    push_name(alloc, text, field.name.as_str())?;
    push_held(alloc, text, spare, field, strips, level, definition)?;
    Ok(true)
}

/// Appends the members of a group, separated by commas. The strips come field after field.
#[cycle(printing)]
fn push_members<'a>(
    alloc: Global,
    text: &mut String,
    spare: &mut Spare<'a>,
    fields: &Vec<Field>,
    strips: &[Strip<'a>],
    level: u32,
    definition: u32,
) -> Result<(), AllocError>
    requires levels { level + depth (fields_view (fields.now).items) ≤ greatest_depth }
    requires definitions { definition + depth (fields_view (fields.now).items) ≤ greatest_depth }
    ensures { OnOk result (string_bytes text.new ≡ string_bytes text.old ++ separated false
        (text_members (fields_view (fields.now).items) 0 level definition (strips_view strips.now))) }
{
    let rests = spare.without_steps(strips)?;
    let mut from = 0;
    let mut behind = false;
    'fields: for (place, field) in fields.iter().enumerate() {
        let to = from + front_length(&strips[from..], place);
        behind = push_member(
            alloc,
            text,
            spare,
            field,
            &rests[from..to],
            level,
            definition,
            behind,
        )?;
        from = to;
    }
    spare.give_back(rests)
}

/// Appends a group as an object, below this many repeated fields, with this definition level.
#[cycle(printing)]
pub fn push_group<'a>(
    alloc: Global,
    text: &mut String,
    spare: &mut Spare<'a>,
    fields: &Vec<Field>,
    strips: &[Strip<'a>],
    level: u32,
    definition: u32,
) -> Result<(), AllocError>
    requires levels { level + depth (fields_view (fields.now).items) ≤ greatest_depth }
    requires definitions { definition + depth (fields_view (fields.now).items) ≤ greatest_depth }
    ensures { OnOk result (string_bytes text.new ≡ string_bytes text.old
        ++ text_one (tree.group (fields_view (fields.now).items)) level definition (strips_view strips.now)) }
{
    text.push_str("{")?;
    push_members(alloc, text, spare, fields, strips, level, definition)?;
    text.push_str("}")
}
