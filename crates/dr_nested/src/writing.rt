//! The canonical text of a schema.

ghost use Rattle.std.specs.Prelude.{◌≡◌, ◌++◌, ◌∷◌, List, OnOk, IfOk, string_bytes};
ghost use Rattle.dr_meaning.specs.SchemaText.{Token, separated, field_tokens, shape_tokens, repetition_word, kind_word};
ghost use Rattle.dr_meaning.specs.SchemaText as text_meaning;
ghost use Rattle.dr_nested.specs.SchemaView.{schema_view};
ghost use Rattle.dr_nested.specs.Views.{rep_view, kind_view, shape_view, fields_view};

use crate::schema::Schema;
use crate::shape::{Field, Kind, Rep, Shape};
use dr_memory::NoMemory;
use std::alloc::{AllocError, Global};

fn rep_word(rep: Rep) -> &'static str
    ensures { result.now ≡ repetition_word (rep_view rep) }
{
    match rep {
        Rep::Required => "required",
        Rep::Optional => "optional",
        Rep::Repeated => "repeated",
    }
}

fn kind_name(kind: Kind) -> &'static str
    ensures { result.now ≡ kind_word (kind_view kind) }
{
    match kind {
        Kind::Bool => "boolean",
        Kind::I32 => "int32",
        Kind::I64 => "int64",
        Kind::Text => "string",
    }
}

/// Appends a space and a word.
fn write_word(out: &mut String, word: &str) -> Result<(), AllocError>
    ensures { OnOk result (string_bytes out.new ≡ string_bytes out.old ++ (32 ∷ word.now)) }
{
    out.push_str(" ")?;
    out.push_str(word)
}

/// Appends what follows a field's repetition.
#[cycle(writing)]
fn write_shape(out: &mut String, name: &str, shape: &Shape) -> Result<(), AllocError>
    ensures { OnOk result ((ts : List Token) → string_bytes out.new ++ separated ts
        ≡ string_bytes out.old ++ separated (shape_tokens (shape_view shape.now) name.now ++ ts)) }
{
    match shape {
        Shape::Leaf(kind) => {
            write_word(out, kind_name(*kind))?;
            write_word(out, name)?;
            out.push_str(";")
        }
        Shape::Group(fields) => {
            write_word(out, "group")?;
            write_word(out, name)?;
            write_word(out, "{")?;
            write_fields(out, fields)?;
            write_word(out, "}")?;
            Ok(())
        }
    }
}

/// Appends the fields of a group.
#[cycle(writing)]
fn write_fields(out: &mut String, fields: &Vec<Field>) -> Result<(), AllocError>
    ensures { OnOk result ((ts : List Token) → string_bytes out.new ++ separated ts
        ≡ string_bytes out.old ++ separated (field_tokens (fields_view (fields.now).items) ++ ts)) }
{
    'fields: for field in fields {
        write_word(out, rep_word(field.rep))?;
        write_shape(out, field.name.as_str(), &field.shape)?;
    }
    Ok(())
}

/// The canonical text of a schema, on one line ended by LF: its tokens separated by one space, but none before `;`, and
/// no `;` after a group.
///
/// Errors: want of memory alone.
pub fn schema_text(alloc: Global, schema: &Schema) -> Result<String, NoMemory>
    ensures { IfOk result (λ s. string_bytes s ≡ text_meaning.schema_text (schema_view schema.now)) }
{
    let mut out = String::new(alloc);
    match write_message(&mut out, schema) {
        Ok(()) => Ok(out),
        Err(_) => Err(NoMemory),
    }
}

fn write_message(out: &mut String, schema: &Schema) -> Result<(), AllocError>
    ensures { OnOk result (string_bytes out.new
        ≡ string_bytes out.old ++ text_meaning.schema_text (schema_view schema.now)) }
{
    out.push_str("message")?;
    write_word(out, schema.name.as_str())?;
    write_word(out, "{")?;
    write_fields(out, &schema.fields)?;
    out.push_str(" }\n")?;
    Ok(())
}
