//! Schemas: a message's name and its fields.

ghost use Rattle.std.specs.Prelude.{◌≡◌, true, string_bytes};
ghost use Rattle.dr_meaning.specs.Schema.{is_schema};
ghost use Rattle.dr_nested.specs.Views.{fields_view};

use crate::shape::Field;

/// A message: its name and its fields. It keeps the rules of schemas: names of the right form and of at most 64 bytes,
/// distinct within a group; no empty group; paths of at most 32 parts; at most 1,024 leaves.
#[derive(Drop)]
pub struct Schema {
    pub name: String,
    pub fields: Vec<Field>,
    pub ghost valid: { is_schema (record { name = string_bytes name; fields = fields_view fields.items }) ≡ true },
}
