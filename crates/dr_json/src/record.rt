//! The type of a line that is a record.

ghost use Rattle.std.specs.Prelude.{◌≡◌, true};
ghost use Rattle.dr_json.specs.Lines.{is_object, is_formed};
ghost use Rattle.dr_nested.specs.Views.{fields_view};

use crate::raw::Member;
use dr_nested::Schema;
use serde_json::Value as Json;

/// The value of a line: read into one of its own, or the members of an object whose texts and keys are the line's.
#[derive(Drop)]
pub(crate) enum LineValue<'r> {
    Read(Json),
    Raw(Vec<Member<'r>>),
}

/// A record as its line was read: the value, and the schema by which it is one.
#[derive(Drop)]
pub struct LineRecord<'r> {
    pub(crate) schema: &'r Schema,
    pub(crate) value: LineValue<'r>,
    ghost object: { is_object value ≡ true },
    pub ghost formed: { is_formed (fields_view schema.now.fields.items) value ≡ true },
}
