//! The keys of an object against the fields of a group.

ghost use Rattle.std.specs.Prelude.{◌≡◌, true, count_by, is_some, string_bytes};
ghost use Rattle.std.specs.BTreeMap.{get_by_text};
ghost use Rattle.serde_json.specs.View.{members_view};
ghost use Rattle.dr_meaning.specs.JsonRecord.{are_known};
ghost use Rattle.dr_meaning.specs.Schema.{field_names, is_group};
ghost use Rattle.dr_nested.specs.declared.shape.Field.{Field};
ghost use Rattle.dr_nested.specs.Views.{fields_view};

use dr_nested::Field;
use serde_json::{Map, Value as Json};

/// Whether each key of the object is a field's name. Names are distinct, and so are keys: they are all known exactly
/// where as many fields are given as the object has keys.
pub fn has_only_known_keys(fields: &[Field], object: &Map<String, Json>) -> bool
    requires { is_group (fields_view fields.now) ≡ true }
    ensures { result ≡ are_known (field_names (fields_view fields.now)) (members_view object.now.entries) }
{
    given_count(fields, object) == object.len()
}

/// How many of the fields have a key in the object.
fn given_count(fields: &[Field], object: &Map<String, Json>) -> usize
    ensures { result ≡ count_by (λ (f : Field). is_some (get_by_text object.now (string_bytes f.name))) fields.now }
{
    fields
        .iter()
        .filter(|field| object.contains_key(field.name.as_str()))
        .count()
}
