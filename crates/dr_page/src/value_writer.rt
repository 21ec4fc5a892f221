//! Values of page bodies in PLAIN.

ghost use Rattle.std.specs.Prelude.{◌≡◌, ◌+◌, length, true};
ghost use Rattle.std.specs.List.{list_all};
ghost use Rattle.dr_meaning.specs.Schema.{text_kind};
ghost use Rattle.dr_nested.specs.Views.{kind_view};
ghost use Rattle.dr_levels.specs.Lent.{lent_values, lends_kind};
ghost use Rattle.dr_levels.specs.Dense.{text_values};
ghost use Rattle.dr_levels.specs.Texts.{is_text};
ghost use Rattle.dr_formats.specs.Plain.{plain_bytes, is_writable};
ghost use Rattle.dr_page.specs.Writes.{Writes};

use dr_levels::{TextPlace, ValuesRef};
use dr_memory::NoMemory;
use dr_nested::Kind;
use dr_plain::{write_bools, write_int32s, write_int64s, write_text};

/// Appends values of a kind.
pub(crate) fn append_values(
    kind: Kind,
    values: ValuesRef<'_>,
    out: &mut Vec<u8>,
) -> Result<(), NoMemory>
    requires kind { lends_kind (kind_view kind) values ≡ true }
    requires writable { list_all (is_writable (kind_view kind)) (lent_values values) ≡ true }
    ensures { Writes (plain_bytes (kind_view kind) (lent_values values.entry)) (out.old).items (out.new).items result }
{
    match (kind, values) {
        (Kind::Bool, ValuesRef::Bools(truths)) => write_bools(truths, out),
        (Kind::I32, ValuesRef::Integers(numbers)) => write_int32s(numbers, out),
        (Kind::I64, ValuesRef::Integers(numbers)) => write_int64s(numbers, out),
        (Kind::Text, ValuesRef::Texts { bytes, places }) => append_texts(bytes, places, out),
        _ => unreachable!(),
    }
}

/// Appends the texts at places of a buffer, each behind its length in four bytes.
fn append_texts(bytes: &[u8], places: &[TextPlace], out: &mut Vec<u8>) -> Result<(), NoMemory>
    requires { list_all (is_text bytes.now) places.now ≡ true }
    ensures { Writes (plain_bytes text_kind (text_values bytes.now places.now)) (out.old).items (out.new).items result }
{
    'places: for place in places {
        let start = place.start as usize;
        let end = start + place.length as usize;
        write_text(&bytes[start..end], out)?;
    }
    Ok(())
}
