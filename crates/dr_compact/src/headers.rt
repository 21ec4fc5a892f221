//! Headers of lists, sets, maps and fields.

ghost use Rattle.std.specs.Prelude.{◌≡◌, option_map, Some, None, IfOk, IfErr, pos, ◌+ℤ◌, true, false};
ghost use Rattle.dr_formats.specs.Reading.{byte_as};
ghost use Rattle.dr_formats.specs.Compact as compact;
ghost use Rattle.dr_formats.specs.Compact.{malformed, map_types, in_int16};
ghost use Rattle.dr_bytes.specs.Cutting.{left};
ghost use Rattle.dr_compact.specs.Reads.{Reads};
ghost use Rattle.dr_compact.specs.Types.{type_view};
ghost use Rattle.dr_compact.specs.Steps.{list_header_view, map_types_view, start_view, field_start};

use crate::fault::CompactFault;
use crate::numbers::{next_byte, next_id, next_number};
use crate::thrift_type::ThriftType;
use dr_bytes::Cut;

/// The size in a header's first byte where the size follows.
pub(crate) const SIZE_FOLLOWS: u8 = 15;

/// The type of a number, or the fault that it has none.
fn type_of(number: u8) -> Result<ThriftType, CompactFault>
    ensures found { IfOk result (λ t. compact.type_of number ≡ Some (type_view t)) }
    ensures none { IfErr result (λ e. (e ≡ CompactFault.Malformed) × (compact.type_of number ≡ None)) }
{
    ThriftType::from_number(number).ok_or(CompactFault::Malformed)
}

/// The header of a list or set: its size and the type of its values.
pub(crate) fn list_header(cut: &mut Cut<'_>) -> Result<(u64, ThriftType), CompactFault>
    ensures { Reads list_header_view (compact.list_header (left cut.old)) (left cut.new) result }
{
    let byte = next_byte(cut)?;
    let element = type_of(byte % 16)?;
    let size = byte / 16;
    if size == SIZE_FOLLOWS {
        Ok((next_number(cut)?, element))
    } else {
        Ok((u64::from(size), element))
    }
}

/// The types of a map's keys and values.
pub(crate) fn key_and_value(cut: &mut Cut<'_>) -> Result<(ThriftType, ThriftType), CompactFault>
    ensures { Reads map_types_view (byte_as malformed malformed map_types (left cut.old)) (left cut.new) result }
{
    let byte = next_byte(cut)?;
    Ok((type_of(byte / 16)?, type_of(byte % 16)?))
}

/// The id so much behind the last one.
fn id_behind(last: i16, delta: u8) -> Result<i16, CompactFault>
    ensures found { IfOk result (λ id. (id ≡ last +ℤ pos delta) × (in_int16 (last +ℤ pos delta) ≡ true)) }
    ensures none { IfErr result (λ e. (e ≡ CompactFault.Malformed) × (in_int16 (last +ℤ pos delta) ≡ false)) }
{
    last.checked_add(i16::from(delta))
        .ok_or(CompactFault::Malformed)
}

/// The id and the type of the field behind the one with the last id, or the struct's end.
pub(crate) fn field_header(
    cut: &mut Cut<'_>,
    last: i16,
) -> Result<Option<(i16, ThriftType)>, CompactFault>
    ensures { Reads (option_map start_view) (field_start last (left cut.old)) (left cut.new) result }
{
    let byte = next_byte(cut)?;
    if byte == 0 {
        return Ok(None);
    }
    let kind = type_of(byte % 16)?;
    let delta = byte / 16;
    let id = if delta == 0 {
        next_id(cut)?
    } else {
        id_behind(last, delta)?
    };
    Ok(Some((id, kind)))
}
