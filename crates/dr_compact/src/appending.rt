//! Bytes, numbers and headers appended to bytes.

ghost use Rattle.std.specs.Prelude.{◌≡◌, length, ◌++◌, ◌-ℤ◌};
ghost use Rattle.dr_formats.specs.Varint.{varint_bytes};
ghost use Rattle.dr_formats.specs.Compact.{signed_bytes, list_header_bytes, header_bytes};
ghost use Rattle.dr_compact.specs.Types.{type_view};
ghost use Rattle.dr_compact.specs.Writes.{Writes};
ghost use Rattle.dr_compact.specs.Writes as writes;

use crate::headers::SIZE_FOLLOWS;
use crate::thrift_type::ThriftType;
use dr_bytes::{Varint, zigzag};
use dr_memory::NoMemory;

/// The greatest step from the last id in the short form of a field's header.
const GREATEST_DELTA: i32 = 15;

/// Appends bytes.
pub(crate) fn append(bytes: &[u8], out: &mut Vec<u8>) -> Result<(), NoMemory>
    ensures { Writes bytes.now (out.old).items (out.new).items result }
{
    out.extend_from_slice(bytes)?;
    Ok(())
}

/// Appends a number in its shortest spelling.
pub(crate) fn append_number(number: u64, out: &mut Vec<u8>) -> Result<(), NoMemory>
    ensures { Writes (varint_bytes number) (out.old).items (out.new).items result }
{
    append(Varint::new(number).as_slice(), out)
}

/// Appends a signed number.
pub(crate) fn append_signed(number: i64, out: &mut Vec<u8>) -> Result<(), NoMemory>
    ensures { Writes (signed_bytes number) (out.old).items (out.new).items result }
{
    append_number(zigzag(number), out)
}

/// Appends bytes behind their length.
pub(crate) fn append_binary(bytes: &[u8], out: &mut Vec<u8>) -> Result<(), NoMemory>
    ensures { Writes (varint_bytes (length bytes.now) ++ bytes.now) (out.old).items (out.new).items result }
{
    append_number(bytes.len() as u64, out)?;
    append(bytes, out)
}

/// Appends the header of a list or set.
pub(crate) fn append_list_header(
    size: usize,
    element: ThriftType,
    out: &mut Vec<u8>,
) -> Result<(), NoMemory>
    ensures { Writes (list_header_bytes size (type_view element)) (out.old).items (out.new).items result }
{
    if size < usize::from(SIZE_FOLLOWS) {
        append(&[size as u8 * 16 + element.number()], out)
    } else {
        append(&[SIZE_FOLLOWS * 16 + element.number()], out)?;
        append_number(size as u64, out)
    }
}

/// The step from the last id, where the short form of a field's header has room for it.
fn short_delta(last: i16, id: i16) -> Option<u8>
    ensures { result ≡ writes.short_delta (id -ℤ last) }
{
    let delta = i32::from(id) - i32::from(last);
    if delta > 0 && delta <= GREATEST_DELTA {
        Some(delta as u8)
    } else {
        None
    }
}

/// Appends the header of the field behind the one with the last id, in the short form where it fits.
pub(crate) fn append_field_header(
    last: i16,
    id: i16,
    kind: ThriftType,
    out: &mut Vec<u8>,
) -> Result<(), NoMemory>
    ensures { Writes (header_bytes last id (type_view kind)) (out.old).items (out.new).items result }
{
    match short_delta(last, id) {
        Some(delta) => append(&[delta * 16 + kind.number()], out),
        None => {
            append(&[kind.number()], out)?;
            append_signed(i64::from(id), out)
        }
    }
}
