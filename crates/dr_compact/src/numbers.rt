//! Bytes and numbers from the front of bytes.

ghost use Rattle.std.specs.Prelude.{◌≡◌, ◌==◌, ◌∷◌, [], ℕ, IfOk, IfErr};
ghost use Rattle.dr_formats.specs.Varint.{varint};
ghost use Rattle.dr_formats.specs.Reading.{bytes_of};
ghost use Rattle.dr_formats.specs.Compact.{malformed, signed_varint, field_id, binary};
ghost use Rattle.dr_bytes.specs.Cutting.{left};
ghost use Rattle.dr_compact.specs.Reads.{Reads};

use crate::fault::CompactFault;
use dr_bytes::{Cut, from_zigzag};

/// One past the greatest zigzag of a number of 16 bits.
const ID_BOUND: u64 = 1 << 16;

/// The next byte.
pub(crate) fn next_byte(cut: &mut Cut<'_>) -> Result<u8, CompactFault>
    ensures byte { IfOk result (λ b. left cut.old ≡ b ∷ left cut.new) }
    ensures end { IfErr result (λ e. (e ≡ CompactFault.Malformed) × (left cut.old ≡ [])) }
{
    let byte = cut.take(1)?;
    Ok(byte[0])
}

/// The next truth value, in a byte: only 1 is true.
pub(crate) fn next_truth(cut: &mut Cut<'_>) -> Result<bool, CompactFault>
    ensures byte { IfOk result (λ t. (b : ℕ) × (left cut.old ≡ b ∷ left cut.new) × (t ≡ (b == 1))) }
    ensures end { IfErr result (λ e. (e ≡ CompactFault.Malformed) × (left cut.old ≡ [])) }
{
    Ok(next_byte(cut)? == 1)
}

/// The next variable-length number.
pub(crate) fn next_number(cut: &mut Cut<'_>) -> Result<u64, CompactFault>
    ensures { Reads (λ n. n) (varint malformed malformed (left cut.old)) (left cut.new) result }
{
    Ok(cut.varint()?)
}

/// The next signed number.
pub(crate) fn next_signed(cut: &mut Cut<'_>) -> Result<i64, CompactFault>
    ensures { Reads (λ z. z) (signed_varint (left cut.old)) (left cut.new) result }
{
    Ok(from_zigzag(next_number(cut)?))
}

/// The next id of a field: a signed number of 16 bits.
pub(crate) fn next_id(cut: &mut Cut<'_>) -> Result<i16, CompactFault>
    ensures { Reads (λ z. z) (field_id (left cut.old)) (left cut.new) result }
{
    let number = next_number(cut)?;
    if number >= ID_BOUND {
        return Err(CompactFault::Malformed);
    }
    Ok(from_zigzag(number) as i16)
}

/// The next bytes of the type binary, behind their length.
pub(crate) fn next_binary<'a>(cut: &mut Cut<'a>) -> Result<&'a [u8], CompactFault>
    ensures { Reads (λ b. b.now) (binary (left cut.old)) (left cut.new) result }
{
    let length = next_number(cut)?;
    Ok(cut.take(length as usize)?)
}

/// The next eight bytes, of the type double.
pub(crate) fn next_double(cut: &mut Cut<'_>) -> Result<[u8; 8], CompactFault>
    ensures { Reads (λ b. b) (bytes_of malformed 8 (left cut.old)) (left cut.new) result }
{
    match cut.take(8)?.first_chunk::<8>() {
        Some(bytes) => Ok(*bytes),
        None => unreachable!(),
    }
}
