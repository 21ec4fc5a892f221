//! Values of a fixed size, read in bulk.

ghost use Rattle.std.specs.Prelude.{◌≡◌, ◌≤◌, ◌+◌, ◌-◌, ◌*◌, ◌++◌, length, map, vec_len, vec_capacity, OnOk, OnErr, IfErr};
ghost use Rattle.dr_meaning.specs.Schema.{bool_kind, int32_kind, int64_kind};
ghost use Rattle.dr_meaning.specs.Record.{bool_value, int_value};
ghost use Rattle.dr_formats.specs.LittleEndian.{bytes_for};
ghost use Rattle.dr_formats.specs.Plain.{plain, plain_values};
ghost use Rattle.dr_plain.specs.Views.{Appends, IsFaultOf, int64_of};
ghost use Rattle.dr_plain.specs.Pieces.{bits_of};

use crate::values::PlainFault;

/// Appends the truth values with which bytes begin, one bit each, the lowest first.
///
/// Errors: the bytes end before; want of memory. The values are then as they were.
pub fn append_bools(bytes: &[u8], count: usize, out: &mut Vec<bool>) -> Result<(), PlainFault>
    ensures read { OnOk result (Appends (plain_values bool_kind count bytes.now) (map bool_value (out.old).items)
        (map bool_value (out.new).items)) }
    ensures fault { IfErr result (λ e. IsFaultOf e (plain bool_kind count bytes.now)) }
    ensures stays { OnErr result ((out.new).items ≡ (out.old).items) }
{
    if bytes.len() < bytes_of_bits(count) {
        return Err(PlainFault::Short);
    }
    if out.reserve(count).is_err() {
        return Err(PlainFault::NoMemory);
    }
    push_bits(bytes, 0, count, out);
    Ok(())
}

/// How many bytes so many bits take.
pub(crate) fn bytes_of_bits(count: usize) -> usize
    ensures { result ≡ bytes_for count }
{
    count / 8 + usize::from(count % 8 > 0)
}

/// Appends the truth values at these bits of bytes, the lowest of a byte first. There is room for them.
#[inline]
pub(crate) fn push_bits(bytes: &[u8], start: usize, end: usize, out: &mut Vec<bool>)
    requires order { start ≤ end }
    requires within { end ≤ 8 * length bytes.now }
    requires room { vec_len out.old + (end - start) ≤ vec_capacity out.old }
    ensures { map bool_value (out.new).items ≡ map bool_value (out.old).items ++ bits_of bytes.now start (end - start) }
{
    'bits: for index in start..end {
        out.push_reserved((bytes[index / 8] >> (index % 8)) % 2 == 1);
    }
}

/// Appends the 32-bit numbers with which bytes begin, little-endian two's complement.
///
/// Errors: the bytes end before; want of memory. The values are then as they were.
pub fn append_int32s(bytes: &[u8], count: usize, out: &mut Vec<i64>) -> Result<(), PlainFault>
    ensures read { OnOk result (Appends (plain_values int32_kind count bytes.now) (map int_value (out.old).items)
        (map int_value (out.new).items)) }
    ensures fault { IfErr result (λ e. IsFaultOf e (plain int32_kind count bytes.now)) }
    ensures stays { OnErr result ((out.new).items ≡ (out.old).items) }
{
    if bytes.len() / 4 < count {
        return Err(PlainFault::Short);
    }
    if out.reserve(count).is_err() {
        return Err(PlainFault::NoMemory);
    }
    let (numbers, _) = bytes[..4 * count].as_chunks::<4>();
    'numbers: for number in numbers {
        out.push_reserved(i64::from(i32::from_le_bytes(*number)));
    }
    Ok(())
}

/// Appends the 64-bit numbers with which bytes begin, little-endian two's complement.
///
/// Errors: the bytes end before; want of memory. The values are then as they were.
pub fn append_int64s(bytes: &[u8], count: usize, out: &mut Vec<i64>) -> Result<(), PlainFault>
    ensures read { OnOk result (Appends (plain_values int64_kind count bytes.now) (map int_value (out.old).items)
        (map int_value (out.new).items)) }
    ensures fault { IfErr result (λ e. IsFaultOf e (plain int64_kind count bytes.now)) }
    ensures stays { OnErr result ((out.new).items ≡ (out.old).items) }
{
    if bytes.len() / 8 < count {
        return Err(PlainFault::Short);
    }
    let start = out.len();
    if out.resize(start + count, 0).is_err() {
        return Err(PlainFault::NoMemory);
    }
    let (numbers, _) = bytes[..8 * count].as_chunks::<8>();
    fill_int64s(numbers, &mut out[start..]);
    Ok(())
}

/// Puts 64-bit numbers into the place of others, as many.
#[inline]
fn fill_int64s(numbers: &[[u8; 8]], out: &mut [i64])
    requires { length out.old ≡ length numbers.now }
    ensures { out.new ≡ map int64_of numbers.now }
{
    'numbers: for index in 0..out.len() {
        out[index] = i64::from_le_bytes(numbers[index]);
    }
}
