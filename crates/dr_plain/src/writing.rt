//! Values as they are written.

ghost use Rattle.std.specs.Prelude.{◌≡◌, ◌<◌, ◌^◌, ◌++◌, length, take, map, true, OnOk, OnErr};
ghost use Rattle.std.specs.List.{list_all};
ghost use Rattle.dr_meaning.specs.Schema.{bool_kind, int32_kind, int64_kind, text_kind};
ghost use Rattle.dr_meaning.specs.Record.{bool_value, int_value, text_value};
ghost use Rattle.dr_formats.specs.LittleEndian.{packed};
ghost use Rattle.dr_formats.specs.Plain.{plain_bytes, plain_text_bytes, is_writable, bit_of};
ghost use Rattle.dr_plain.specs.Views.{text_values, AreTexts};

use crate::values::TextPlace;
use dr_nested::NoMemory;

/// Appends truth values, one bit each, the lowest first.
///
/// Errors: want of memory alone; the bytes are then as they were.
pub fn write_bools(values: &[bool], out: &mut Vec<u8>) -> Result<(), NoMemory>
    ensures written { OnOk result ((out.new).items
        ≡ (out.old).items ++ plain_bytes bool_kind (map bool_value values.now)) }
    ensures stays { OnErr result ((out.new).items ≡ (out.old).items) }
{
    let length = values.len() / 8 + usize::from(values.len() % 8 > 0);
    out.reserve(length)?;
    let mut done = 0;
    'bytes: while done < values.len() {
        out.push_reserved(byte_of(&values[done..]));
        done += (values.len() - done).min(8);
    }
    Ok(())
}

/// The first eight truth values as a byte; those behind the last are false.
fn byte_of(values: &[bool]) -> u8
    ensures { result ≡ packed 1 (map bit_of (map bool_value (take 8 values.now))) }
{
    let mut byte = 0;
    let mut worth = 1u16;
    for value in &values[..values.len().min(8)] {
        byte += u16::from(*value) * worth;
        worth *= 2;
    }
    byte as u8
}

/// Appends 32-bit numbers, little-endian two's complement.
///
/// Errors: want of memory alone; the bytes are then as they were.
pub fn write_int32s(values: &[i64], out: &mut Vec<u8>) -> Result<(), NoMemory>
    requires { list_all (is_writable int32_kind) (map int_value values.now) ≡ true }
    ensures written { OnOk result ((out.new).items
        ≡ (out.old).items ++ plain_bytes int32_kind (map int_value values.now)) }
    ensures stays { OnErr result ((out.new).items ≡ (out.old).items) }
{
    let start = out.len();
    'values: for value in values {
        let number = *value as i32;
        if out.extend_from_slice(&number.to_le_bytes()).is_err() {
            out.truncate(start);
            return Err(NoMemory);
        }
    }
    Ok(())
}

/// Appends 64-bit numbers, little-endian two's complement.
///
/// Errors: want of memory alone; the bytes are then as they were.
pub fn write_int64s(values: &[i64], out: &mut Vec<u8>) -> Result<(), NoMemory>
    ensures written { OnOk result ((out.new).items
        ≡ (out.old).items ++ plain_bytes int64_kind (map int_value values.now)) }
    ensures stays { OnErr result ((out.new).items ≡ (out.old).items) }
{
    let start = out.len();
    'values: for value in values {
        if out.extend_from_slice(&value.to_le_bytes()).is_err() {
            out.truncate(start);
            return Err(NoMemory);
        }
    }
    Ok(())
}

/// Appends a text behind its length in four bytes.
///
/// Errors: want of memory alone; the bytes are then as they were.
pub fn write_text(text: &[u8], out: &mut Vec<u8>) -> Result<(), NoMemory>
    requires { length text.now < 2 ^ 32 }
    ensures written { OnOk result ((out.new).items ≡ (out.old).items ++ plain_text_bytes (text_value text.now)) }
    ensures stays { OnErr result ((out.new).items ≡ (out.old).items) }
{
    let head = (text.len() as u32).to_le_bytes();
    out.reserve(4 + text.len())?;
    out.extend_from_slice(&head).unwrap();
    out.extend_from_slice(text).unwrap();
    Ok(())
}

/// Appends the texts at these places of bytes, each behind its length in four bytes.
///
/// Errors: want of memory alone; the bytes are then as they were.
pub fn write_texts(texts: &[TextPlace], bytes: &[u8], out: &mut Vec<u8>) -> Result<(), NoMemory>
    requires places { AreTexts bytes.now texts.now }
    requires short { list_all (is_writable text_kind) (text_values bytes.now texts.now) ≡ true }
    ensures written { OnOk result ((out.new).items
        ≡ (out.old).items ++ plain_bytes text_kind (text_values bytes.now texts.now)) }
    ensures stays { OnErr result ((out.new).items ≡ (out.old).items) }
{
    let start = out.len();
    'texts: for text in texts {
        let end = text.start + text.length;
        if write_text(&bytes[text.start..end], out).is_err() {
            out.truncate(start);
            return Err(NoMemory);
        }
    }
    Ok(())
}
