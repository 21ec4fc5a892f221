//! Calls of `dr_bytes`.

use crate::faults::varint_name;
use crate::texts::{argument, line_of, number_at, push_hex};
use dr_bytes::{Cut, Varint, from_zigzag, zigzag};
use dr_case_lines::Broken;
use std::alloc::Global;

/// `varint`: the number with which bytes begin, and how many spell it; or the fault, and where the cut then is.
pub fn varint_read(alloc: Global, bytes: &[u8]) -> Result<String, Broken> {
    let mut cut = Cut::new(bytes);
    match cut.varint() {
        Ok(number) => {
            let place = cut.place();
            Ok(format!(in alloc; "{number} in {place}\n")?)
        }
        Err(fault) => {
            let place = cut.place();
            Ok(format!(in alloc; "{} at {place}\n", varint_name(fault))?)
        }
    }
}

/// `write_varint N`: the bytes that are written for a number.
pub fn varint_written(alloc: Global, words: &[String]) -> Result<String, Broken> {
    let varint = Varint::new(number_at(words, 0)?);
    let mut text = String::new(alloc);
    push_hex(alloc, &mut text, varint.as_slice())?;
    Ok(text)
}

/// `zigzag N`: the number that stands for one with a sign.
pub fn turned(alloc: Global, words: &[String]) -> Result<String, Broken> {
    let number = argument(words, 0)?.parse::<i64>().or(Err(Broken::Form))?;
    let turned = zigzag(number);
    line_of(alloc, turned.to_string(alloc)?.as_str())
}

/// `from_zigzag N`: the number with a sign for which one stands.
pub fn signed(alloc: Global, words: &[String]) -> Result<String, Broken> {
    let number = from_zigzag(number_at(words, 0)?);
    line_of(alloc, number.to_string(alloc)?.as_str())
}
