//! Calls of a cut, each of which goes on where the one before it ended.

use crate::faults::varint_name;
use crate::texts::{count_of, line_of};
use dr_bytes::{Cut, Short, VarintFault};
use dr_case_lines::Broken;
use std::alloc::Global;
use std::fmt::Debug;

/// The line of a number or of bytes, or of their want.
fn line_read<T: Debug + Drop>(alloc: Global, read: Result<T, Short>) -> Result<String, Broken> {
    match read {
        Ok(value) => Ok(format!(in alloc; "Ok({value:?})\n")?),
        Err(Short) => line_of(alloc, "Err(Short)"),
    }
}

/// The line of a number of any length, or of the fault.
fn varint_line(alloc: Global, read: Result<u64, VarintFault>) -> Result<String, Broken> {
    match read {
        Ok(number) => Ok(format!(in alloc; "Ok({number})\n")?),
        Err(fault) => Ok(format!(in alloc; "Err({})\n", varint_name(fault))?),
    }
}

/// What one call answers: `le32`, `le64`, `varint`, `place`, `rest`, or a number of bytes that are taken.
fn answer_of(alloc: Global, cut: &mut Cut<'_>, call: &str) -> Result<String, Broken> {
    match call {
        "le32" => line_read(alloc, cut.le32()),
        "le64" => line_read(alloc, cut.le64()),
        "varint" => varint_line(alloc, cut.varint()),
        "place" => Ok(format!(in alloc; "{}\n", cut.place())?),
        "rest" => Ok(format!(in alloc; "{:?}\n", cut.rest())?),
        _ => line_read(alloc, cut.take(count_of(call)?)),
    }
}

/// `cut CALL ..`: what each call answers of bytes, a line each.
pub fn cut_up(alloc: Global, words: &[String], bytes: &[u8]) -> Result<String, Broken> {
    let mut cut = Cut::new(bytes);
    let mut text = String::new(alloc);
    for word in words.iter().skip(1) {
        let answer = answer_of(alloc, &mut cut, word.as_str())?;
        text.push_str(answer.as_str())?;
    }
    Ok(text)
}
