//! Calls of `dr_plain`.

use crate::faults::{pick_name, plain_name};
use crate::texts::{argument, count_of, line_of, push_word};
use dr_case_lines::Broken;
use dr_nested::Kind;
use dr_plain::{Values, pick, read_plain};
use std::alloc::Global;

/// The kind that an argument names.
pub fn kind_at(words: &[String], place: usize) -> Result<Kind, Broken> {
    match argument(words, place)? {
        "boolean" => Ok(Kind::Bool),
        "int32" => Ok(Kind::I32),
        "int64" => Ok(Kind::I64),
        "string" => Ok(Kind::Text),
        _ => Err(Broken::Form),
    }
}

/// The line of values; of a text where it begins and how long it is.
pub fn values_text(alloc: Global, values: &Values) -> Result<String, Broken> {
    let mut text = String::new(alloc);
    match values {
        Values::Bools(truths) => {
            for truth in truths {
                push_word(&mut text, if *truth { "true" } else { "false" })?;
            }
        }
        Values::Integers(numbers) => {
            for number in numbers {
                push_word(&mut text, number.to_string(alloc)?.as_str())?;
            }
        }
        Values::Texts(texts) => {
            for place in texts {
                let (start, length) = (place.start, place.length);
                let word = format!(in alloc; "{start}+{length}")?;
                push_word(&mut text, word.as_str())?;
            }
        }
    }
    text.push_str("\n")?;
    Ok(text)
}

/// `read_plain KIND COUNT`: so many values with which bytes begin, or their fault.
pub fn plain_read(alloc: Global, words: &[String], bytes: &[u8]) -> Result<String, Broken> {
    let kind = kind_at(words, 0)?;
    match read_plain(alloc, kind, count_of(argument(words, 1)?)?, bytes) {
        Ok(values) => values_text(alloc, &values),
        Err(fault) => line_of(alloc, plain_name(fault)),
    }
}

/// `pick KIND COUNT INDEX ..`: the values at indices of a dictionary of so many, with which bytes begin, or their
/// fault.
pub fn picked(alloc: Global, words: &[String], bytes: &[u8]) -> Result<String, Broken> {
    let kind = kind_at(words, 0)?;
    let Ok(dictionary) = read_plain(alloc, kind, count_of(argument(words, 1)?)?, bytes) else {
        return line_of(alloc, "no dictionary");
    };
    let mut indices = Vec::new(alloc);
    for word in words.iter().skip(3) {
        indices.push(word.as_str().parse::<u32>().or(Err(Broken::Form))?)?;
    }
    match pick(alloc, &dictionary, &indices) {
        Ok(values) => values_text(alloc, &values),
        Err(fault) => line_of(alloc, pick_name(fault)),
    }
}
