//! Arguments and answers as texts.

use dr_case_lines::Broken;
use std::alloc::Global;

/// The argument at a place behind a call's name, counted from 0.
pub fn argument(words: &[String], place: usize) -> Result<&str, Broken> {
    let word = words.iter().skip(1).nth(place).ok_or(Broken::Form)?;
    Ok(word.as_str())
}

/// The number that an argument writes.
pub fn number_at(words: &[String], place: usize) -> Result<u64, Broken> {
    argument(words, place)?.parse::<u64>().or(Err(Broken::Form))
}

/// The count of values that a word writes.
pub fn count_of(word: &str) -> Result<usize, Broken> {
    word.parse::<usize>().or(Err(Broken::Form))
}

/// The width in bits that an argument writes.
pub fn width_at(words: &[String], place: usize) -> Result<u32, Broken> {
    argument(words, place)?.parse::<u32>().or(Err(Broken::Form))
}

/// Appends a word, behind a blank where something stands before it in the line.
pub fn push_word(text: &mut String, word: &str) -> Result<(), Broken> {
    if !text.is_empty() && !text.as_str().ends_with("\n") {
        text.push_str(" ")?;
    }
    Ok(text.push_str(word)?)
}

/// Appends bytes in hexadecimal, as one line.
pub fn push_hex(alloc: Global, text: &mut String, bytes: &[u8]) -> Result<(), Broken> {
    for byte in bytes {
        let word = format!(in alloc; "{byte:02x}")?;
        push_word(text, word.as_str())?;
    }
    Ok(text.push_str("\n")?)
}

/// Appends numbers, as one line.
pub fn push_numbers(alloc: Global, text: &mut String, numbers: &[u32]) -> Result<(), Broken> {
    for number in numbers {
        let word = format!(in alloc; "{number}")?;
        push_word(text, word.as_str())?;
    }
    Ok(text.push_str("\n")?)
}

/// A line.
pub fn line_of(alloc: Global, word: &str) -> Result<String, Broken> {
    Ok(format!(in alloc; "{word}\n")?)
}
