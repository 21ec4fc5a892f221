//! The words, numbers, bytes and copies of a line.

use crate::broken::Broken;
use std::alloc::Global;

/// The words of a text, which blanks part.
pub fn words_of(alloc: Global, text: &str) -> Result<Vec<String>, Broken> {
    let mut words = Vec::new(alloc);
    for word in text.split_whitespace() {
        words.push(String::from_str(alloc, word)?)?;
    }
    Ok(words)
}

/// The numbers of a text.
pub fn numbers_of(alloc: Global, text: &str) -> Result<Vec<u64>, Broken> {
    let mut numbers = Vec::new(alloc);
    for word in text.split_whitespace() {
        numbers.push(word.parse::<u64>().or(Err(Broken::Form))?)?;
    }
    Ok(numbers)
}

/// Appends the bytes that a text writes, each as two hexadecimal digits.
pub fn push_bytes(text: &str, bytes: &mut Vec<u8>) -> Result<(), Broken> {
    for word in text.split_whitespace() {
        bytes.push(u8::from_str_radix(word, 16).or(Err(Broken::Form))?)?;
    }
    Ok(())
}

/// Appends what a line of text writes: a line with its line feed, one without, or bytes. Says whether the word in front
/// is one of these.
pub fn push_text(head: &str, rest: &str, bytes: &mut Vec<u8>) -> Result<bool, Broken> {
    match head {
        "|" => {
            bytes.extend_from_slice(rest.as_bytes())?;
            bytes.push(10)?;
        }
        "." => bytes.extend_from_slice(rest.as_bytes())?,
        "x" => push_bytes(rest, bytes)?,
        _ => return Ok(false),
    }
    Ok(true)
}

/// Appends a line of text so often, as `3 . a#,` says; the first `#` stands for the number of the copy, counted from 0.
pub fn push_copies(alloc: Global, text: &str, bytes: &mut Vec<u8>) -> Result<(), Broken> {
    let (count, line) = text.split_once(' ').ok_or(Broken::Form)?;
    let count = count.parse::<u32>().or(Err(Broken::Form))?;
    let (head, rest) = line.split_once(' ').unwrap_or((line, ""));
    for number in 0..count {
        let is_text = match rest.split_once('#') {
            None => push_text(head, rest, bytes)?,
            Some((front, back)) => {
                let copy = format!(in alloc; "{front}{number}{back}")?;
                push_text(head, copy.as_str(), bytes)?
            }
        };
        if !is_text {
            return Err(Broken::Form);
        }
    }
    Ok(())
}
