//! Hybrid data and values in PLAIN, read a piece at a time.

ghost use Rattle.std.specs.Prelude.{◌≡◌, ◌≤◌};
ghost use Rattle.dr_hybrid.specs.Reader.{width_at};

use crate::faults::plain_name;
use crate::texts::{count_of, line_of, push_numbers, push_word, width_at};
use crate::values::{kind_at, values_text};
use dr_case_lines::Broken;
use dr_hybrid::RunReader;
use dr_nested::Kind;
use dr_plain::{PlainFault, PlainReader, TextPlace, Values};
use std::alloc::Global;

/// Appends the line of the next so many values of hybrid data, or of their want.
fn push_next(
    alloc: Global,
    text: &mut String,
    reader: &mut RunReader,
    count: usize,
    bytes: &[u8],
) -> Result<(), Broken>
    requires { width_at reader.old ≤ 32 }
    ensures { width_at reader.new ≡ width_at reader.old }
{
    let mut out = vec![in alloc; 77u32; count]?;
    if reader.next(bytes, &mut out).is_err() {
        return Ok(text.push_str("Short\n")?);
    }
    push_numbers(alloc, text, &out)
}

/// `read_runs WIDTH COUNT ..`: the next so many values of hybrid data, or `Short`, a line for each count.
pub fn runs_by_pieces(alloc: Global, words: &[String], bytes: &[u8]) -> Result<String, Broken> {
    let width = width_at(words, 0)?;
    if width > 32 {
        return Err(Broken::Form);
    }
    let mut reader = RunReader::start(width);
    let mut text = String::new(alloc);
    'pieces: for word in words.iter().skip(2) {
        let count = count_of(word.as_str())?;
        push_next(alloc, &mut text, &mut reader, count, bytes)?;
    }
    Ok(text)
}

/// The line of texts, each behind a `'`.
fn texts_line(alloc: Global, places: &[TextPlace], piece: &[u8]) -> Result<String, Broken> {
    let mut text = String::new(alloc);
    for place in places {
        let end = place.start.saturating_add(place.length);
        let bytes = piece.get(place.start..end).ok_or(Broken::Form)?;
        let characters = str::from_utf8(bytes).or(Err(Broken::Form))?;
        push_word(&mut text, format!(in alloc; "'{characters}")?.as_str())?;
    }
    text.push_str("\n")?;
    Ok(text)
}

/// The line of values that were read, or of their fault.
fn values_line(
    alloc: Global,
    read: Result<(), PlainFault>,
    values: &Values,
) -> Result<String, Broken> {
    match read {
        Ok(()) => values_text(alloc, values),
        Err(fault) => line_of(alloc, plain_name(fault)),
    }
}

/// The line of the next so many texts, or of their fault.
fn next_texts(
    alloc: Global,
    reader: &mut PlainReader,
    count: usize,
    bytes: &[u8],
) -> Result<String, Broken> {
    let mut places = Vec::new(alloc);
    match reader.next_texts(bytes, count, &mut places) {
        Ok(piece) => texts_line(alloc, &places, piece),
        Err(fault) => line_of(alloc, plain_name(fault)),
    }
}

/// The line of the next so many values of a kind, or of their fault.
fn next_values(
    alloc: Global,
    reader: &mut PlainReader,
    kind: Kind,
    count: usize,
    bytes: &[u8],
) -> Result<String, Broken> {
    match kind {
        Kind::Bool => {
            let mut truths = Vec::new(alloc);
            let read = reader.next_bools(bytes, count, &mut truths);
            values_line(alloc, read, &Values::Bools(truths))
        }
        Kind::I32 => {
            let mut numbers = Vec::new(alloc);
            let read = reader.next_int32s(bytes, count, &mut numbers);
            values_line(alloc, read, &Values::Integers(numbers))
        }
        Kind::I64 => {
            let mut numbers = Vec::new(alloc);
            let read = reader.next_int64s(bytes, count, &mut numbers);
            values_line(alloc, read, &Values::Integers(numbers))
        }
        Kind::Text => next_texts(alloc, reader, count, bytes),
    }
}

/// `plain_pieces KIND COUNT ..`: the next so many values, or their fault, a line for each count.
pub fn plain_by_pieces(alloc: Global, words: &[String], bytes: &[u8]) -> Result<String, Broken> {
    let kind = kind_at(words, 0)?;
    let mut reader = PlainReader::new();
    let mut text = String::new(alloc);
    for word in words.iter().skip(2) {
        let count = count_of(word.as_str())?;
        let line = next_values(alloc, &mut reader, kind, count, bytes)?;
        text.push_str(line.as_str())?;
    }
    Ok(text)
}
