//! Triplets as texts: the levels, and behind them the value, if one is there.

use dr_case_lines::Broken;
use dr_levels::{Triplet, ValueRef};
use std::alloc::Global;

/// The value that a text writes: `true` or `false`, a whole number, or a text behind a quote.
fn value_of(word: &str) -> Result<ValueRef<'_>, Broken> {
    match word {
        "true" => Ok(ValueRef::Bool(true)),
        "false" => Ok(ValueRef::Bool(false)),
        _ => match word.strip_prefix('\'') {
            Some(text) => Ok(ValueRef::Text(text)),
            None => Ok(ValueRef::Int(word.parse::<i64>().or(Err(Broken::Form))?)),
        },
    }
}

/// The level that a text writes.
fn level_of(word: &str) -> Result<u8, Broken> {
    word.parse::<u8>().or(Err(Broken::Form))
}

/// The triplet that a word writes: REPETITION,DEFINITION or REPETITION,DEFINITION,VALUE.
fn triplet_of(word: &str) -> Result<Triplet<'_>, Broken> {
    let (repetition, rest) = word.split_once(',').ok_or(Broken::Form)?;
    let (definition, value) = match rest.split_once(',') {
        Some((definition, value)) => (definition, Some(value_of(value)?)),
        None => (rest, None),
    };
    Ok(Triplet {
        repetition: level_of(repetition)?,
        definition: level_of(definition)?,
        value,
    })
}

/// The triplets of a line.
fn column_of_line(alloc: Global, line: &str) -> Result<Vec<Triplet<'_>>, Broken> {
    let mut triplets = Vec::new(alloc);
    for word in line.split_whitespace() {
        triplets.push(triplet_of(word)?)?;
    }
    Ok(triplets)
}

/// The columns of lines.
pub fn columns_of_text(alloc: Global, text: &str) -> Result<Vec<Vec<Triplet<'_>>>, Broken> {
    let mut columns = Vec::new(alloc);
    for line in text.lines() {
        columns.push(column_of_line(alloc, line)?)?;
    }
    Ok(columns)
}

/// Appends a triplet as a word writes it.
pub fn push_triplet(alloc: Global, text: &mut String, triplet: Triplet<'_>) -> Result<(), Broken> {
    let (repetition, definition) = (triplet.repetition, triplet.definition);
    text.push_str(format!(in alloc; "{repetition},{definition}")?.as_str())?;
    match triplet.value {
        None => {}
        Some(ValueRef::Bool(truth)) => text.push_str(if truth { ",true" } else { ",false" })?,
        Some(ValueRef::Int(number)) => text.push_str(format!(in alloc; ",{number}")?.as_str())?,
        Some(ValueRef::Text(value)) => {
            text.push_str(",'")?;
            text.push_str(value)?;
        }
    }
    Ok(())
}
