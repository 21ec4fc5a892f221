//! Records of the worked document that look random.

ghost use Rattle.std.specs.Prelude.{◌≡◌, length, IfOk};

use dr_memory::NoMemory;
use std::alloc::Global;

/// A number below another, of a sequence that looks random.
fn draw(state: &mut u64, below: u64) -> u64 {
    *state = state
        .wrapping_mul(6364136223846793005)
        .wrapping_add(1442695040888963407);
    (*state >> 33).checked_rem(below).unwrap_or(0)
}

/// Appends a list of up to three numbers from -4 to 5.
fn push_numbers(alloc: Global, text: &mut String, state: &mut u64) -> Result<(), NoMemory> {
    text.push_str("[")?;
    for place in 0..draw(state, 4) {
        if place > 0 {
            text.push_str(",")?;
        }
        let number = i64::try_from(draw(state, 10)).unwrap_or(0).wrapping_sub(4);
        text.push_str(format!(in alloc; "{}", number)?.as_str())?;
    }
    text.push_str("]")?;
    Ok(())
}

/// Appends a list of up to two languages.
fn push_languages(alloc: Global, text: &mut String, state: &mut u64) -> Result<(), NoMemory> {
    for place in 0..draw(state, 3) {
        text.push_str(if place > 0 { "," } else { "" })?;
        text.push_str("{\"Code\":\"c")?;
        text.push_str(format!(in alloc; "{}", draw(state, 4))?.as_str())?;
        text.push_str(match draw(state, 3) {
            0 => "\",\"Country\":\"us\"}",
            1 => "\",\"Country\":\"gb\"}",
            _ => "\"}",
        })?;
    }
    Ok(())
}

/// Appends a list of up to two names.
fn push_names(alloc: Global, text: &mut String, state: &mut u64) -> Result<(), NoMemory> {
    for place in 0..draw(state, 3) {
        text.push_str(if place > 0 { ",{" } else { "{" })?;
        text.push_str("\"Language\":[")?;
        push_languages(alloc, text, state)?;
        text.push_str("]")?;
        if draw(state, 2) > 0 {
            text.push_str(",\"Url\":\"http://x/")?;
            text.push_str(format!(in alloc; "{}", draw(state, 5))?.as_str())?;
            text.push_str("\"")?;
        }
        text.push_str("}")?;
    }
    Ok(())
}

/// The line of a record.
fn record_line(alloc: Global, state: &mut u64) -> Result<String, NoMemory> {
    let mut text = String::new(alloc);
    text.push_str("{\"DocId\":")?;
    text.push_str(format!(in alloc; "{}", draw(state, 17))?.as_str())?;
    if draw(state, 3) > 0 {
        text.push_str(",\"Links\":{\"Backward\":")?;
        push_numbers(alloc, &mut text, state)?;
        text.push_str(",\"Forward\":")?;
        push_numbers(alloc, &mut text, state)?;
        text.push_str("}")?;
    }
    text.push_str(",\"Name\":[")?;
    push_names(alloc, &mut text, state)?;
    text.push_str("]}\n")?;
    Ok(text)
}

/// The lines of so many records, each with its line feed. They are the same at each call.
///
/// Errors: want of memory alone.
pub fn record_lines(alloc: Global, count: usize) -> Result<Vec<String>, NoMemory>
    ensures { IfOk result (λ v. length v.items ≡ count) }
{
    let mut lines = Vec::new(alloc);
    let mut state = 20100913;
    'lines: for number in 0..count {
        let _ = number;
        let line = record_line(alloc, &mut state)?;
        lines.push(line)?;
    }
    Ok(lines)
}
