//! Calls of `dr_gen`: made records, and a source of their lines that is read a few bytes at once.

ghost use Rattle.std.specs.Prelude.{◌≤◌, ◌*◌, ◌^◌, IfOk};

use crate::texts::{argument, count_of, number_at};
use dr_case_lines::Broken;
use dr_gen::{GenSource, node_of};
use dr_nested::parse_schema;
use dr_outside::Source;
use dr_print::record_text;
use std::alloc::Global;

/// The greatest seed, number and count of records of a call.
const MOST: u64 = 2_000_000_000;

/// The number that an argument writes, at most so large as records are made of.
fn seed_at(words: &[String], place: usize) -> Result<u64, Broken>
    ensures { IfOk result (λ n. n ≤ 2 * 10 ^ 9) }
{
    match number_at(words, place) {
        Ok(number) if number <= MOST => Ok(number),
        _ => Err(Broken::Form),
    }
}

/// `made SEED RECORDS SIZE`: all that a source of so many made lines gives, read with room for so many bytes.
pub fn lines_made(alloc: Global, words: &[String]) -> Result<String, Broken> {
    let seed = seed_at(words, 0)?;
    let records = seed_at(words, 1)?;
    let mut source = GenSource::new(alloc, seed, records)?;
    let mut room = vec![in alloc; 0u8; count_of(argument(words, 2)?)?]?;
    let mut bytes = Vec::new(alloc);
    for _ in 0..u64::MAX {
        match source.read(&mut room) {
            Ok(0) => break,
            Ok(count) => bytes.extend_from_slice(&room[..count])?,
            Err(_) => return Err(Broken::Form),
        }
    }
    let text = str::from_utf8(&bytes).or(Err(Broken::Form))?;
    Ok(String::from_str(alloc, text)?)
}

/// `made_record NUMBER SCHEMA`: the line of a made record, printed from its tree.
pub fn record_made(alloc: Global, words: &[String]) -> Result<String, Broken> {
    let node = node_of(alloc, seed_at(words, 0)?)?;
    let schema = argument(words, 1)?.as_bytes();
    let schema = parse_schema(alloc, schema).or(Err(Broken::Form))?;
    Ok(record_text(alloc, &schema, &node)?)
}
