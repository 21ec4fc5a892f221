//! The schema of a text, and the text of a schema.

ghost use Rattle.std.specs.Prelude.{◌≡◌, ◌≤◌, length, true, MatchOption, option_map};
ghost use Rattle.std.specs.List.{list_all};
ghost use Rattle.dr_meaning.specs.Schema as tree;
ghost use Rattle.dr_meaning.specs.SchemaText as text_meaning;
ghost use Rattle.dr_nested.specs.SchemaView.{schema_view};
ghost use Rattle.dr_nested.specs.Faults.{Gives, schema_fault_view};
ghost use Rattle.dr_nested.specs.Reading.{reading_view, stop_view};
ghost use Rattle.dr_nested.specs.Scanning.{ReadsPiece, ReadsText};

use crate::fault::{SchemaFault, SchemaProblem};
use crate::limits::LONGEST_SCHEMA;
use crate::schema::Schema;
use crate::state::{Expected, Reading, Stop};
use std::alloc::Global;

/// Whether a byte goes on with the word that has begun, or begins one.
fn goes_on(word: &[u8], byte: u8) -> bool
    ensures { result ≡ text_meaning.goes_on word.now byte }
{
    let is_letter = matches!(byte, b'A'..=b'Z' | b'a'..=b'z' | b'_');
    if word.is_empty() {
        is_letter
    } else {
        is_letter || matches!(byte, b'0'..=b'9')
    }
}

/// The fault of a stop at a byte offset.
fn fault_at(stop: Stop, offset: usize) -> SchemaFault
    ensures { schema_fault_view result ≡ option_map (λ p. record { place = offset; problem = p }) (stop_view stop) }
{
    match stop {
        Stop::NoMemory => SchemaFault::NoMemory,
        Stop::Problem(problem) => SchemaFault::Refused { offset, problem },
    }
}

/// Reads the word that ends before a byte offset; no bytes are no word.
fn read_word(
    alloc: Global,
    reading: &mut Reading,
    word: &[u8],
    end: usize,
) -> Result<(), SchemaFault>
    requires name { list_all tree.continues_name word.now ≡ true }
    requires within { length word.now ≤ end }
    ensures { ReadsPiece (text_meaning.with_word end word.now) (reading_view reading.old)
        (reading_view reading.new) result }
{
    if word.is_empty() {
        return Ok(());
    }
    match str::from_utf8(word) {
        Ok(name) => match reading.on_name(alloc, name) {
            Ok(()) => Ok(()),
            Err(stop) => Err(fault_at(stop, end - word.len())),
        },
        Err(_) => unreachable!(),
    }
}

/// Reads a byte that goes on with no word.
fn read_byte(
    alloc: Global,
    reading: &mut Reading,
    byte: u8,
    offset: usize,
) -> Result<(), SchemaFault>
    ensures { ReadsPiece (text_meaning.with_byte offset byte) (reading_view reading.old)
        (reading_view reading.new) result }
{
    let outcome = match byte {
        b' ' | b'\t' | b'\r' | b'\n' => return Ok(()),
        b'{' => reading.on_open(alloc),
        b'}' => reading.on_close(),
        b';' => reading.on_semicolon(alloc),
        _ => Err(Stop::Problem(SchemaProblem::Syntax)),
    };
    match outcome {
        Ok(()) => Ok(()),
        Err(stop) => Err(fault_at(stop, offset)),
    }
}

/// Reads the word that ends before a byte, and the byte.
fn read_piece(
    alloc: Global,
    reading: &mut Reading,
    word: &[u8],
    byte: u8,
    offset: usize,
) -> Result<(), SchemaFault>
    requires name { list_all tree.continues_name word.now ≡ true }
    requires within { length word.now ≤ offset }
    ensures { ReadsPiece (λ ts. text_meaning.with_word offset word.now (text_meaning.with_byte offset byte ts))
        (reading_view reading.old) (reading_view reading.new) result }
{
    match read_word(alloc, reading, word, offset) {
        Ok(()) => read_byte(alloc, reading, byte, offset),
        Err(fault) => Err(fault),
    }
}

/// The state after all of a text, before its end is looked at.
fn read_text(alloc: Global, text: &[u8]) -> Result<Reading, SchemaFault>
    ensures { ReadsText text.now result }
{
    let mut reading = Reading::start(alloc);
    let mut begun = 0;
    'bytes: for offset in 0..text.len() {
        let word = &text[begun..offset];
        if !goes_on(word, text[offset]) {
            match read_piece(alloc, &mut reading, word, text[offset], offset) {
                Ok(()) => begun = offset + 1,
                Err(fault) => return Err(fault),
            }
        }
    }
    match read_word(alloc, &mut reading, &text[begun..], text.len()) {
        Ok(()) => Ok(reading),
        Err(fault) => Err(fault),
    }
}

/// The schema of a text: `message NAME { fields }`, where a field is `REPETITION KIND NAME ;` or
/// `REPETITION group NAME { fields } [;]`.
///
/// Errors: the text's first problem, at its byte offset; want of memory.
pub fn parse_schema(alloc: Global, text: &[u8]) -> Result<Schema, SchemaFault>
    ensures { Gives schema_view schema_fault_view (text_meaning.parse_schema text.now) result }
{
    if text.len() > LONGEST_SCHEMA {
        return Err(SchemaFault::Refused {
            offset: LONGEST_SCHEMA,
            problem: SchemaProblem::TooLong,
        });
    }
    match read_text(alloc, text) {
        Err(fault) => Err(fault),
        Ok(
            Reading {
                expected,
                name: _,
                message,
                fields,
                groups: _,
                leaves: _,
            },
        ) => match expected {
            Expected::TextEnd => Ok(Schema {
                name: message,
                fields,
            }),
            _ => Err(SchemaFault::Refused {
                offset: text.len(),
                problem: SchemaProblem::Syntax,
            }),
        },
    }
}
