//! Calls of `dr_json`: a record longer than a line of an input can be.

use crate::faults::record_name;
use crate::texts::{argument, line_of};
use dr_case_lines::Broken;
use dr_json::{RecordFault, record_of};
use dr_nested::parse_schema;
use std::alloc::Global;

/// `record SCHEMA`: whether bytes read as a record, or their fault.
pub fn record_read(alloc: Global, words: &[String], bytes: &[u8]) -> Result<String, Broken> {
    let schema = argument(words, 0)?.as_bytes();
    let schema = parse_schema(alloc, schema).or(Err(Broken::Form))?;
    match record_of(alloc, &schema, bytes) {
        Ok(_record) => line_of(alloc, "record"),
        Err(RecordFault::Refused(problem)) => line_of(alloc, record_name(problem)),
        Err(RecordFault::NoMemory) => Err(Broken::NoMemory),
    }
}
