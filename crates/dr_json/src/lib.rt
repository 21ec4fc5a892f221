//! Records from lines of JSON: the record that a line reads as under a schema, or its first fault.
#![tactic(auto)]

mod check;
mod fault;
mod held;
mod keys;
mod leaf;
mod line;
mod nodes;
mod part;
mod plain;
mod raw;
mod raw_held;
mod record;
mod size;
mod striping;

pub use fault::{RecordFault, RecordProblem};
pub use line::{
    MOST_INSTANCES, MOST_TEXT_BYTES, line_record, record_limits_are_as_defined, record_of,
};
pub use record::LineRecord;
