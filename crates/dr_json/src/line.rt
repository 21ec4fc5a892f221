//! The record of a line.

ghost use Rattle.std.specs.Prelude.{◌≡◌, true, IfOk};
ghost use Rattle.serde_json.specs.View.{view};
ghost use Rattle.dr_meaning.specs.Schema.{is_group};
ghost use Rattle.dr_meaning.specs.JsonRecord as meant;
ghost use Rattle.dr_meaning.specs.JsonRecord.{record_of_line, node_within_limits, most_instances, most_text_bytes};
ghost use Rattle.dr_nested.specs.Views.{fields_view, node_view};
ghost use Rattle.dr_nested.specs.Faults.{Gives};
ghost use Rattle.dr_json.specs.Faults.{record_fault_view};
ghost use Rattle.dr_json.specs.Parts.{line_fields, line_node};

use crate::check::check_record;
use crate::fault::{RecordFault, RecordProblem};
use crate::nodes::node_of;
use crate::plain::is_plain_record;
use crate::raw::raw_members;
use crate::record::{LineRecord, LineValue};
use crate::size::node_size;
use dr_nested::{Field, Node, Schema};
use json::Scratch;
use serde_json::Value as Json;
use std::alloc::Global;

/// The greatest number of instances of fields in a record.
pub const MOST_INSTANCES: u64 = 1_048_575;

/// The greatest number of bytes of all the texts of a record.
pub const MOST_TEXT_BYTES: u64 = 1 << 30;

/// A law: these are the limits of the definitions.
pub fn record_limits_are_as_defined()
    ensures instances { MOST_INSTANCES ≡ most_instances }
    ensures texts { MOST_TEXT_BYTES ≡ most_text_bytes }
{}

/// The record that a line reads as under a schema, or its first fault. An object's unknown key comes before the faults
/// of its fields, these come in schema order, and a record that is too large comes last. A number that `serde_json`
/// holds as a float, as `1.0`, `-0` or a whole number that fits neither `i64` nor `u64`, is a value of another kind.
pub fn record_of(alloc: Global, schema: &Schema, line: &[u8]) -> Result<Node, RecordFault>
    ensures { Gives node_view record_fault_view (record_of_line (fields_view schema.now.fields.items) line.now) result }
{
    match Json::from_slice(alloc, line) {
        Ok(value) => record_of_value(alloc, &schema.fields, &value),
        Err(error) if error.is_memory() => Err(RecordFault::NoMemory),
        Err(_) => Err(RecordFault::Refused(RecordProblem::NotJson)),
    }
}

/// The record that `record_of` gives, held in the value that was read of the line: neither a node is made nor a text
/// copied. What a line needs lies in the scratch, which is used again.
pub fn line_record<'r>(
    alloc: Global,
    schema: &'r Schema,
    line: &'r [u8],
    scratch: &'r mut Scratch,
) -> Result<LineRecord<'r>, RecordFault>
    ensures record { Gives line_node record_fault_view (record_of_line (fields_view schema.now.fields.items) line.now)
        result }
    ensures fields { IfOk result (λ r. line_fields r ≡ fields_view schema.now.fields.items) }
{
    if let Some(members) = raw_members(alloc, line, scratch)? {
        if is_plain_record(&schema.fields, &members) {
            return Ok(LineRecord {
                schema,
                value: LineValue::Raw(members),
            });
        }
    }
    read_record(alloc, schema, line)
}

/// The record of a line, by reading the line into a value of its own.
fn read_record<'r>(
    alloc: Global,
    schema: &'r Schema,
    line: &[u8],
) -> Result<LineRecord<'r>, RecordFault>
    ensures record { Gives line_node record_fault_view (record_of_line (fields_view schema.now.fields.items) line.now)
        result }
    ensures fields { IfOk result (λ r. line_fields r ≡ fields_view schema.now.fields.items) }
{
    match Json::from_slice(alloc, line) {
        Ok(value) => match check_record(&schema.fields, &value) {
            Ok(()) => Ok(LineRecord {
                schema,
                value: LineValue::Read(value),
            }),
            Err(problem) => Err(RecordFault::Refused(problem)),
        },
        Err(error) if error.is_memory() => Err(RecordFault::NoMemory),
        Err(_) => Err(RecordFault::Refused(RecordProblem::NotJson)),
    }
}

fn record_of_value(alloc: Global, fields: &[Field], value: &Json) -> Result<Node, RecordFault>
    requires { is_group (fields_view fields.now) ≡ true }
    ensures { Gives node_view record_fault_view
        (meant.record_of_value (fields_view fields.now) (view value.now)) result }
{
    match value.as_object() {
        Some(object) => within_limits(node_of(alloc, fields, object)?),
        None => Err(RecordFault::Refused(RecordProblem::WrongKind)),
    }
}

/// The record, unless it is too large.
fn within_limits(node: Node) -> Result<Node, RecordFault>
    ensures { Gives node_view record_fault_view (node_within_limits (node_view node)) result }
{
    let size = node_size(&node);
    if size.instances > MOST_INSTANCES || size.text_bytes > MOST_TEXT_BYTES {
        Err(RecordFault::Refused(RecordProblem::TooLarge))
    } else {
        Ok(node)
    }
}
