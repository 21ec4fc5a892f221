//! Records of lines.

ghost use Rattle.dr_meaning.specs.JsonRecord.{record_of_line};
ghost use Rattle.dr_nested.specs.Views.{fields_view, node_view};
ghost use Rattle.dr_nested.specs.Faults.{Gives};
ghost use Rattle.dr_json.specs.Faults.{record_fault_view};

use dr_json::{RecordFault, record_of};
use dr_nested::{Node, Schema};
use std::alloc::Global;

/// As `record_of`.
pub fn node_of_line(alloc: Global, schema: &Schema, line: &[u8]) -> Result<Node, RecordFault>
    ensures { Gives node_view record_fault_view (record_of_line (fields_view schema.now.fields.items) line.now) result }
{
    record_of(alloc, schema, line)
}
