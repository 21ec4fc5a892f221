//! What queries mean on records.

ghost use Rattle.std.specs.Prelude.{◌≡◌, map};
ghost use Rattle.std.specs.List.{list_all};
ghost use Rattle.dr_meaning.specs.Record.{is_record as is_record_of};
ghost use Rattle.dr_nested.specs.SchemaView.{schema_view};
ghost use Rattle.dr_nested.specs.Views.{node_view};
ghost use Rattle.dr_plan.specs.Planned.{IsOfSchema};

use dr_json::record_of;
use dr_mean::mean;
use dr_nested::{Node, Schema, is_record};
use dr_plan::Plan;
use dr_print::result_text;
use std::alloc::Global;
use std::test::Fail;

/// The records of lines.
pub fn records_of(alloc: Global, schema: &Schema, lines: &[String]) -> Result<Vec<Node>, Fail> {
    let mut records = Vec::new(alloc);
    for line in lines {
        let Ok(record) = record_of(alloc, schema, line.as_bytes()) else {
            return Err("no record".into());
        };
        records.push(record)?;
    }
    Ok(records)
}

/// Whether each of some nodes is a record.
fn are_records(schema: &Schema, nodes: &[Node]) -> bool
    ensures { result ≡ list_all (is_record_of (schema_view schema.now).fields) (map node_view nodes.now) }
{
    'nodes: for node in nodes {
        if !is_record(schema, node) {
            return false;
        }
    }
    true
}

/// What a plan prints of records.
pub fn meant_text(
    alloc: Global,
    schema: &Schema,
    plan: &Plan,
    records: &[Node],
) -> Result<String, Fail>
    requires planned { IsOfSchema (schema_view schema.now) plan.now }
{
    if !are_records(schema, records) {
        return Err("no records".into());
    }
    let rows = mean(alloc, plan, records)?;
    Ok(result_text(alloc, &rows)?)
}
