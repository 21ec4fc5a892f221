//! The plans of a query's text.

ghost use Rattle.std.specs.Prelude.{IfOk, IfErr};
ghost use Rattle.dr_nested.specs.SchemaView.{schema_view};
ghost use Rattle.dr_sub_meaning.specs.NestedAsk as meant;
ghost use Rattle.dr_sub.specs.Texts.{ArePlansMeant, IsRefusedAs};

use crate::binding::bind_nested;
use crate::nested_plan::NestedPlan;
use crate::refusal::TextFault;
use dr_nested::Schema;
use dr_sql::parse_nested;
use std::alloc::Global;

/// The plans of a query's text over a schema, with those of the queries in its FROM.
///
/// Errors: the first fault of the text, or else the first of binding it to the schema, with its byte place in the text;
/// want of memory.
pub fn read_nested(alloc: Global, schema: &Schema, text: &str) -> Result<NestedPlan, TextFault>
    ensures plans { IfOk result (ArePlansMeant (schema_view schema.now)
        (meant.read_nested (schema_view schema.now) text.now)) }
    ensures refused { IfErr result (IsRefusedAs (meant.read_nested (schema_view schema.now) text.now)) }
{
    let query = parse_nested(alloc, text)?;
    let plans = bind_nested(alloc, schema, &query)?;
    Ok(plans)
}
