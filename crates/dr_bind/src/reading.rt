//! Reading a query's text.

ghost use Rattle.std.specs.Prelude.{IfOk, IfErr};
ghost use Rattle.dr_meaning.specs.Ask as meant;
ghost use Rattle.dr_nested.specs.SchemaView.{schema_view};
ghost use Rattle.dr_bind.specs.Faults.{IsRefusedAs};
ghost use Rattle.dr_bind.specs.Plans.{IsPlanMeant};

use crate::binding::bind;
use crate::fault::QueryFault;
use dr_nested::Schema;
use dr_plan::Plan;
use dr_sql::parse;
use std::alloc::Global;

/// The plan of a query's text over a schema.
///
/// Errors: the first fault of the text, or else the first of binding it to the schema, with its byte place in the text;
/// want of memory.
pub fn read_query(alloc: Global, schema: &Schema, text: &str) -> Result<Plan, QueryFault>
    ensures plan { IfOk result (IsPlanMeant (schema_view schema.now)
        (meant.read_query (schema_view schema.now) text.now)) }
    ensures refused { IfErr result (IsRefusedAs (meant.read_query (schema_view schema.now) text.now)) }
{
    let query = parse(alloc, text)?;
    let plan = bind(alloc, schema, &query)?;
    Ok(plan)
}
