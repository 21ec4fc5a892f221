//! The schema of the records that a query gives.

ghost use Rattle.std.specs.Prelude.{◌≡◌, IfOk, Ok};
ghost use Rattle.dr_meaning.specs.Query as query;
ghost use Rattle.dr_meaning.specs.Schema as tree;
ghost use Rattle.dr_nested.specs.SchemaView.{schema_view};
ghost use Rattle.dr_sub_meaning.specs.ResultFaults as meant;
ghost use Rattle.dr_sub.specs.ResultSchemas.{IsBoundTo, GivesSchema};

use crate::fault::{ResultFault, SubFault};
use crate::fields::object_fields;
use crate::names::first_fault;
use dr_memory::NoMemory;
use dr_nested::Schema;
use dr_plan::{Plan, Selection};
use std::alloc::Global;

/// The name of a result's message.
const RESULT_MESSAGE: &str = "Result";

/// The schema of the records that a query gives, which is bound to some schema: of each object its items in SELECT
/// order as optional leaves, then its lists as repeated groups, where a dot of a name becomes `_`.
///
/// Errors: it is an aggregate query; the number of the first item that has a name that no field may have there; want
/// of memory.
pub fn result_schema(alloc: Global, plan: &Plan) -> Result<Schema, ResultFault>
    requires bound { (s : tree.Schema) × (q : query.Query) × IsBoundTo s q plan.now }
    ensures schema { (s : tree.Schema) (q : query.Query) → IsBoundTo s q plan.now
        → GivesSchema (meant.result_schema s.fields q) result }
{
    match &plan.selection {
        Selection::Groups(_, _, _) => Err(ResultFault::Refused(SubFault::NotRecords)),
        Selection::Objects(items, object) => {
            if let Some(number) = first_fault(alloc, &plan.leaves, items, &object.lists)? {
                return Err(ResultFault::Refused(SubFault::ResultName(number)));
            }
            let name = String::from_str(alloc, RESULT_MESSAGE)?;
            let fields = object_fields(alloc, items, object)?;
            Ok(Schema { name, fields })
        }
    }
}

/// The schema of the records that a record query gives, which has one.
///
/// Errors: want of memory alone.
pub fn schema_of_result(alloc: Global, plan: &Plan) -> Result<Schema, NoMemory>
    requires bound { (s : tree.Schema) × (q : query.Query) × IsBoundTo s q plan.now
        × (t : tree.Schema) × (meant.result_schema s.fields q ≡ Ok t) }
    ensures schema { IfOk result (λ made. (s : tree.Schema) (q : query.Query) (t : tree.Schema)
        → IsBoundTo s q plan.now → meant.result_schema s.fields q ≡ Ok t → schema_view made ≡ t) }
{
    match result_schema(alloc, plan) {
        Ok(schema) => Ok(schema),
        Err(_) => Err(NoMemory),
    }
}
