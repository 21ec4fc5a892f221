//! Binding a query to a schema.

ghost use Rattle.std.specs.Prelude.{◌≡◌, IfOk};
ghost use Rattle.dr_meaning.specs.Binding as meant;
ghost use Rattle.dr_nested.specs.SchemaView.{schema_view};
ghost use Rattle.dr_planning.specs.NamedLevels.{joined, levels_view};
ghost use Rattle.dr_meaning.specs.Query.{levels_of};
ghost use Rattle.dr_plan.specs.Planned.{plan_view, planned};
ghost use Rattle.dr_sql.specs.Views as syntax;
ghost use Rattle.dr_resolve.specs.Faults.{earlier, first_view};
ghost use Rattle.dr_bind.specs.Binds.{BindsTo, PartsOf};

use dr_memory::NoMemory;
use dr_nested::Schema;
use dr_paths::used_leaves;
use dr_plan::Plan;
use dr_planning::{Listed, levels_of, note_rules, plan_of, used_paths};
use dr_resolve::{BindFault, BindProblem, Binder, BoundParts, FirstFault};
use dr_sql::{Query, Table};
use std::alloc::Global;

/// Notes a table that isn't the schema's message.
fn note_table(schema: &Schema, table: Table<'_>, first: &mut FirstFault)
    ensures { first_view first.new ≡ earlier (first_view first.old)
        (meant.first_fault (meant.table_faults (schema_view schema.now).name (syntax.table_view table.entry))) }
{
    if table.name != schema.name.as_str() {
        first.note(table.place, BindProblem::UnknownTable);
    }
}

/// The plan of a query without faults, whose parts have been bound over no leaves: they are bound once more, over the
/// leaves that they use.
fn plan_without_faults(
    alloc: Global,
    schema: &Schema,
    query: &Query<'_>,
    levels: &[Listed],
    parts: &BoundParts,
) -> Result<Plan, NoMemory>
    requires levels { levels_view levels.now ≡ joined (levels_of (schema_view schema.now).fields) }
    requires parts { PartsOf (schema_view schema.now) (syntax.query_view query.now) parts.now }
    ensures { IfOk result (λ p. plan_view p ≡ planned (schema_view schema.now).fields
        (meant.query_of (meant.bind_parts (schema_view schema.now).fields (syntax.query_view query.now)))) }
{
    let used = used_paths(alloc, parts)?;
    let leaves = used_leaves(alloc, schema, &used)?;
    if leaves.len() > u32::MAX as usize {
        return Err(NoMemory);
    }
    let binder = Binder {
        alloc,
        schema,
        leaves: &leaves,
    };
    let parts = binder.parts(query, &mut FirstFault::none())?;
    plan_of(alloc, levels, leaves, parts)
}

/// The plan of a query over a schema: its names become leaves of the schema, and its expressions get types.
///
/// Errors: the first fault of the query, by its byte place in the query's text, and at one place by the order of
/// [`BindProblem`]; want of memory.
pub fn bind(alloc: Global, schema: &Schema, query: &Query<'_>) -> Result<Plan, BindFault>
    ensures { BindsTo (schema_view schema.now) (syntax.query_view query.now) result }
{
    let mut first = FirstFault::none();
    note_table(schema, query.table, &mut first);
    let binder = Binder {
        alloc,
        schema,
        leaves: &[],
    };
    let parts = binder.parts(query, &mut first)?;
    let parts = Box::new(alloc, parts)?;
    let levels = levels_of(alloc, schema)?;
    note_rules(&levels, &parts, &mut first);
    match first.fault {
        Some(fault) => Err(BindFault::Refused(fault)),
        None => Ok(plan_without_faults(alloc, schema, query, &levels, &parts)?),
    }
}
