//! The text of a query's plans, with those of the queries in its FROM.

ghost use Rattle.std.specs.Prelude.{◌≡◌, ◌++◌, codes, string_bytes, IfOk, Ok};
ghost use Rattle.dr_nested.specs.SchemaView.{schema_view};
ghost use Rattle.dr_plan.specs.Planned.{plan_view, written_query};
ghost use Rattle.dr_rewrite.specs.Nested.{AreSomePlans, ForPlans, leaf_of};
ghost use Rattle.dr_sub.specs.Texts.{ArePlansOver, ForNested};
ghost use Rattle.dr_sub_meaning.specs.NestedText as meant;

use crate::arranging::{push_limit, push_order};
use crate::lines::{push_inner_line, push_leaf_line, push_root_line};
use crate::paths::Names;
use dr_memory::NoMemory;
use dr_nested::Schema;
use dr_plan::Plan;
use dr_sub::{NestedPlan, schema_of_result};
use std::alloc::Global;

/// The leaf query of a plan over a table that has a schema, with the condition as it was written.
fn leaf_query(alloc: Global, schema: &Schema, table: &str, plan: &Plan) -> Result<String, NoMemory>
    ensures { IfOk result (λ s. string_bytes s
        ≡ leaf_of (schema_view schema.now).fields table.now (written_query (plan_view plan.now))) }
{
    let names = Names {
        schema,
        leaves: &plan.leaves,
    };
    let mut text = String::new(alloc);
    push_leaf_line(alloc, table, plan, &names, &mut text)?;
    Ok(text)
}

/// The leaf query in parentheses: what it gives is a table.
fn result_table(
    alloc: Global,
    schema: &Schema,
    table: &str,
    plan: &Plan,
) -> Result<String, NoMemory>
    ensures { IfOk result (λ s. string_bytes s ≡ codes "("
        ++ (leaf_of (schema_view schema.now).fields table.now (written_query (plan_view plan.now)) ++ codes ")")) }
{
    let query = leaf_query(alloc, schema, table, plan)?;
    let mut text = String::new(alloc);
    text.push_str("(")?;
    text.push_str(query.as_str())?;
    text.push_str(")")?;
    Ok(text)
}

/// The leaf query of the outermost of some plans, the first of which is over a table that has a schema. Each other one
/// is over what the one before it gives.
fn leaf_query_through(
    alloc: Global,
    schema: &Schema,
    table: &str,
    inner: &[Plan],
    outer: &Plan,
) -> Result<String, NoMemory>
    requires planned { AreSomePlans (schema_view schema.now) inner.now outer.now }
    ensures { IfOk result (λ s. ForPlans (schema_view schema.now) inner.now outer.now (λ n. string_bytes s
        ≡ meant.from_text (schema_view schema.now).fields table.now n.inner n.outer)) }
{
    match inner {
        [] => leaf_query(alloc, schema, table, outer),
        [first, others @ ..] => {
            let result = result_table(alloc, schema, table, first)?;
            let fields = schema_of_result(alloc, first)?;
            leaf_query_through(alloc, &fields, result.as_str(), others, outer)
        }
    }
}

/// Three lines that tell the queries of leaf servers, of intermediate servers and of the root, by which the plans of a
/// query over a schema are run, with each condition as it was written. What leaf servers run has the queries below it
/// in its FROM; the root puts the result in order and cuts it.
///
/// Errors: want of memory alone.
pub fn nested_text(alloc: Global, schema: &Schema, plans: &NestedPlan) -> Result<String, NoMemory>
    requires planned { ArePlansOver (schema_view schema.now) plans.now }
    ensures text { IfOk result (λ s. ForNested (schema_view schema.now) plans.now (λ n. string_bytes s
        ≡ meant.nested_text (schema_view schema.now).fields n)) }
{
    let leaf = leaf_query_through(alloc, schema, "tablet", &plans.inner, &plans.outer)?;
    let mut text = String::new(alloc);
    text.push_str("leaf: ")?;
    text.push_str(leaf.as_str())?;
    text.push_str("\ninner: ")?;
    push_inner_line(alloc, &plans.outer.selection, &mut text)?;
    text.push_str("\nroot: ")?;
    push_root_line(alloc, &plans.outer.selection, &mut text)?;
    push_order(&plans.order, &plans.outer.selection, &mut text)?;
    push_limit(plans.limit, &mut text)?;
    text.push_str("\n")?;
    Ok(text)
}
