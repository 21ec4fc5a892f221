//! Answering a query from a table.

ghost use Rattle.std.specs.Prelude.{◌<◌, ◌≤◌, IfOk, length, map, take, string_bytes};
ghost use Rattle.dr_nested.specs.SchemaView.{schema_view};
ghost use Rattle.dr_group.specs.Partials.{partial_view};
ghost use Rattle.dr_reading.specs.Scan.{tablets_of};
ghost use Rattle.dr_table.specs.Views.{table_view};
ghost use Rattle.dr_sub_meaning.specs.Nested.{query_leaves};
ghost use Rattle.dr_sub.specs.Texts.{ArePlansOver, ForNested};
ghost use Rattle.dr_stages.specs.Results.{MayBeFinished, IsOfInnermost};
ghost use Rattle.dr_serve.specs.Links.{LeavesLinks};
ghost use Rattle.dr_serve.specs.Serving.{first_shown};
ghost use Rattle.dr_serve.specs.Answers.{AnsweredAs, PrintsFinished};

use crate::options::ServeOptions;
use crate::queried::Queried;
use crate::{Outcome, Served, serve};
use dr_group::Partial;
use dr_memory::NoMemory;
use dr_nested::Schema;
use dr_outside::Link;
use dr_print::result_text;
use dr_stages::{innermost, result_of};
use dr_sub::NestedPlan;
use dr_table::Table;
use dr_tree::of_fan;
use std::alloc::Global;
use std::sync::Wait;
use std::thread::Threads;

/// What the query of some plans prints of the records of a table, served by so many workers, the first so many of the
/// links with one to a worker. Of each tablet the leaves of the innermost query alone are read, from a copy that gives
/// records, and become a partial answer to that query; a serving tree gathers the partials, and of what its root has the
/// queries over it make the result, which depends neither on the tree nor on the workers. Where some tablets are left,
/// of which no copy gives records, the result is that of the others, if these are so many hundredths of all; else there
/// is none.
///
/// Errors: want of memory, or of room: the texts of a result have less than 4 GiB together, and the number of groups is
/// bounded.
pub fn query_table<R: Threads + Wait + Sync, L: Link + Send>(
    rt: &R,
    alloc: Global,
    links: &mut [L],
    table: &Table,
    plans: &NestedPlan,
    options: &ServeOptions,
) -> Result<Queried, NoMemory>
    requires planned { ArePlansOver (schema_view (table.now).schema) plans.now }
    requires workers { (0 < (options.now).workers) × ((options.now).workers ≤ length links.old) }
    requires fan { 1 ≤ (options.now).fan }
    requires least { (0 < (options.now).least) × ((options.now).least ≤ 100) }
    ensures answers { ForNested (schema_view (table.now).schema) plans.now
        (λ n. IfOk result (AnsweredAs (table_view table.now) n (options.now).least
        (map L.shows (take (options.now).workers links.old)) (first_shown (map L.shows links.new)))) }
    ensures links { ForNested (schema_view (table.now).schema) plans.now
        (λ n. LeavesLinks (query_leaves (table_view table.now).schema.fields n) (tablets_of (table_view table.now))
        L.shows (options.now).workers links.old links.new) }
{
    let tree = of_fan(alloc, table.tablets, options.fan)?;
    let served = serve(
        rt,
        alloc,
        innermost(plans),
        table,
        &tree,
        links,
        options.workers,
        options.lag,
        options.least,
    )?;
    let Served {
        outcome,
        history: _,
    } = served;
    let schema = &table.schema;
    match outcome {
        Outcome::Finished(partial) => Ok(Queried::Text(text_of(alloc, schema, plans, partial)?)),
        Outcome::Most(partial, left) => {
            Ok(Queried::Most(text_of(alloc, schema, plans, partial)?, left))
        }
        Outcome::Unfinished(left) => Ok(Queried::Left(left)),
    }
}

// What the query of some plans prints, of the innermost query's partial of all records that are counted.
fn text_of(
    alloc: Global,
    schema: &Schema,
    plans: &NestedPlan,
    partial: Partial,
) -> Result<String, NoMemory>
    requires stands { MayBeFinished (schema_view schema.now) plans.now (partial_view partial) }
    requires of_plan { IsOfInnermost plans.now partial }
    ensures { IfOk result (λ t. PrintsFinished (schema_view schema.now) plans.now (partial_view partial)
        (string_bytes t)) }
{
    let rows = result_of(alloc, schema, plans, partial)?;
    result_text(alloc, &rows)
}
