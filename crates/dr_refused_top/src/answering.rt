//! Answers on tables.

ghost use Rattle.std.specs.Prelude.{◌<◌, ◌≤◌, IfOk, length, map, take};
ghost use Rattle.dr_nested.specs.SchemaView.{schema_view};
ghost use Rattle.dr_reading.specs.Scan.{tablets_of};
ghost use Rattle.dr_table.specs.Views.{table_view};
ghost use Rattle.dr_sub_meaning.specs.Nested.{query_leaves};
ghost use Rattle.dr_sub.specs.Texts.{ArePlansOver, ForNested};
ghost use Rattle.dr_serve.specs.Links.{LeavesLinks};
ghost use Rattle.dr_serve.specs.Serving.{first_shown};
ghost use Rattle.dr_serve.specs.Answers.{AnsweredAs};

use dr_memory::NoMemory;
use dr_outside::Link;
use dr_serve::{Queried, ServeOptions, query_table};
use dr_sub::NestedPlan;
use dr_table::Table;
use std::alloc::Global;
use std::sync::Wait;
use std::thread::Threads;

/// As `query_table`.
pub fn answer_of<R: Threads + Wait + Sync, L: Link + Send>(
    rt: &R,
    alloc: Global,
    links: &mut [L],
    table: &Table,
    plans: &NestedPlan,
    options: &ServeOptions,
) -> Result<Queried, NoMemory>
    requires planned { ArePlansOver (schema_view (table.now).schema) plans.now }
    requires workers { (0 < (options.now).workers) × ((options.now).workers ≤ length links.old) }
    requires fan { 1 ≤ (options.now).fan }
    requires least { (0 < (options.now).least) × ((options.now).least ≤ 100) }
    ensures answers { ForNested (schema_view (table.now).schema) plans.now
        (λ n. IfOk result (AnsweredAs (table_view table.now) n (options.now).least
        (map L.shows (take (options.now).workers links.old)) (first_shown (map L.shows links.new)))) }
    ensures links { ForNested (schema_view (table.now).schema) plans.now
        (λ n. LeavesLinks (query_leaves (table_view table.now).schema.fields n) (tablets_of (table_view table.now))
        L.shows (options.now).workers links.old links.new) }
{
    query_table(rt, alloc, links, table, plans, options)
}
