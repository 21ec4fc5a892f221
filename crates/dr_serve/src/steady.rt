//! Answering a query from a table that can't be lost.

ghost use Rattle.std.specs.Prelude.{◌≡◌, ◌<◌, ◌≤◌, List, Some, All, IfOk, IsTrue, length, string_bytes};
ghost use Rattle.dr_meaning.specs.Record.{Node};
ghost use Rattle.dr_nested.specs.SchemaView.{schema_view};
ghost use Rattle.dr_outside.specs.Link.{Files};
ghost use Rattle.dr_sub.specs.Texts.{ArePlansOver, ForNested};
ghost use Rattle.dr_sub_meaning.specs.NestedAsk.{nested_answer_text};
ghost use Rattle.dr_table.specs.Views.{table_view};
ghost use Rattle.dr_serve.specs.Asked.{HoldsTableOf};

use crate::{Queried, ServeOptions, query_table};
use dr_memory::NoMemory;
use dr_outside::Link;
use dr_sub::NestedPlan;
use dr_table::Table;
use std::alloc::Global;
use std::sync::Wait;
use std::thread::Threads;

/// What the query of some plans prints of the records of a table, each copy of which is held as a file by links that
/// hold the same and fail no more.
///
/// Errors: want of memory alone. No tablet is left: the cause at a copy would be a failed read, or bytes that are no
/// file.
pub(crate) fn answer_steady<R: Threads + Wait + Sync, L: Link + Send>(
    rt: &R,
    alloc: Global,
    links: &mut [L],
    table: &Table,
    plans: &NestedPlan,
    options: &ServeOptions,
) -> Result<String, NoMemory>
    requires planned { ArePlansOver (schema_view (table.now).schema) plans.now }
    requires workers { (0 < (options.now).workers) × ((options.now).workers ≤ length links.old) }
    requires fan { 1 ≤ (options.now).fan }
    requires least { (options.now).least ≡ 100 }
    requires steady { All (λ l. IsTrue (L.shows l).is_steady) links.old }
    requires held { (files : Files) × All (λ l. (L.shows l).held ≡ Some files) links.old
        × (R : List Node) × HoldsTableOf (table_view table.now) (Some files) R }
    ensures text { (files : Files) (R : List Node) → All (λ l. (L.shows l).held ≡ Some files) links.old
        → HoldsTableOf (table_view table.now) (Some files) R
        → IfOk result (λ t. ForNested (schema_view (table.now).schema) plans.now
        (λ n. string_bytes t ≡ nested_answer_text (schema_view (table.now).schema) n R)) }
{
    match query_table(rt, alloc, links, table, plans, options)? {
        Queried::Text(text) => Ok(text),
        Queried::Most(_, _) => unreachable!(),
        Queried::Left(_) => unreachable!(),
    }
}
