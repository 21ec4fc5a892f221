//! Scanning a tablet of a table.

ghost use Rattle.std.specs.Prelude.{◌≡◌, ◌≤◌, [], ◌∷◌, true, IfOk, IsTrue};
ghost use Rattle.dr_nested.specs.SchemaView.{schema_view};
ghost use Rattle.dr_table.specs.Views.{table_view};
ghost use Rattle.dr_partials.specs.PartialTypes.{is_partial};
ghost use Rattle.dr_partials.specs.PartialBounds.{PartialCanBeOf};
ghost use Rattle.dr_partials.specs.Rewriting.{leaf_query};
ghost use Rattle.dr_plan.specs.Planned.{IsOfSchema, plan_leaves, plan_view};
ghost use Rattle.dr_group.specs.Partials.{IsPartialOf, partial_view};
ghost use Rattle.dr_reading.specs.Truth.{most_values};
ghost use Rattle.dr_reading.specs.Scan.{copies_from};
ghost use Rattle.dr_plan.specs.PlanOf.{ForQuery};
ghost use Rattle.dr_scan.specs.Asked.{AsksForTablets};
ghost use Rattle.dr_scan.specs.Tablets.{IsScannedAs, WhereScanned};

use crate::scanning::scan;
use dr_file::FileFault;
use dr_group::Partial;
use dr_memory::NoMemory;
use dr_outside::Link;
use dr_plan::Plan;
use dr_table::{Steps, Table, Tried, path_of, placement};
use std::alloc::Global;

/// What is scanned of a tablet: a partial of its records, or the copies that were tried, which is each of them.
#[derive(Drop)]
pub enum Scanned {
    Given(Partial),
    Left(Vec<Tried>),
}

/// A plan's partial of the records of a tablet of a table, from the first of its copies that gives one; else why each
/// of them gives none. The link is asked for no file but those of the tablet's copies, and, where it tells what it
/// holds, for no bytes of them but what the plan's leaves take.
///
/// Errors: want of memory, or of room for the partial.
pub fn scan_tablet<L: Link>(
    alloc: Global,
    link: &mut L,
    table: &Table,
    plan: &Plan,
    tablet: u32,
) -> Result<Scanned, NoMemory>
    requires planned { IsOfSchema (schema_view (table.now).schema) plan.now }
    ensures read { ForQuery (schema_view (table.now).schema) plan.now
        (λ q. IfOk result (IsScannedAs (schema_view (table.now).schema) q (L.shows link.old) (L.shows link.new)
        (copies_from (table_view table.now).leaves tablet 0 (table.now).copies))) }
    ensures partial { ForQuery (schema_view (table.now).schema) plan.now
        (λ q. IfOk result (WhereScanned (λ p. is_partial (schema_view (table.now).schema).fields (leaf_query q)
        (partial_view p) ≡ true))) }
    ensures bounded { IfOk result (WhereScanned (λ p. PartialCanBeOf most_values (partial_view p))) }
    ensures of_plan { IfOk result (WhereScanned (IsPartialOf (plan_view plan.now))) }
    ensures asks { AsksForTablets (plan_leaves plan.now)
        (copies_from (table_view table.now).leaves tablet 0 (table.now).copies ∷ []) (L.shows link.old)
        (L.shows link.new) }
    ensures same { (L.shows link.new).held ≡ (L.shows link.old).held }
    ensures never_falls { (L.shows link.old).faults ≤ (L.shows link.new).faults }
    ensures stays_steady { IsTrue (L.shows link.old).is_steady → IsTrue (L.shows link.new).is_steady }
{
    let mut tried = Vec::new(alloc);
    'copies: for copy in 0..table.copies {
        let directory = placement(table, tablet, copy);
        let path = path_of(alloc, table, directory, tablet)?;
        let mut steps = Steps::new();
        match scan(alloc, plan, link, path.as_str(), &table.schema, &mut steps) {
            Ok(partial) => return Ok(Scanned::Given(partial)),
            Err(FileFault::NoMemory) => return Err(NoMemory),
            Err(FileFault::Why(cause)) => tried.push(Tried { directory, cause })?,
        }
    }
    Ok(Scanned::Left(tried))
}
