//! The partials of files.

ghost use Rattle.std.specs.Prelude.{◌≡◌, ◌≢◌, ◌≤◌, ℕ, List, true, IfOk, IfErr, Err, []};
ghost use Rattle.dr_formats.specs.Opening.{reader_ranges};
ghost use Rattle.dr_nested.specs.SchemaView.{schema_view};
ghost use Rattle.dr_outside.specs.Link.{Lacks};
ghost use Rattle.dr_outside.specs.Telling.{Tells, Serves, AsksOnly};
ghost use Rattle.dr_file.specs.Asking.{is_for_path, is_request_for};
ghost use Rattle.dr_file.specs.OpenedFiles.{is_read_fault};
ghost use Rattle.dr_file.specs.Leaving.{LeavesLinkCounted};
ghost use Rattle.dr_meaning.specs.Record.{Node};
ghost use Rattle.dr_formats.specs.File.{IsFileOf};
ghost use Rattle.dr_table.specs.Counting.{counted};
ghost use Rattle.dr_scan.specs.FileRecords.{IsFaultOf, triplets_at};
ghost use Rattle.dr_partials.specs.PartialTypes.{is_partial};
ghost use Rattle.dr_partials.specs.PartialBounds.{PartialCanBeOf};
ghost use Rattle.dr_partials.specs.Rewriting.{leaf_query};
ghost use Rattle.dr_plan.specs.Planned.{IsOfSchema, plan_leaves, plan_view};
ghost use Rattle.dr_group.specs.Partials.{IsPartialOf, partial_view};
ghost use Rattle.dr_reading.specs.Truth.{IsTrueOf, most_values};
ghost use Rattle.dr_plan.specs.PlanOf.{ForQuery};
ghost use Rattle.dr_scan.specs.Scans.{StandsForBytes, StandsForRecords, truth_at};

use dr_file::FileFault;
use dr_group::Partial;
use dr_nested::Schema;
use dr_outside::Link;
use dr_plan::Plan;
use dr_scan::scan;
use dr_table::Steps;
use std::alloc::Global;

/// As `scan`.
pub fn scanned<L: Link>(
    alloc: Global,
    plan: &Plan,
    link: &mut L,
    path: &str,
    schema: &Schema,
    steps: &mut Steps,
) -> Result<Partial, FileFault>
    requires planned { IsOfSchema (schema_view schema.now) plan.now }
    ensures partial { ForQuery (schema_view schema.now) plan.now
        (λ q. IfOk result (λ p. is_partial (schema_view schema.now).fields (leaf_query q) (partial_view p) ≡ true)) }
    ensures bounded { IfOk result (λ p. PartialCanBeOf most_values (partial_view p)) }
    ensures of_plan { IfOk result (IsPartialOf (plan_view plan.now)) }
    ensures records { ForQuery (schema_view schema.now) plan.now
        (λ q. IfOk result (λ p. StandsForRecords (schema_view schema.now) q (partial_view p))) }
    ensures stands { (bytes : List ℕ) → Tells (L.shows link.old) path.now bytes
        → ForQuery (schema_view schema.now) plan.now
        (λ q. IfOk result (λ p. StandsForBytes (schema_view schema.now) q bytes (partial_view p))) }
    ensures truth { ForQuery (schema_view schema.now) plan.now
        (λ q. IfOk result (λ p. IsTrueOf (truth_at (schema_view schema.now) q (L.shows link.old).held path.now)
        (partial_view p))) }
    ensures cause { (bytes : List ℕ) → Tells (L.shows link.old) path.now bytes
        → IfErr result (IsFaultOf bytes (schema_view schema.now) (plan_leaves plan.now)) }
    ensures asked { (bytes : List ℕ) → Tells (L.shows link.old) path.now bytes
        → AsksOnly (is_request_for path.now (reader_ranges bytes (plan_leaves plan.now))) (L.shows link.old).asked
        (L.shows link.new).asked }
    ensures asked_absent { Lacks (L.shows link.old).held path.now
        → AsksOnly (is_request_for path.now []) (L.shows link.old).asked (L.shows link.new).asked }
    ensures paths { AsksOnly (is_for_path path.now) (L.shows link.old).asked (L.shows link.new).asked }
    ensures counted { (bytes : List ℕ) (R : List Node) → Tells (L.shows link.old) path.now bytes
        → IsFileOf bytes (schema_view schema.now) (plan_leaves plan.now) R
        → IfOk result (λ p. steps.new ≡ counted steps.old (triplets_at (plan_leaves plan.now) R)) }
    ensures uncounted { IfErr result (λ e. steps.new ≡ steps.old) }
    ensures link { LeavesLinkCounted result (Serves (L.shows link.old) path.now) (L.shows link.old)
        (L.shows link.new) }
    ensures absent { Lacks (L.shows link.old).held path.now → result ≢ Err FileFault.NoMemory
        → is_read_fault result ≡ true }
    ensures never_falls { (L.shows link.old).faults ≤ (L.shows link.new).faults }
{
    scan(alloc, plan, link, path, schema, steps)
}
