//! A plan's partial of the records of an opened file.

ghost use Rattle.std.specs.Prelude.{◌≡◌, ℕ, List, length, Some, IfOk, IfErr};
ghost use Rattle.std.specs.List.{flat_map};
ghost use Rattle.dr_formats.specs.File.{Footer, footer_of, leaves_read};
ghost use Rattle.dr_formats.specs.Opening.{leaf_ranges};
ghost use Rattle.dr_nested.specs.SchemaView.{schema_view};
ghost use Rattle.dr_outside.specs.Telling.{AsksOnly};
ghost use Rattle.dr_chunk.specs.Ranges.{is_read_inside};
ghost use Rattle.dr_file.specs.Asking.{is_for_path};
ghost use Rattle.dr_file.specs.Leaving.{LeavesLinkCounted, ServesOpened};
ghost use Rattle.dr_file.specs.OpenedFiles.{leaf_count, path_of};
ghost use Rattle.dr_plan.specs.Planned.{IsOfSchema, plan_leaves};
ghost use Rattle.dr_scan.specs.FileRecords.{IsFaultOf};
ghost use Rattle.dr_scan.specs.Streamed.{IsTold, IsOfOpened};

use crate::chunks::partial_of_chunks;
use crate::rows::partial_of_rows;
use crate::streaming::partial_of_streams;
use dr_columns::ColumnScan;
use dr_file::{FileFault, Opened};
use dr_group::Partial;
use dr_nested::Schema;
use dr_outside::Link;
use dr_plan::Plan;
use std::alloc::Global;

/// What was made of the records of a file.
#[derive(Drop)]
pub(crate) struct Made {
    pub(crate) partial: Partial,
    /// How many triplets of the leaves there were.
    pub(crate) triplets: u64,
}

/// A plan's partial of the records of an opened file. Of records of which no leaf is read it is made without a look at
/// them, where that can be; where a plan gives groups of all records, by their columns side by side; else by a walk.
///
/// Errors: the link failed, with its counts of faults before and after this call; `BadData` where the leaves' chunks
/// spell no columns of any records; want of memory, or of room for the partial.
pub(crate) fn partial_of_opened<L: Link>(
    alloc: Global,
    schema: &Schema,
    plan: &Plan,
    link: &mut L,
    opened: &Opened,
) -> Result<Made, FileFault>
    requires planned { IsOfSchema (schema_view schema.now) plan.now }
    requires count { leaf_count opened.now ≡ length (plan.now).leaves.items }
    ensures partial { IfOk result (IsOfOpened (schema_view schema.now) plan.now (L.shows link.old).held opened.now) }
    ensures cause { (bytes : List ℕ) → IsTold (L.shows link.old).held opened.now (plan_leaves plan.now) bytes
        → IfErr result (IsFaultOf bytes (schema_view schema.now) (plan_leaves plan.now)) }
    ensures asked { (bytes : List ℕ) (f : Footer)
        → IsTold (L.shows link.old).held opened.now (plan_leaves plan.now) bytes → footer_of bytes ≡ Some f
        → AsksOnly (is_read_inside (path_of opened.now)
        (flat_map (leaf_ranges f) (leaves_read f (plan_leaves plan.now)))) (L.shows link.old).asked
        (L.shows link.new).asked }
    ensures paths { AsksOnly (is_for_path (path_of opened.now)) (L.shows link.old).asked (L.shows link.new).asked }
    ensures link { LeavesLinkCounted result (ServesOpened (L.shows link.old) opened.now) (L.shows link.old)
        (L.shows link.new) }
{
    match partial_of_rows(alloc, plan, opened.rows())? {
        Some(partial) => Ok(Made {
            partial,
            triplets: 0,
        }),
        None => match ColumnScan::start(alloc, plan)? {
            Some(scan) => partial_of_chunks(alloc, schema, plan, link, opened, scan),
            None => partial_of_streams(alloc, schema, plan, link, opened),
        },
    }
}
