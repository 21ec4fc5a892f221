//! A plan's partial of the records of an opened file, by the columns of its leaves side by side.

ghost use Rattle.std.specs.Prelude.{◌≡◌, [], ℕ, List, length, map, Some, false, IfOk, IfErr};
ghost use Rattle.std.specs.List.{flat_map};
ghost use Rattle.dr_formats.specs.File.{Footer, footer_of, leaves_read};
ghost use Rattle.dr_formats.specs.Opening.{leaf_ranges};
ghost use Rattle.dr_nested.specs.SchemaView.{schema_view};
ghost use Rattle.dr_outside.specs.Telling.{AsksOnly};
ghost use Rattle.dr_chunk.specs.Ranges.{is_read_inside};
ghost use Rattle.dr_agreement.specs.AtHand as hand;
ghost use Rattle.dr_columns.specs.Taken.{HasTaken};
ghost use Rattle.dr_file.specs.Asking.{is_for_path};
ghost use Rattle.dr_file.specs.Leaving.{LeavesLinkCounted, ServesOpened};
ghost use Rattle.dr_file.specs.OpenedFiles.{leaf_count, path_of};
ghost use Rattle.dr_plan.specs.Planned.{IsOfSchema, plan_leaves};
ghost use Rattle.dr_scan.specs.FileRecords.{IsFaultOf};
ghost use Rattle.dr_scan.specs.Chunked.{batch_forms};
ghost use Rattle.dr_scan.specs.Streamed.{IsTold, IsOfOpened};

use crate::fault::file_fault;
use crate::handing::rest_of;
use crate::leaf_stream::LeafStream;
use crate::leaf_streams::leaf_streams;
use crate::opened::Made;
use crate::streaming::partial_of_rest;
use crate::take_chunks::{End, take_chunks};
use dr_agreement::AtHand;
use dr_columns::{Chunks, ColumnScan};
use dr_file::{FileFault, Opened};
use dr_memory::NoMemory;
use dr_nested::Schema;
use dr_outside::Link;
use dr_plan::Plan;
use dr_table::Steps;
use std::alloc::Global;

/// What is at hand of each leaf before anything came of its stream.
///
/// Errors: want of memory alone.
fn nothing_at_hand(alloc: Global, streams: &[LeafStream<'_>]) -> Result<Vec<AtHand>, NoMemory>
    ensures forms { IfOk result (λ v. map hand.form_of v.items ≡ batch_forms streams.now) }
    ensures none { IfOk result (λ v. (i : ℕ) → hand.here_of v.items i ≡ []) }
    ensures ends { IfOk result (λ v. (i : ℕ) → hand.ends_of v.items i ≡ false) }
{
    let mut leaves = Vec::with_capacity(alloc, streams.len())?;
    'streams: for stream in streams {
        let batch = &stream.batch;
        leaves.push(AtHand::new(alloc, batch.kind(), batch.greatest_definition()))?;
    }
    Ok(leaves)
}

/// A plan's partial of the records of an opened file, by a scan over the columns of its leaves that has taken nothing.
///
/// Errors: the link failed, with its counts of faults before and after this call; `BadData` where the leaves' chunks
/// spell no columns of any records; want of memory, or of room for the partial.
pub(crate) fn partial_of_chunks<L: Link>(
    alloc: Global,
    schema: &Schema,
    plan: &Plan,
    link: &mut L,
    opened: &Opened,
    scan: ColumnScan<'_>,
) -> Result<Made, FileFault>
    requires planned { IsOfSchema (schema_view schema.now) plan.now }
    requires count { leaf_count opened.now ≡ length (plan.now).leaves.items }
    requires scan { HasTaken (schema_view schema.now) plan.now [] scan }
    ensures partial { IfOk result (IsOfOpened (schema_view schema.now) plan.now (L.shows link.old).held opened.now) }
    ensures cause { (bytes : List ℕ) → IsTold (L.shows link.old).held opened.now (plan_leaves plan.now) bytes
        → IfErr result (IsFaultOf bytes (schema_view schema.now) (plan_leaves plan.now)) }
    ensures asked { (bytes : List ℕ) (f : Footer)
        → IsTold (L.shows link.old).held opened.now (plan_leaves plan.now) bytes → footer_of bytes ≡ Some f
        → AsksOnly (is_read_inside (path_of opened.now)
        (flat_map (leaf_ranges f) (leaves_read f (plan_leaves plan.now)))) (L.shows link.old).asked
        (L.shows link.new).asked }
    ensures paths { AsksOnly (is_for_path (path_of opened.now)) (L.shows link.old).asked (L.shows link.new).asked }
    ensures link { LeavesLinkCounted result (ServesOpened (L.shows link.old) opened.now) (L.shows link.old)
        (L.shows link.new) }
{
    let mut streams = leaf_streams(alloc, opened, plan.leaves.len())?;
    let leaves = nothing_at_hand(alloc, &streams)?;
    let mut chunks = Chunks::start(alloc, plan, leaves, opened.rows(), scan)?;
    let mut read = Steps::new();
    match take_chunks(alloc, link, &mut streams, &mut chunks, &mut read)? {
        End::All => Ok(Made {
            partial: chunks.close(),
            triplets: read.taken(),
        }),
        // The walk goes on, which holds no record.
        End::Long => {
            let rest = rest_of(alloc, streams, chunks, read)?;
            partial_of_rest(alloc, schema, plan, link, opened, rest)
        }
    }
}
