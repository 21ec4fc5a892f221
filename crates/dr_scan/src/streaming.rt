//! A plan's partial of the records of an opened file, of which a batch of each leaf is held at a time.

ghost use Rattle.std.specs.Prelude.{◌≡◌, ℕ, List, length, Some, IfOk, IfErr};
ghost use Rattle.std.specs.List.{flat_map};
ghost use Rattle.dr_meaning.specs.Schema.{Schema as MeantSchema};
ghost use Rattle.dr_meaning.specs.Walk.{Move as MeantMove};
ghost use Rattle.dr_formats.specs.File.{Footer, footer_of, leaves_read};
ghost use Rattle.dr_formats.specs.Opening.{leaf_ranges};
ghost use Rattle.dr_nested.specs.SchemaView.{schema_view};
ghost use Rattle.dr_outside.specs.Telling.{AsksOnly};
ghost use Rattle.dr_chunk.specs.Ranges.{is_read_inside};
ghost use Rattle.dr_moves.specs.Leading.{Left};
ghost use Rattle.dr_file.specs.Asking.{is_for_path};
ghost use Rattle.dr_file.specs.Leaving.{LeavesLinkCounted, ServesOpened};
ghost use Rattle.dr_file.specs.OpenedFiles.{leaf_count, path_of};
ghost use Rattle.dr_plan.specs.Planned.{IsOfSchema, plan_leaves};
ghost use Rattle.dr_plan.specs.declared.plan.Plan.{Plan as MeantPlan};
ghost use Rattle.dr_scan.specs.FileRecords.{IsFaultOf};
ghost use Rattle.dr_within.specs.Rows.{HasLast};
ghost use Rattle.dr_scan.specs.Makings.{Makes};
ghost use Rattle.dr_scan.specs.Rests.{IsRestOf};
ghost use Rattle.dr_scan.specs.Streamed.{left_at, ends_of as meant_ends, IsTold, IsStreamed, MayGoOn, EndsAtHand, IsOfOpened};

use crate::fault::file_fault;
use crate::leaf_stream::LeafStream;
use crate::leaf_streams::{clear_at, counts_of, ends_of, read_at, rests_of, set_count};
use crate::making::Making;
use crate::opened::Made;
use crate::paths::steps_of;
use crate::rest::{Rest, join_made};
use crate::stretch::{Stretch, make_stretch};
use dr_file::{FileFault, Opened};
use dr_nested::Schema;
use dr_outside::Link;
use dr_plan::Plan;
use dr_walk::{AssembleFault, LevelWalk};
use dr_within::LastRead;
use std::alloc::Global;
use std::mem;

/// One stretch over what is at hand, where so many triplets of each batch are left: what was read last of each leaf is
/// lent to it, and kept again at its end. Answers how many are left then.
///
/// Errors: `BadData` where no records have columns that begin so; want of memory, or of room for what is made.
fn make_at_hand(
    alloc: Global,
    walk: &mut LevelWalk,
    streams: &[LeafStream<'_>],
    left: &[usize],
    making: &mut Making<'_>,
    before: &LastRead,
    behind: &mut LastRead,
) -> Result<(Stretch, Vec<usize>), AssembleFault>
    requires { MayGoOn (meant_ends streams.now) walk.old (left_at streams.now left.now) making.old before.now }
    ensures ends { (s : MeantSchema) (p : MeantPlan) (rows : ℕ) (given : Left) (ms : List MeantMove) → IsOfSchema s p
        → IsStreamed s p rows given (meant_ends streams.now) ms walk.old (left_at streams.now left.now)
        → Makes s p ms making.old → HasLast (length (plan_leaves p)) ms before.now
        → length (behind.old).values.items ≡ length (plan_leaves p)
        → EndsAtHand s p rows given (meant_ends streams.now) (left_at streams.now left.now) walk.new making.new
        behind.new result }
    ensures as_many { length (behind.new).values.items ≡ length (behind.old).values.items }
{
    let mut held = rests_of(alloc, streams, left)?;
    let rests = held.as_mut_slice();
    let ended = ends_of(alloc, streams)?;
    let mut row = before.lend(alloc)?;
    let end = make_stretch(alloc, walk, rests, &ended, making, &mut row)?;
    behind.keep(&row)?;
    let counts = counts_of(alloc, rests)?;
    Ok((end, counts))
}

/// A plan's partial of the records of an opened file, of which what was made of the first of them is there: by the walk
/// over what is left of the columns of its leaves, of which a batch each is held.
///
/// Errors: the link failed, with its counts of faults before and after this call; `BadData` where the leaves' chunks
/// spell no columns of any records; want of memory, or of room for the partial.
pub(crate) fn partial_of_rest<L: Link>(
    alloc: Global,
    schema: &Schema,
    plan: &Plan,
    link: &mut L,
    opened: &Opened,
    mut rest: Rest<'_>,
) -> Result<Made, FileFault>
    requires planned { IsOfSchema (schema_view schema.now) plan.now }
    requires rest { IsRestOf (schema_view schema.now) plan.now (L.shows link.old).held opened.now rest }
    ensures partial { IfOk result (IsOfOpened (schema_view schema.now) plan.now (L.shows link.old).held opened.now) }
    ensures cause { (bytes : List ℕ) → IsTold (L.shows link.old).held opened.now (plan_leaves plan.now) bytes
        → IfErr result (IsFaultOf bytes (schema_view schema.now) (plan_leaves plan.now)) }
    ensures asked { (bytes : List ℕ) (f : Footer)
        → IsTold (L.shows link.old).held opened.now (plan_leaves plan.now) bytes → footer_of bytes ≡ Some f
        → AsksOnly (is_read_inside (path_of opened.now)
        (flat_map (leaf_ranges f) (leaves_read f (plan_leaves plan.now)))) (L.shows link.old).asked
        (L.shows link.new).asked }
    ensures paths { AsksOnly (is_for_path (path_of opened.now)) (L.shows link.old).asked (L.shows link.new).asked }
    ensures link { LeavesLinkCounted result (ServesOpened (L.shows link.old) opened.now) (L.shows link.old)
        (L.shows link.new) }
{
    let fields = steps_of(alloc, &plan.leaves)?;
    let mut walk = LevelWalk::start(alloc, schema, &fields, rest.records)?;
    let mut making = Making::start(alloc, schema, plan)?;
    let mut last = LastRead::new(alloc, plan.leaves.len())?;
    let mut next = LastRead::new(alloc, plan.leaves.len())?;
    // No file has more batches.
    'stretches: for _ in 0..u64::MAX {
        match make_at_hand(
            alloc,
            &mut walk,
            &rest.streams,
            &rest.left,
            &mut making,
            &last,
            &mut next,
        ) {
            Ok((Stretch::Ended, _)) => {
                let made = making.close(alloc, plan)?;
                return Ok(Made {
                    partial: join_made(alloc, rest.made, made)?,
                    triplets: rest.read.taken(),
                });
            }
            Ok((Stretch::Wants(leaf), counts)) => {
                rest.left = counts;
                mem::swap(&mut last, &mut next);
                clear_at(&mut rest.streams, leaf as usize);
                let count = read_at(alloc, link, &mut rest.streams, leaf as usize)?;
                set_count(&mut rest.left, leaf, count);
                rest.read.add(count as u64);
            }
            Err(fault) => return Err(file_fault(fault)),
        }
    }
    Err(FileFault::NoMemory)
}

/// A plan's partial of the records of an opened file, by the walk over the columns of its leaves, of which a batch each
/// is held.
///
/// Errors: the link failed, with its counts of faults before and after this call; `BadData` where the leaves' chunks
/// spell no columns of any records; want of memory, or of room for the partial.
pub(crate) fn partial_of_streams<L: Link>(
    alloc: Global,
    schema: &Schema,
    plan: &Plan,
    link: &mut L,
    opened: &Opened,
) -> Result<Made, FileFault>
    requires planned { IsOfSchema (schema_view schema.now) plan.now }
    requires count { leaf_count opened.now ≡ length (plan.now).leaves.items }
    ensures partial { IfOk result (IsOfOpened (schema_view schema.now) plan.now (L.shows link.old).held opened.now) }
    ensures cause { (bytes : List ℕ) → IsTold (L.shows link.old).held opened.now (plan_leaves plan.now) bytes
        → IfErr result (IsFaultOf bytes (schema_view schema.now) (plan_leaves plan.now)) }
    ensures asked { (bytes : List ℕ) (f : Footer)
        → IsTold (L.shows link.old).held opened.now (plan_leaves plan.now) bytes → footer_of bytes ≡ Some f
        → AsksOnly (is_read_inside (path_of opened.now)
        (flat_map (leaf_ranges f) (leaves_read f (plan_leaves plan.now)))) (L.shows link.old).asked
        (L.shows link.new).asked }
    ensures paths { AsksOnly (is_for_path (path_of opened.now)) (L.shows link.old).asked (L.shows link.new).asked }
    ensures link { LeavesLinkCounted result (ServesOpened (L.shows link.old) opened.now) (L.shows link.old)
        (L.shows link.new) }
{
    let rest = Rest::whole(alloc, opened, plan.leaves.len())?;
    partial_of_rest(alloc, schema, plan, link, opened, rest)
}
