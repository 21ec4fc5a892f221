//! Taking the records of an opened file by the columns of its leaves side by side, a chunk of whole records at a time.

ghost use Rattle.std.specs.Prelude.{◌≡◌, ◌≢◌, ◌<◌, ◌++◌, ℕ, List, length, get_or, Some, false, IfOk};
ghost use Rattle.dr_meaning.specs.Schema.{Schema as MeantSchema};
ghost use Rattle.dr_meaning.specs.Path.{Leaf};
ghost use Rattle.dr_meaning.specs.Record.{Node};
ghost use Rattle.dr_meaning.specs.Column.{Triplet};
ghost use Rattle.dr_levels.specs.Views.{column_form, column_view};
ghost use Rattle.dr_outside.specs.Link.{Files};
ghost use Rattle.dr_moves.specs.Leading.{Left};
ghost use Rattle.dr_agreement.specs.AtHand as hand;
ghost use Rattle.dr_agreement.specs.Behind.{IsMore};
ghost use Rattle.dr_columns.specs.Chunks.{HasTakenChunks, IsLent};
ghost use Rattle.dr_columns.specs.declared.chunks.Chunks.{Chunks as MeantChunks};
ghost use Rattle.dr_file.specs.declared.opened.Opened.{Opened as MeantOpened};
ghost use Rattle.dr_plan.specs.Planned.{plan_leaves};
ghost use Rattle.dr_plan.specs.declared.plan.Plan.{Plan as MeantPlan};
ghost use Rattle.dr_table.specs.Counting.{counted};
ghost use Rattle.dr_scan.specs.FileRecords.{IsColumnsFault, IsFaultOf};
ghost use Rattle.dr_scan.specs.Chunked.{batch_forms, hand_forms, IsChunked, GoesOrEnds};
ghost use Rattle.dr_scan.specs.Served.{ReadsLeaves};
ghost use Rattle.dr_scan.specs.Streamed.{AreLeafStreams};

use crate::fault::file_fault;
use crate::leaf_stream::LeafStream;
use crate::leaf_streams::read_at;
use dr_agreement::Kept;
use dr_columns::{Chunks, Step};
use dr_file::FileFault;
use dr_memory::NoMemory;
use dr_outside::Link;
use dr_table::Steps;
use dr_walk::AssembleFault;
use std::alloc::Global;

/// Where taking chunk after chunk ends.
#[derive(Clone, Copy, PartialEq, Eq)]
pub(crate) enum End {
    /// All records are taken.
    All,
    /// A record is longer than a chunk.
    Long,
}

/// Lends what is at hand of a leaf to its stream, as its batch.
///
/// Errors: want of memory alone.
fn lend_batch(
    stream: &mut LeafStream<'_>,
    leaf: usize,
    chunks: &mut Chunks<'_>,
) -> Result<Kept, NoMemory>
    requires within { leaf < length (chunks.old).leaves.items }
    requires form { column_form (stream.old).batch
        ≡ get_or (hand_forms chunks.old) leaf (column_form (stream.old).batch) }
    ensures lent { IfOk result (λ kept. IsLent leaf (column_view (stream.new).batch) kept chunks.old chunks.new) }
    ensures form { column_form (stream.new).batch ≡ column_form (stream.old).batch }
    ensures stream { ((stream.new).stream ≡ (stream.old).stream) × ((stream.new).ended ≡ (stream.old).ended) }
{
    chunks.lend(leaf, &mut stream.batch)
}

/// Takes back what was lent of a leaf to its stream, with what the stream gave more.
fn take_back_batch(stream: &mut LeafStream<'_>, leaf: usize, chunks: &mut Chunks<'_>, kept: Kept)
    requires within { leaf < length (chunks.old).leaves.items }
    requires form { column_form (stream.old).batch
        ≡ get_or (hand_forms chunks.old) leaf (column_form (stream.old).batch) }
    requires kept { hand.CanPass (column_view (stream.old).batch) kept.triplets kept.begun }
    ensures added { (s : MeantSchema) (p : MeantPlan) (rows : ℕ) (given now : Left) (R : List Node) (x : MeantChunks)
        (before more : List Triplet) → HasTakenChunks s p rows given R x → IsLent leaf before kept x chunks.old
        → column_view (stream.old).batch ≡ before ++ more → hand.ends_of x.leaves.items leaf ≡ false
        → IsMore leaf more given now → HasTakenChunks s p rows now R chunks.new }
    ensures ended { hand.ends_of (chunks.new).leaves.items leaf ≡ (stream.old).ended }
    ensures ends { (i : ℕ) → i ≢ leaf
        → hand.ends_of (chunks.new).leaves.items i ≡ hand.ends_of (chunks.old).leaves.items i }
    ensures forms { hand_forms chunks.new ≡ hand_forms chunks.old }
    ensures form { column_form (stream.new).batch ≡ column_form (stream.old).batch }
    ensures stream { ((stream.new).stream ≡ (stream.old).stream) × ((stream.new).ended ≡ (stream.old).ended) }
{
    chunks.take_back(leaf, &mut stream.batch, kept, stream.ended);
}

/// Reads more of a leaf to what is at hand of it. Answers how many triplets came.
///
/// Errors: the link failed, with its counts of faults before and after this call; `BadData` where one leaf's chunks
/// spell no column of any records; want of memory.
fn refill<L: Link>(
    alloc: Global,
    link: &mut L,
    streams: &mut Vec<LeafStream<'_>>,
    leaf: usize,
    chunks: &mut Chunks<'_>,
) -> Result<usize, FileFault>
    requires within { leaf < length (streams.old).items }
    requires forms { hand_forms chunks.old ≡ batch_forms (streams.old).items }
    ensures chunked { (s : MeantSchema) (p : MeantPlan) (o : MeantOpened) (read : ℕ)
        → IsChunked s p (L.shows link.old).held o (streams.old).items chunks.old read
        → hand.ends_of (chunks.old).leaves.items leaf ≡ false → IfOk result (λ count.
        IsChunked s p (L.shows link.old).held o (streams.new).items chunks.new (counted read count)) }
    ensures reads { (o : MeantOpened) (F : List Leaf) (given : Left)
        → AreLeafStreams (L.shows link.old).held o F given (streams.old).items
        → ReadsLeaves result (λ bytes. IsColumnsFault bytes F) o F (L.shows link.old) (L.shows link.new) }
{
    let kept = lend_batch(&mut streams[leaf], leaf, chunks)?;
    let count = read_at(alloc, link, streams, leaf)?;
    take_back_batch(&mut streams[leaf], leaf, chunks, kept);
    Ok(count)
}

/// Takes the next chunk, or reads more of a leaf where none is whole.
///
/// Errors: the link failed, with its counts of faults before and after this call; `BadData` where the leaves' chunks
/// spell no columns of any records; want of memory, or of room for the partial.
fn go_on<L: Link>(
    alloc: Global,
    link: &mut L,
    streams: &mut Vec<LeafStream<'_>>,
    chunks: &mut Chunks<'_>,
    read: &mut Steps,
) -> Result<Option<End>, FileFault>
    requires { (s : MeantSchema) × (p : MeantPlan) × (o : MeantOpened)
        × IsChunked s p (L.shows link.old).held o (streams.old).items chunks.old read.old }
    ensures goes { (s : MeantSchema) (p : MeantPlan) (o : MeantOpened)
        → IsChunked s p (L.shows link.old).held o (streams.old).items chunks.old read.old
        → IfOk result (GoesOrEnds s p (L.shows link.old).held o (streams.new).items chunks.new read.new) }
    ensures reads { (s : MeantSchema) (p : MeantPlan) (o : MeantOpened)
        → IsChunked s p (L.shows link.old).held o (streams.old).items chunks.old read.old
        → ReadsLeaves result (λ bytes. IsFaultOf bytes s (plan_leaves p)) o (plan_leaves p) (L.shows link.old)
        (L.shows link.new) }
{
    match chunks.step(alloc)? {
        Step::Took => Ok(None),
        Step::Wants(leaf) => {
            let count = refill(alloc, link, streams, leaf, chunks)?;
            read.add(count as u64);
            Ok(None)
        }
        Step::Long => Ok(Some(End::Long)),
        Step::Ended => Ok(Some(End::All)),
        Step::NoneHave => Err(file_fault(AssembleFault::BadData)),
    }
}

/// Takes chunk after chunk of what the streams of an opened file's leaves give, until all records are taken, or one is
/// longer than a chunk. Counts the triplets that came.
///
/// Errors: the link failed, with its counts of faults before and after this call; `BadData` where the leaves' chunks
/// spell no columns of any records; want of memory, or of room for the partial.
pub(crate) fn take_chunks<L: Link>(
    alloc: Global,
    link: &mut L,
    streams: &mut Vec<LeafStream<'_>>,
    chunks: &mut Chunks<'_>,
    read: &mut Steps,
) -> Result<End, FileFault>
    requires { (s : MeantSchema) × (p : MeantPlan) × (o : MeantOpened)
        × IsChunked s p (L.shows link.old).held o (streams.old).items chunks.old read.old }
    ensures ends { (s : MeantSchema) (p : MeantPlan) (o : MeantOpened)
        → IsChunked s p (L.shows link.old).held o (streams.old).items chunks.old read.old → IfOk result (λ end.
        GoesOrEnds s p (L.shows link.old).held o (streams.new).items chunks.new read.new (Some end)) }
    ensures reads { (s : MeantSchema) (p : MeantPlan) (o : MeantOpened)
        → IsChunked s p (L.shows link.old).held o (streams.old).items chunks.old read.old
        → ReadsLeaves result (λ bytes. IsFaultOf bytes s (plan_leaves p)) o (plan_leaves p) (L.shows link.old)
        (L.shows link.new) }
{
    // No file has more chunks and batches.
    'chunks: for _ in 0..u64::MAX {
        match go_on(alloc, link, streams, chunks, read)? {
            Some(end) => return Ok(end),
            None => {}
        }
    }
    Err(FileFault::NoMemory)
}
