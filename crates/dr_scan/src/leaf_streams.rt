//! The streams of a file's leaves, with their batches.

ghost use Rattle.std.specs.Prelude.{◌≡◌, [], ℕ, List, length, map, get_or, slice_set, Option, IfOk};
ghost use Rattle.dr_meaning.specs.Path.{Leaf};
ghost use Rattle.dr_levels.specs.Views.{triplets_view};
ghost use Rattle.dr_outside.specs.Link.{Files};
ghost use Rattle.dr_moves.specs.Leading.{Left};
ghost use Rattle.dr_file.specs.OpenedFiles.{leaf_count};
ghost use Rattle.dr_file.specs.declared.opened.Opened.{Opened as MeantOpened};
ghost use Rattle.dr_scan.specs.FileRecords.{IsColumnsFault};
ghost use Rattle.dr_walk.specs.Checking.{rest_at};
ghost use Rattle.dr_scan.specs.Chunked.{batch_forms, same_streams};
ghost use Rattle.dr_scan.specs.Served.{ReadsLeaves};
ghost use Rattle.dr_scan.specs.Streamed.{batch_at, left_at, ends_of as meant_ends, with_batch, AreLeafStreams, AreReadOn};

use crate::leaf_stream::LeafStream;
use dr_file::{FileFault, Opened};
use dr_levels::Triplets;
use dr_memory::NoMemory;
use dr_outside::Link;
use std::alloc::Global;

/// A stream for each of so many leaves that a file was opened for.
///
/// Errors: want of memory alone.
pub(crate) fn leaf_streams<'f>(
    alloc: Global,
    file: &'f Opened,
    leaves: usize,
) -> Result<Vec<LeafStream<'f>>, NoMemory>
    requires { leaves ≡ leaf_count file.now }
    ensures begun { (held : Option Files) (F : List Leaf) → length F ≡ leaves
        → IfOk result (λ v. AreLeafStreams held file.now F (λ i. []) v.items) }
    ensures none { IfOk result (λ v. (i : ℕ) → batch_at v.items i ≡ []) }
{
    let mut streams = Vec::with_capacity(alloc, leaves)?;
    'leaves: for index in 0..leaves {
        streams.push(LeafStream::start(alloc, file, index)?)?;
    }
    Ok(streams)
}

/// Appends the next triplets of a leaf to its batch. Answers how many came.
///
/// Errors: the link failed, with its counts of faults before and after this call; `BadData` where one leaf's chunks
/// spell no column of any records; want of memory.
pub(crate) fn read_at<L: Link>(
    alloc: Global,
    link: &mut L,
    streams: &mut Vec<LeafStream<'_>>,
    leaf: usize,
) -> Result<usize, FileFault>
    ensures read { IfOk result (AreReadOn (L.shows link.old).held leaf (streams.old).items (streams.new).items) }
    ensures forms { batch_forms (streams.new).items ≡ batch_forms (streams.old).items }
    ensures reads { (o : MeantOpened) (F : List Leaf) (given : Left)
        → AreLeafStreams (L.shows link.old).held o F given (streams.old).items
        → ReadsLeaves result (λ bytes. IsColumnsFault bytes F) o F (L.shows link.old) (L.shows link.new) }
{
    match streams.get_mut(leaf) {
        Some(stream) => stream.read_on(alloc, link),
        None => Err(FileFault::NoMemory),
    }
}

/// Lets go of the batch of a leaf.
pub(crate) fn clear_at(streams: &mut Vec<LeafStream<'_>>, leaf: usize)
    ensures streams { same_streams (streams.new).items ≡ same_streams (streams.old).items }
    ensures here { (i : ℕ) → batch_at (streams.new).items i ≡ with_batch leaf [] (batch_at (streams.old).items) i }
{
    if let Some(stream) = streams.get_mut(leaf) {
        stream.clear();
    }
}

/// The count of a number; 0 where there is none.
fn count_at(counts: &[usize], number: usize) -> usize
    ensures { result ≡ get_or counts.now number 0 }
{
    match counts.get(number) {
        Some(count) => *count,
        None => 0,
    }
}

/// What is left of each batch, where so many triplets of it are.
///
/// Errors: want of memory alone.
pub(crate) fn rests_of<'b>(
    alloc: Global,
    streams: &'b [LeafStream<'_>],
    left: &[usize],
) -> Result<Vec<Triplets<'b>>, NoMemory>
    ensures rests { IfOk result (λ v. (i : ℕ) → rest_at v.items i ≡ left_at streams.now left.now i) }
    ensures as_many { IfOk result (λ v. length v.items ≡ length streams.now) }
{
    let mut rests = Vec::with_capacity(alloc, streams.len())?;
    'streams: for (number, stream) in streams.iter().enumerate() {
        rests.push(stream.rest(count_at(left, number)))?;
    }
    Ok(rests)
}

/// Behind which batches nothing comes.
///
/// Errors: want of memory alone.
pub(crate) fn ends_of(alloc: Global, streams: &[LeafStream<'_>]) -> Result<Vec<bool>, NoMemory>
    ensures { IfOk result (λ v. v.items ≡ meant_ends streams.now) }
{
    let mut ends = Vec::with_capacity(alloc, streams.len())?;
    'streams: for stream in streams {
        ends.push(stream.ended)?;
    }
    Ok(ends)
}

/// How many triplets of each batch are left.
///
/// Errors: want of memory alone.
pub(crate) fn counts_of(alloc: Global, rests: &[Triplets<'_>]) -> Result<Vec<usize>, NoMemory>
    ensures { IfOk result (λ v. v.items ≡ map (λ r. length (triplets_view r)) rests.now) }
{
    let mut counts = Vec::with_capacity(alloc, rests.len())?;
    'rests: for rest in rests {
        counts.push(rest.len())?;
    }
    Ok(counts)
}

/// Puts a count into the place of the one of a number.
pub(crate) fn set_count(counts: &mut Vec<usize>, number: u32, count: usize)
    ensures { (counts.new).items ≡ slice_set (counts.old).items number count }
{
    if let Some(held) = counts.get_mut(number as usize) {
        *held = count;
    }
}
