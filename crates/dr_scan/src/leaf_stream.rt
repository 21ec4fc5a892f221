//! The stream of a leaf with its batch.

ghost use Rattle.std.specs.Prelude.{◌≡◌};
ghost use Rattle.dr_levels.specs.Views.{column_form};
ghost use Rattle.dr_file.specs.Streams.{stream_form};

use dr_file::{FileFault, Opened, Stream};
use dr_levels::{Column, Triplets};
use dr_memory::NoMemory;
use dr_outside::Link;
use std::alloc::Global;

/// The stream of a leaf of an opened file, and what it gave last.
#[derive(Drop)]
pub(crate) struct LeafStream<'f> {
    pub(crate) stream: Stream<'f>,
    pub(crate) batch: Column,
    /// Whether nothing comes behind the batch.
    pub(crate) ended: bool,
    ghost form: { column_form batch ≡ stream_form stream },
}

impl<'f> LeafStream<'f> {
    ghost use Rattle.std.specs.Prelude.{◌<◌, [], ◌∷◌, ℕ, List, Option, None, Some, IfOk, IfErr};
    ghost use Rattle.std.specs.List.{slice_get, flat_map};
    ghost use Rattle.dr_meaning.specs.Path.{Leaf};
    ghost use Rattle.dr_meaning.specs.Column.{Triplet};
    ghost use Rattle.dr_formats.specs.File.{Footer, footer_of, leaves_read};
    ghost use Rattle.dr_formats.specs.Opening.{leaf_cause, leaf_ranges};
    ghost use Rattle.dr_levels.specs.Views.{column_view, triplets_view};
    ghost use Rattle.dr_outside.specs.Link.{Files};
    ghost use Rattle.dr_outside.specs.Telling.{AsksOnly};
    ghost use Rattle.dr_chunk.specs.Ranges.{is_read_inside};
    ghost use Rattle.dr_file.specs.Asking.{is_for_path};
    ghost use Rattle.dr_file.specs.Leaving.{LeavesLinkCounted, ServesOpened};
    ghost use Rattle.dr_file.specs.OpenedFiles.{IsColumnFault, leaf_count, path_of};
    ghost use Rattle.dr_file.specs.Streams.{file_of, refused_of};
    ghost use Rattle.dr_file.specs.declared.opened.Opened.{Opened as MeantOpened};
    ghost use Rattle.dr_scan.specs.Streamed.{last_of, IsTold, IsLeafStream, HasReadOn};

    /// Before the first triplet of the leaf at an index of those that the file was opened for.
    ///
    /// Errors: want of memory alone.
    pub(crate) fn start(
        alloc: Global,
        file: &'f Opened,
        index: usize,
    ) -> Result<LeafStream<'f>, NoMemory>
        requires { index < leaf_count file.now }
        ensures begun { (held : Option Files) (F : List Leaf) (l : Leaf) → slice_get F index ≡ Some l
            → IfOk result (IsLeafStream held file.now F l []) }
        ensures none { IfOk result (λ x. column_view x.batch ≡ []) }
    {
        let stream = Stream::start(alloc, file, index)?;
        let batch = stream.column(alloc);
        Ok(LeafStream {
            stream,
            batch,
            ended: false,
        })
    }

    /// Appends the next triplets of the leaf to the batch, at the column's end none, and notes that it is there.
    /// Answers how many came.
    ///
    /// Errors: the link failed, with its counts of faults before and after this call; `BadData` where the leaf's chunks
    /// spell no column of any records; want of memory.
    pub(crate) fn read_on<L: Link>(
        &mut self,
        alloc: Global,
        link: &mut L,
    ) -> Result<usize, FileFault>
        ensures read { IfOk result (HasReadOn (L.shows link.old).held self.old self.new) }
        ensures cause { (o : MeantOpened) (F : List Leaf) (l : Leaf) (given : List Triplet) (bytes : List ℕ)
            → IsLeafStream (L.shows link.old).held o F l given self.old → IsTold (L.shows link.old).held o F bytes
            → IfErr result (λ e. IsColumnFault e (leaf_cause bytes l)) }
        ensures asked { (o : MeantOpened) (F : List Leaf) (l : Leaf) (given : List Triplet) (bytes : List ℕ)
            (f : Footer) → IsLeafStream (L.shows link.old).held o F l given self.old
            → IsTold (L.shows link.old).held o F bytes → footer_of bytes ≡ Some f
            → AsksOnly (is_read_inside (path_of o) (flat_map (leaf_ranges f) (leaves_read f (l ∷ []))))
            (L.shows link.old).asked (L.shows link.new).asked }
        ensures paths { AsksOnly (is_for_path (path_of (file_of (self.old).stream))) (L.shows link.old).asked
            (L.shows link.new).asked }
        ensures link { refused_of (self.old).stream ≡ None
            → LeavesLinkCounted result (ServesOpened (L.shows link.old) (file_of (self.old).stream))
            (L.shows link.old) (L.shows link.new) }
        ensures form { column_form (self.new).batch ≡ column_form (self.old).batch }
    {
        let before = self.batch.len();
        let some = self.stream.next(alloc, link, &mut self.batch)?;
        self.ended = !some;
        Ok(self.batch.len() - before)
    }

    /// Lets go of the batch.
    pub(crate) fn clear(&mut self)
        ensures none { column_view (self.new).batch ≡ [] }
        ensures stream { ((self.new).stream ≡ (self.old).stream) × ((self.new).ended ≡ (self.old).ended) }
    {
        self.batch.clear();
    }

    /// The last so many triplets of the batch, or as many as there are.
    pub(crate) fn rest(&self, left: usize) -> Triplets<'_>
        ensures { triplets_view result ≡ last_of left (column_view (self.now).batch) }
    {
        let passed = self.batch.len().saturating_sub(left);
        self.batch.triplets().split_at(passed).1
    }
}
