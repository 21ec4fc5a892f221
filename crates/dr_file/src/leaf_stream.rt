//! The column of a leaf that a file has, a batch at a time, chunk by chunk.

ghost use Rattle.std.specs.Prelude.{◌≡◌, ◌≤◌, ◌<◌, None, length, map, drop};
ghost use Rattle.dr_levels.specs.Views.{column_view};
ghost use Rattle.dr_chunk.specs.Taking as taking;
ghost use Rattle.dr_chunk.specs.Takers.{leaf_form};
ghost use Rattle.dr_file.specs.Floors.{bare, strip};
ghost use Rattle.dr_file.specs.LeafColumns.{HasChunk};

use crate::floors::Floors;
use crate::opened_leaf::OpenedLeaf;
use crate::row_order::RowOrder;
use dr_chunk::{ChunkFault, ChunkReader, LeafShape};
use dr_levels::{Column, Levels};
use dr_memory::NoMemory;
use dr_outside::Link;
use std::alloc::Global;

/// How many triplets a batch has at most.
pub(crate) const BATCH: usize = 1_024;

/// The levels of a column's triplets behind the first so many.
fn levels_behind(column: &Column, count: usize) -> &[Levels]
    ensures { map bare result.now ≡ map strip (drop count (column_view column.now)) }
{
    match column.triplets().levels().get(count..) {
        Some(levels) => levels,
        None => &[],
    }
}

/// The triplets of a leaf of the file at a path, whose footer begins at a byte offset, from the next one on.
#[derive(Drop)]
pub(crate) struct LeafStream<'f> {
    path: &'f str,
    footer: u64,
    leaf: &'f OpenedLeaf,
    shape: LeafShape,
    floors: Floors,
    reader: ChunkReader,
    /// Where the rows of the chunk that is read stand.
    order: RowOrder,
    /// The index of the chunk that comes next.
    next: usize,
    ghost ahead: { next ≤ length (leaf.now).chunks.items },
    ghost chunk: { 0 < taking.left_of reader
        → HasChunk footer (leaf.now).chunks.items next (taking.range_of reader) },
    ghost form: { 0 < taking.left_of reader → taking.reader_form reader ≡ leaf_form shape },
    ghost unrefused: { 0 < taking.left_of reader → taking.refused_of reader ≡ None },
}

impl<'f> LeafStream<'f> {
    ghost use Rattle.std.specs.Prelude.{◌≢◌, ◌+◌, [], ℕ, List, None, Some, Ok, Err, IfOk, OnOk, OnErr};
    ghost use Rattle.std.specs.List.{flat_map};
    ghost use Rattle.dr_meaning.specs.Path.{Leaf, max_definition};
    ghost use Rattle.dr_formats.specs.File.{most_triplets};
    ghost use Rattle.dr_levels.specs.Views.{column_form, form};
    ghost use Rattle.dr_outside.specs.Telling.{AsksOnly};
    ghost use Rattle.dr_outside.specs.Leaving.{LeavesLink, ServesUntil};
    ghost use Rattle.dr_chunk.specs.Ranges.{is_read_inside};
    ghost use Rattle.dr_chunk.specs.Taking.{BeginWith};
    ghost use Rattle.dr_file.specs.ChunkPlaces.{all_values};
    ghost use Rattle.dr_file.specs.LeafColumns.{shown_range, IsShownLeaf};
    ghost use Rattle.dr_file.specs.LeafStreams.{path_of, footer_of, leaf_of, shown_chunks, left_of, stream_form, held_of, leaf_triplets, IsAt, GoesOn, OverLeafStream, OverToldLeaf, SpellsNone};

    /// Before the first triplet of a leaf of the file at this path, whose footer begins at this byte offset.
    ///
    /// Errors: want of memory alone.
    pub(crate) fn start(
        alloc: Global,
        path: &'f str,
        footer: u64,
        leaf: &'f OpenedLeaf,
    ) -> Result<LeafStream<'f>, NoMemory>
        ensures begun { (bytes : List ℕ) (l : Leaf) → IsShownLeaf l leaf.now → footer ≤ length bytes
            → IfOk result (IsAt bytes l []) }
        ensures form { (l : Leaf) → IsShownLeaf l leaf.now → IfOk result (λ s. stream_form s
            ≡ form l.kind (max_definition l.path)) }
        ensures file { IfOk result (λ s. (path_of s ≡ path.now) × (footer_of s ≡ footer) × (leaf_of s ≡ leaf.now)) }
        ensures few { IfOk result (λ s. left_of s ≤ most_triplets) }
        ensures left { IfOk result (λ s. left_of s ≡ all_values (leaf.now).chunks.items) }
    {
        let floors = Floors::new(alloc, &leaf.steps)?;
        let shape = LeafShape {
            kind: leaf.kind,
            max_repetition: floors.max_repetition(),
            max_definition: floors.max_definition(),
        };
        Ok(LeafStream {
            path,
            footer,
            leaf,
            shape,
            floors,
            reader: ChunkReader::new(alloc),
            order: RowOrder::of_rows(0),
            next: 0,
        })
    }

    /// The leaf's greatest definition level.
    pub(crate) fn max_definition(&self) -> u8
        ensures { result ≡ (stream_form self.now).greatest }
    {
        self.shape.max_definition
    }

    /// How many bytes of the file it holds, beside the dictionary's values.
    pub(crate) fn held(&self) -> u64
        ensures { result ≡ held_of self.now }
    {
        self.reader.held()
    }

    /// Appends the next triplets to a column of the leaf, at most a batch, and answers how many: 0 only where all were
    /// given.
    ///
    /// Errors: a chunk of the leaf doesn't lie before the footer, or doesn't spell a column of its row group's rows;
    /// the link failed; want of memory. The column is then as it was.
    pub(crate) fn next<L: Link>(
        &mut self,
        alloc: Global,
        link: &mut L,
        out: &mut Column,
    ) -> Result<usize, ChunkFault>
        requires { column_form out.old ≡ stream_form self.old }
        ensures more { OverToldLeaf (L.shows link.old) self.old (λ bytes l given.
            OnOk result (GoesOn bytes l given (column_view out.old) (column_view out.new) self.new)) }
        ensures whole { OverToldLeaf (L.shows link.old) self.old (λ bytes l given. result ≡ Ok 0
            → leaf_triplets bytes (footer_of self.old) l (shown_chunks self.old) ≡ Some given) }
        ensures bad { OverToldLeaf (L.shows link.old) self.old (λ bytes l given.
            result ≡ Err ChunkFault.BadData → SpellsNone bytes l self.old) }
        ensures count { IfOk result (λ n. length (column_view out.new) ≡ length (column_view out.old) + n) }
        ensures left { IfOk result (λ n. n + left_of self.new ≡ left_of self.old) }
        ensures batch { IfOk result (λ n. n ≤ 1024) }
        ensures front { OnOk result (BeginWith (column_view out.old) (column_view out.new)) }
        ensures stays { OnErr result (column_view out.new ≡ column_view out.old) }
        ensures form { column_form out.new ≡ column_form out.old }
        ensures stream_form { stream_form self.new ≡ stream_form self.old }
        ensures path { path_of self.new ≡ path_of self.old }
        ensures footer { footer_of self.new ≡ footer_of self.old }
        ensures leaf { leaf_of self.new ≡ leaf_of self.old }
        ensures link { LeavesLink result ChunkFault.Failed (ServesUntil (L.shows link.old) (path_of self.old)
            (footer_of self.old)) (L.shows link.old) (L.shows link.new) }
        ensures asked { AsksOnly (is_read_inside (path_of self.old)
            (flat_map (shown_range (footer_of self.old)) (shown_chunks self.old))) (L.shows link.old).asked
            (L.shows link.new).asked }
    {
        'chunks: while self.reader.left() == 0 {
            if self.next == self.leaf.chunks.len() {
                return Ok(0);
            }
            self.begin_chunk(alloc)?;
        }
        self.read_batch(alloc, link, out)
    }

    /// Begins the next chunk.
    ///
    /// Errors: it doesn't lie before the footer, or has no triplets for its rows.
    fn begin_chunk(&mut self, alloc: Global) -> Result<(), ChunkFault>
        requires over { taking.left_of (self.old).reader ≡ 0 }
        requires some { (self.old).next < length (leaf_of self.old).chunks.items }
        ensures more { OverLeafStream self.old (λ bytes l given. OnOk result (IsAt bytes l given self.new)) }
        ensures bad { OverLeafStream self.old (λ bytes l given.
            result ≡ Err ChunkFault.BadData → SpellsNone bytes l self.old) }
        ensures calm { result ≢ Err ChunkFault.Failed }
        ensures left { OnOk result (left_of self.new ≡ left_of self.old) }
        ensures goes_on { OnOk result ((self.new).next ≡ (self.old).next + 1) }
        ensures stream_form { stream_form self.new ≡ stream_form self.old }
        ensures path { path_of self.new ≡ path_of self.old }
        ensures footer { footer_of self.new ≡ footer_of self.old }
        ensures leaf { leaf_of self.new ≡ leaf_of self.old }
    {
        let chunk = self.leaf.chunks[self.next];
        let Some(range) = chunk.range_before(self.footer) else {
            return Err(ChunkFault::BadData);
        };
        self.reader.begin(alloc, range, self.shape, chunk.values);
        self.order = RowOrder::of_rows(chunk.rows);
        self.next += 1;
        self.check_rows()
    }

    /// Appends the next triplets of the chunk that is read.
    ///
    /// Errors: the chunk doesn't spell a column of its row group's rows; the link failed; want of memory. The column is
    /// then as it was.
    fn read_batch<L: Link>(
        &mut self,
        alloc: Global,
        link: &mut L,
        out: &mut Column,
    ) -> Result<usize, ChunkFault>
        requires form { column_form out.old ≡ stream_form self.old }
        requires some { 0 < taking.left_of (self.old).reader }
        ensures more { OverToldLeaf (L.shows link.old) self.old (λ bytes l given.
            OnOk result (GoesOn bytes l given (column_view out.old) (column_view out.new) self.new)) }
        ensures bad { OverToldLeaf (L.shows link.old) self.old (λ bytes l given.
            result ≡ Err ChunkFault.BadData → SpellsNone bytes l self.old) }
        ensures count { IfOk result (λ n. length (column_view out.new) ≡ length (column_view out.old) + n) }
        ensures left { IfOk result (λ n. n + left_of self.new ≡ left_of self.old) }
        ensures batch { IfOk result (λ n. n ≤ 1024) }
        ensures some { IfOk result (λ n. 0 < n) }
        ensures front { OnOk result (BeginWith (column_view out.old) (column_view out.new)) }
        ensures stays { OnErr result (column_view out.new ≡ column_view out.old) }
        ensures form { column_form out.new ≡ column_form out.old }
        ensures stream_form { stream_form self.new ≡ stream_form self.old }
        ensures path { path_of self.new ≡ path_of self.old }
        ensures footer { footer_of self.new ≡ footer_of self.old }
        ensures leaf { leaf_of self.new ≡ leaf_of self.old }
        ensures link { LeavesLink result ChunkFault.Failed (ServesUntil (L.shows link.old) (path_of self.old)
            (footer_of self.old)) (L.shows link.old) (L.shows link.new) }
        ensures asked { AsksOnly (is_read_inside (path_of self.old)
            (flat_map (shown_range (footer_of self.old)) (shown_chunks self.old))) (L.shows link.old).asked
            (L.shows link.new).asked }
    {
        let before = out.len();
        let count = self.reader.next(alloc, link, self.path, BATCH, out)?;
        if !self.order.go_on(&self.floors, levels_behind(out, before)) {
            out.truncate(before);
            return Err(ChunkFault::BadData);
        }
        match self.check_rows() {
            Ok(()) => Ok(count),
            Err(fault) => {
                out.truncate(before);
                Err(fault)
            }
        }
    }

    /// Sees that all rows of the chunk that is read have begun, where all its triplets were given.
    ///
    /// Errors: `BadData` where some haven't.
    fn check_rows(&self) -> Result<(), ChunkFault>
        ensures begun { taking.left_of (self.now).reader ≡ 0 → OnOk result ((self.now).order.rows ≡ 0) }
        ensures bad { result ≡ Err ChunkFault.BadData → taking.left_of (self.now).reader ≡ 0 }
        ensures bad_rows { result ≡ Err ChunkFault.BadData → (self.now).order.rows ≢ 0 }
        ensures calm { (result ≢ Err ChunkFault.Failed) × (result ≢ Err ChunkFault.NoMemory) }
    {
        if self.reader.left() == 0 && !self.order.is_done() {
            return Err(ChunkFault::BadData);
        }
        Ok(())
    }
}
