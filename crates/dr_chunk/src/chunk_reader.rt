//! Column chunks, read a piece at a time.

ghost use Rattle.std.specs.Prelude.{◌≡◌, ◌≤◌, ◌<◌, ◌+◌, ◌≢◌, ◌^◌, length, Some};
ghost use Rattle.dr_page.specs.PageReading as reading;
ghost use Rattle.dr_chunk.specs.Stretches.{pending};
ghost use Rattle.dr_chunk.specs.Takers.{leaf_of, wanted_of};
ghost use Rattle.dr_chunk.specs.Underway.{HasForm};
ghost use Rattle.dr_chunk.specs.declared.fault.ChunkFault.{ChunkFault};

use crate::byte_range::ByteRange;
use crate::fault::ChunkFault;
use crate::header::next_header;
use crate::leaf_shape::LeafShape;
use crate::page_taker::PageTaker;
use crate::stretch::Stretch;
use dr_levels::Column;
use dr_nested::Kind;
use dr_outside::Link;
use dr_page::PageReader;
use std::alloc::Global;

/// Reads the triplets of column chunks a piece at a time, page by page, with buffers that are used again page after
/// page. Beside the values of the chunk's dictionary it holds the body of one page, and what is read ahead behind it.
#[derive(Drop)]
pub struct ChunkReader {
    stretch: Stretch,
    taker: PageTaker,
    page: PageReader,
    /// The size of the body of the page that came last, which lies ahead.
    body: usize,
    /// How many pages may still come: each takes a byte at least.
    pages: u64,
    /// Why the chunk is refused from now on, where it is.
    refused: Option<ChunkFault>,
    ghost ahead: { body ≤ length (pending stretch) },
    ghost form: { HasForm (leaf_of taker) page },
    ghost few: { wanted_of taker + reading.left_of page < 2 ^ 64 },
    ghost small: { body < 2 ^ 63 },
    ghost over: { (fault : ChunkFault) → refused ≡ Some fault → wanted_of taker + reading.left_of page ≡ 0 },
}

impl ChunkReader {
    ghost use Rattle.std.specs.Prelude.{◌∷◌, [], ℕ, List, Ok, Err, None, IfOk, OnOk, OnErr, take};
    ghost use Rattle.dr_meaning.specs.Path.{Leaf};
    ghost use Rattle.dr_formats.specs.Chunk.{pages_triplets};
    ghost use Rattle.dr_levels.specs.Views.{column_view, column_form};
    ghost use Rattle.dr_page.specs.PageReading.{Lengthens};
    ghost use Rattle.dr_outside.specs.Telling.{AsksOnly};
    ghost use Rattle.dr_outside.specs.Leaving.{LeavesLink, ServesUntil};
    ghost use Rattle.dr_chunk.specs.Ranges.{is_read_inside, inside};
    ghost use Rattle.dr_chunk.specs.Takers.{leaf_form, IsLeafOf};
    ghost use Rattle.dr_chunk.specs.Taking.{range_of, left_of, reader_form, held_of, chunk_of, refused_of, fault_of, IsTaking, TakesMore, OverTaking, OverTold};

    /// A reader without a chunk. Takes no memory.
    pub fn new(alloc: Global) -> ChunkReader
        ensures left { left_of result ≡ 0 }
        ensures refused { refused_of result ≡ None }
    {
        let none = LeafShape {
            kind: Kind::Bool,
            max_repetition: 0,
            max_definition: 0,
        };
        ChunkReader {
            stretch: Stretch::new(alloc),
            taker: PageTaker::new(alloc, none, 0),
            page: PageReader::new(alloc),
            body: 0,
            pages: 0,
            refused: None,
        }
    }

    /// Begins a chunk of a leaf: this range of bytes of a file, of which the first `wanted` triplets are wanted. What
    /// stands behind the last page that is needed doesn't matter, nor does what was read before. Takes no memory.
    pub fn begin(&mut self, alloc: Global, range: ByteRange, leaf: LeafShape, wanted: u64)
        ensures begun { (bytes : List ℕ) (l : Leaf) → IsLeafOf l leaf → range.start + range.size ≤ length bytes
            → IsTaking l wanted bytes [] self.new }
        ensures left { left_of self.new ≡ wanted }
        ensures form { reader_form self.new ≡ leaf_form leaf }
        ensures range { range_of self.new ≡ range }
        ensures held { held_of self.new ≡ 0 }
        ensures refused { refused_of self.new ≡ None }
    {
        self.refused = None;
        self.page = PageReader::new(alloc);
        self.body = 0;
        self.pages = range.size;
        self.stretch.restart(range);
        self.taker = PageTaker::new(alloc, leaf, wanted);
    }

    /// How many of the wanted triplets were not given.
    pub fn left(&self) -> u64
        ensures { result ≡ left_of self.now }
    {
        self.taker.wanted() + self.page.left()
    }

    /// How many bytes of the chunk it holds, beside the dictionary's values: those of the dictionary's page body and of
    /// the body of the page that it reads.
    pub fn held(&self) -> u64
        ensures { result ≡ held_of self.now }
    {
        self.taker.dictionary_size() as u64 + self.body as u64
    }

    /// Appends the next of the wanted triplets to a column of the leaf, at most so many, and answers how many: 0 only
    /// where all were given. The file is the one at this path; the link is asked for bytes of the chunk's range alone.
    ///
    /// Errors: the bytes aren't a chunk of so many triplets, an unimplemented encoding included; the link failed; want
    /// of memory. The column is then as it was. A refusal is repeated until another chunk begins, and the link isn't
    /// asked.
    pub fn next<L: Link>(
        &mut self,
        alloc: Global,
        link: &mut L,
        path: &str,
        most: usize,
        out: &mut Column,
    ) -> Result<usize, ChunkFault>
        requires form { column_form out.old ≡ reader_form self.old }
        requires some { 0 < most }
        ensures takes { OverTold (L.shows link.old) path.now self.old (λ l wanted bytes given.
            OnOk result (TakesMore l wanted bytes given (column_view out.old) (column_view out.new) self.new)) }
        ensures bad { OverTold (L.shows link.old) path.now self.old (λ l wanted bytes given.
            result ≡ Err ChunkFault.BadData
            → pages_triplets l wanted (chunk_of bytes (range_of self.old)) ≡ None) }
        ensures longer { IfOk result (λ n. Lengthens (column_view out.old) (column_view out.new) n) }
        ensures left { IfOk result (λ n. n + left_of self.new ≡ left_of self.old) }
        ensures most { IfOk result (λ n. n ≤ most) }
        ensures none { result ≡ Ok 0 → left_of self.old ≡ 0 }
        ensures stays { OnErr result (column_view out.new ≡ column_view out.old) }
        ensures over { OnErr result (left_of self.new ≡ 0) }
        ensures form { column_form out.new ≡ column_form out.old }
        ensures reader_form { reader_form self.new ≡ reader_form self.old }
        ensures range { range_of self.new ≡ range_of self.old }
        ensures link { refused_of self.old ≡ None
            → LeavesLink result ChunkFault.Failed (ServesUntil (L.shows link.old) path.now
            ((range_of self.old).start + (range_of self.old).size)) (L.shows link.old) (L.shows link.new) }
        ensures asked { AsksOnly (is_read_inside path.now (inside (range_of self.old) ∷ [])) (L.shows link.old).asked
            (L.shows link.new).asked }
        // A refusal is one from then on.
        ensures refused { refused_of self.new ≡ fault_of result }
        ensures again { (e : ChunkFault) → refused_of self.old ≡ Some e → (result ≡ Err e)
            × (L.shows link.new ≡ L.shows link.old) }
    {
        if let Some(fault) = self.refused {
            return Err(fault);
        }
        match self.give(alloc, link, path, most, out) {
            Ok(count) => Ok(count),
            Err(fault) => {
                self.stop(alloc, fault);
                Err(fault)
            }
        }
    }

    /// Gives up the chunk, which is refused from now on.
    fn stop(&mut self, alloc: Global, fault: ChunkFault)
        ensures left { left_of self.new ≡ 0 }
        ensures refused { refused_of self.new ≡ Some fault }
        ensures reader_form { reader_form self.new ≡ reader_form self.old }
        ensures range { range_of self.new ≡ range_of self.old }
    {
        self.page = PageReader::new(alloc);
        self.taker.stop();
        self.refused = Some(fault);
    }

    /// As `next`, of a chunk that isn't refused, where a refusal isn't noted.
    fn give<L: Link>(
        &mut self,
        alloc: Global,
        link: &mut L,
        path: &str,
        most: usize,
        out: &mut Column,
    ) -> Result<usize, ChunkFault>
        requires unrefused { refused_of self.old ≡ None }
        requires form { column_form out.old ≡ reader_form self.old }
        requires some { 0 < most }
        ensures takes { OverTold (L.shows link.old) path.now self.old (λ l wanted bytes given.
            OnOk result (TakesMore l wanted bytes given (column_view out.old) (column_view out.new) self.new)) }
        ensures bad { OverTold (L.shows link.old) path.now self.old (λ l wanted bytes given.
            result ≡ Err ChunkFault.BadData
            → pages_triplets l wanted (chunk_of bytes (range_of self.old)) ≡ None) }
        ensures longer { IfOk result (λ n. Lengthens (column_view out.old) (column_view out.new) n) }
        ensures left { IfOk result (λ n. n + left_of self.new ≡ left_of self.old) }
        ensures most { IfOk result (λ n. n ≤ most) }
        ensures none { result ≡ Ok 0 → left_of self.old ≡ 0 }
        ensures stays { OnErr result (column_view out.new ≡ column_view out.old) }
        ensures form { column_form out.new ≡ column_form out.old }
        ensures reader_form { reader_form self.new ≡ reader_form self.old }
        ensures range { range_of self.new ≡ range_of self.old }
        ensures unrefused { refused_of self.new ≡ None }
        ensures link { LeavesLink result ChunkFault.Failed (ServesUntil (L.shows link.old) path.now
            ((range_of self.old).start + (range_of self.old).size)) (L.shows link.old) (L.shows link.new) }
        ensures asked { AsksOnly (is_read_inside path.now (inside (range_of self.old) ∷ [])) (L.shows link.old).asked
            (L.shows link.new).asked }
    {
        'pages: while self.page.left() == 0 {
            if self.taker.wanted() == 0 {
                return Ok(0);
            }
            self.next_page(alloc, link, path)?;
        }
        self.read_page(alloc, most, out)
    }

    /// Goes on to the next page: its header, then its body.
    ///
    /// Errors: there is no such page at this place of a chunk; the link failed; want of memory.
    fn next_page<L: Link>(
        &mut self,
        alloc: Global,
        link: &mut L,
        path: &str,
    ) -> Result<(), ChunkFault>
        requires unrefused { refused_of self.old ≡ None }
        requires over { reading.left_of (self.old).page ≡ 0 }
        requires wanted { 0 < wanted_of (self.old).taker }
        ensures takes { OverTold (L.shows link.old) path.now self.old (λ l wanted bytes given.
            OnOk result (IsTaking l wanted bytes given self.new)) }
        ensures bad { OverTold (L.shows link.old) path.now self.old (λ l wanted bytes given.
            result ≡ Err ChunkFault.BadData
            → pages_triplets l wanted (chunk_of bytes (range_of self.old)) ≡ None) }
        ensures left { OnOk result (left_of self.new ≡ left_of self.old) }
        ensures pages { OnOk result ((self.new).pages < (self.old).pages) }
        ensures reader_form { reader_form self.new ≡ reader_form self.old }
        ensures range { range_of self.new ≡ range_of self.old }
        ensures unrefused { refused_of self.new ≡ None }
        ensures link { LeavesLink result ChunkFault.Failed (ServesUntil (L.shows link.old) path.now
            ((range_of self.old).start + (range_of self.old).size)) (L.shows link.old) (L.shows link.new) }
        ensures asked { AsksOnly (is_read_inside path.now (inside (range_of self.old) ∷ [])) (L.shows link.old).asked
            (L.shows link.new).asked }
    {
        if self.pages == 0 {
            return Err(ChunkFault::BadData);
        }
        self.pages -= 1;
        self.stretch.take(self.body);
        self.body = 0;
        let head = next_header(alloc, &mut self.stretch, link, path)?;
        let size = head.compressed_size.get() as usize;
        if !self.stretch.look_ahead(link, path, size)? {
            return Err(ChunkFault::BadData);
        }
        let body = &self.stretch.pending()[..size];
        self.taker.take_page(alloc, &mut self.page, &head, body)?;
        self.body = size;
        Ok(())
    }

    /// Appends the next triplets of the page that is read.
    ///
    /// Errors: its body spells no page of the chunk; want of memory. The column is then as it was, and no page is read.
    fn read_page(
        &mut self,
        alloc: Global,
        most: usize,
        out: &mut Column,
    ) -> Result<usize, ChunkFault>
        requires unrefused { refused_of self.old ≡ None }
        requires form { column_form out.old ≡ reader_form self.old }
        requires some { 0 < most }
        requires left { 0 < reading.left_of (self.old).page }
        ensures takes { OverTaking self.old (λ l wanted bytes given.
            OnOk result (TakesMore l wanted bytes given (column_view out.old) (column_view out.new) self.new)) }
        ensures bad { OverTaking self.old (λ l wanted bytes given. result ≡ Err ChunkFault.BadData
            → pages_triplets l wanted (chunk_of bytes (range_of self.old)) ≡ None) }
        ensures longer { IfOk result (λ n. Lengthens (column_view out.old) (column_view out.new) n) }
        ensures left { IfOk result (λ n. n + left_of self.new ≡ left_of self.old) }
        ensures most { IfOk result (λ n. n ≤ most) }
        ensures some { IfOk result (λ n. 0 < n) }
        ensures stays { OnErr result (column_view out.new ≡ column_view out.old) }
        ensures form { column_form out.new ≡ column_form out.old }
        ensures reader_form { reader_form self.new ≡ reader_form self.old }
        ensures range { range_of self.new ≡ range_of self.old }
        ensures unrefused { refused_of self.new ≡ None }
        ensures calm { result ≢ Err ChunkFault.Failed }
    {
        let body = &self.stretch.pending()[..self.body];
        match self.page.next(self.taker.dictionary(), body, most, out) {
            Ok(count) => Ok(count),
            Err(fault) => {
                self.page = PageReader::new(alloc);
                Err(ChunkFault::from(fault))
            }
        }
    }
}
