//! The column of a leaf of an opened file, a batch at a time.

ghost use Rattle.std.specs.Prelude.{◌≡◌, true};
ghost use Rattle.dr_nested.specs.Views.{kind_view};
ghost use Rattle.dr_levels.specs.Views.{column_form, form};
ghost use Rattle.dr_file.specs.Fields.{telling_view, itself, is_lower};
ghost use Rattle.dr_file.specs.LeafStreams as leaf_stream;
ghost use Rattle.dr_file.specs.OpenedFiles.{told_chunk_fault};
ghost use Rattle.dr_file.specs.LeafStreams.{IsLeafOfFile};

use crate::file_fault::FileFault;
use crate::leaf_stream::{BATCH, LeafStream};
use crate::opened::Opened;
use crate::opened_field::{OpenedField, Telling};
use crate::telling::{push_outline, push_rows};
use dr_chunk::ChunkFault;
use dr_levels::{Column, Levels};
use dr_memory::NoMemory;
use dr_nested::Kind;
use dr_outside::{Cause, Link};
use std::alloc::Global;

/// A fault of a leaf's chunks as that of a file, where the link's count of faults was so great before and after.
fn file_fault(fault: ChunkFault, before: u64, after: u64) -> FileFault
    ensures { result ≡ told_chunk_fault fault before after }
{
    match fault {
        ChunkFault::NoMemory => FileFault::NoMemory,
        ChunkFault::Failed => FileFault::Why(Cause::ReadFailed { before, after }),
        ChunkFault::BadData => FileFault::Why(Cause::BadData),
    }
}

/// The column of a leaf of an opened file, from the next triplet on. Beside the dictionary's values it holds one page
/// body with what is read ahead behind it, and a batch of the leaf that stands in, if one does.
#[derive(Drop)]
pub struct Stream<'f> {
    file: &'f Opened,
    field: &'f OpenedField,
    /// The leaf that is read.
    leaf: LeafStream<'f>,
    /// The kind of the columns that it fills.
    kind: Kind,
    /// Their greatest definition level.
    greatest: u8,
    /// How many rows have yet to come of a leaf that the records lack.
    rows: u64,
    /// A batch of the leaf that stands in.
    batch: Column,
    /// What it refused, and refuses from then on.
    refused: Option<FileFault>,
    ghost of_file: { IsLeafOfFile file.now field.now leaf },
    ghost own: { telling_view (field.now).telling ≡ itself
        → form (kind_view kind) greatest ≡ leaf_stream.stream_form leaf },
    ghost lower: { is_lower (field.now).telling greatest ≡ true },
    ghost batch_form: { column_form batch ≡ leaf_stream.stream_form leaf },
}

impl<'f> Stream<'f> {
    ghost use Rattle.std.specs.Prelude.{◌≢◌, ◌≤◌, ◌<◌, ◌∷◌, [], ℕ, List, length, false, Some, None, Ok, Err, IfOk, IfErr, OnOk, OnErr};
    ghost use Rattle.dr_meaning.specs.Path.{Leaf, max_definition};
    ghost use Rattle.dr_meaning.specs.Column.{Triplet};
    ghost use Rattle.dr_formats.specs.File.{Footer, footer_of, most_triplets, bad_data};
    ghost use Rattle.dr_formats.specs.Opening.{leaf_cause};
    ghost use Rattle.dr_levels.specs.Views.{column_view};
    ghost use Rattle.dr_outside.specs.Telling.{AsksOnly};
    ghost use Rattle.dr_outside.specs.Leaving.{LeavesLink, ServesUntil};
    ghost use Rattle.dr_chunk.specs.Ranges.{is_read_inside};
    ghost use Rattle.dr_chunk.specs.Taking.{BeginWith};
    ghost use Rattle.dr_file.specs.Asking.{is_for_path, AsksForLeaves};
    ghost use Rattle.dr_file.specs.Fields.{nulls, outlined};
    ghost use Rattle.dr_file.specs.OpenedFiles.{IsColumnFault, leaf_count, path_of, OverLeafAt, OverLeafByFooter};
    ghost use Rattle.dr_file.specs.Leaving.{LeavesLinkCounted, ServesOpened};
    ghost use Rattle.dr_file.specs.Streams.{IsOfLeaf, IsStreamOf, StreamGoesOn, file_of, field_of, telling_of, ranges_of, stream_form, left_of, triplets_named, held_of, refused_of, fault_of, Fills, Reads, OverStream};

    /// The column of the leaf at an index of those that the file was opened for, before its first triplet. Nothing is
    /// read yet.
    ///
    /// Errors: want of memory alone.
    pub fn start(alloc: Global, file: &'f Opened, index: usize) -> Result<Stream<'f>, NoMemory>
        requires { index < leaf_count file.now }
        ensures begun { OverLeafAt file.now index (λ bytes l. IfOk result (IsStreamOf bytes l [])) }
        ensures form { OverLeafAt file.now index (λ bytes l.
            IfOk result (λ s. stream_form s ≡ form l.kind (max_definition l.path))) }
        ensures file { IfOk result (λ s. file_of s ≡ file.now) }
        ensures few { IfOk result (λ s. left_of s ≤ most_triplets) }
        // As many may come as the footer names for the leaf.
        ensures left { OverLeafByFooter file.now index (λ f l. IfOk result (λ s. left_of s ≡ triplets_named f l)) }
        ensures refused { IfOk result (λ s. refused_of s ≡ None) }
    {
        let field = &file.leaves[index];
        let leaf = LeafStream::start(alloc, &file.path, file.footer, &field.read)?;
        let (kind, greatest) = field.form(leaf.max_definition());
        let batch = Column::new(alloc, field.read.kind, leaf.max_definition());
        Ok(Stream {
            file,
            field,
            leaf,
            kind,
            greatest,
            rows: file.rows,
            batch,
            refused: None,
        })
    }

    /// An empty column of the leaf.
    pub fn column(&self, alloc: Global) -> Column
        ensures empty { column_view result ≡ [] }
        ensures form { column_form result ≡ stream_form self.now }
    {
        Column::new(alloc, self.kind, self.greatest)
    }

    /// Appends the next triplets to a column of the leaf, 1 to 1,024 of them; false where all were given. The link is
    /// asked for bytes of the leaf's own chunks, or of those of the leaf that stands in for it.
    ///
    /// Errors: the link failed, with its counts of faults before and after this call; `BadData` where these chunks
    /// spell no column of any records; want of memory. The column is then as it was. A stream repeats its refusal from
    /// then on, with the counts of the first, and asks for nothing.
    pub fn next<L: Link>(
        &mut self,
        alloc: Global,
        link: &mut L,
        out: &mut Column,
    ) -> Result<bool, FileFault>
        requires { column_form out.old ≡ stream_form self.old }
        // What was given goes on by what joined the column; where nothing did, it was the leaf's column.
        ensures more { OverStream (L.shows link.old) self.old (λ bytes l given.
            IfOk result (StreamGoesOn bytes l given (column_view out.old) (column_view out.new) self.new)) }
        ensures cause { OverStream (L.shows link.old) self.old (λ bytes l given.
            IfErr result (λ e. IsColumnFault e (leaf_cause bytes l))) }
        // Whatever the bytes: how many joined the column, which begins with what it was.
        ensures fills { IfOk result (λ some. Fills some (length (column_view out.old)) (length (column_view out.new))
            (left_of self.old) (left_of self.new)) }
        ensures front { OnOk result (BeginWith (column_view out.old) (column_view out.new)) }
        ensures stays { OnErr result (column_view out.new ≡ column_view out.old) }
        ensures form { column_form out.new ≡ column_form out.old }
        ensures stream_form { stream_form self.new ≡ stream_form self.old }
        ensures file { file_of self.new ≡ file_of self.old }
        ensures leaf { (bytes : List ℕ) (l : Leaf) → IsOfLeaf bytes l self.old → IsOfLeaf bytes l self.new }
        ensures asked { (bytes : List ℕ) (l : Leaf) (f : Footer) → IsOfLeaf bytes l self.old
            → footer_of bytes ≡ Some f
            → AsksForLeaves f (l ∷ []) (path_of (file_of self.old)) (L.shows link.old) (L.shows link.new) }
        ensures paths { AsksOnly (is_for_path (path_of (file_of self.old))) (L.shows link.old).asked
            (L.shows link.new).asked }
        ensures link { refused_of self.old ≡ None
            → LeavesLinkCounted result (ServesOpened (L.shows link.old) (file_of self.old)) (L.shows link.old)
            (L.shows link.new) }
        // A refusal is one from then on.
        ensures refused { refused_of self.new ≡ fault_of result }
        ensures again { (e : FileFault) → refused_of self.old ≡ Some e → (result ≡ Err e)
            × (L.shows link.new ≡ L.shows link.old) }
    {
        if let Some(fault) = self.refused {
            return Err(fault);
        }
        let before = link.faults();
        match self.give(alloc, link, out) {
            Ok(some) => Ok(some),
            Err(fault) => {
                let fault = file_fault(fault, before, link.faults());
                self.refused = Some(fault);
                Err(fault)
            }
        }
    }

    /// How many bytes of the file it holds beside the dictionary's values: those of the dictionary's page body, and of
    /// the page body that it reads.
    pub fn held(&self) -> u64
        ensures { result ≡ held_of self.now }
    {
        self.leaf.held()
    }

    /// As `next`, for a stream that refused nothing.
    fn give<L: Link>(
        &mut self,
        alloc: Global,
        link: &mut L,
        out: &mut Column,
    ) -> Result<bool, ChunkFault>
        requires { column_form out.old ≡ stream_form self.old }
        ensures more { OverStream (L.shows link.old) self.old (λ bytes l given.
            IfOk result (StreamGoesOn bytes l given (column_view out.old) (column_view out.new) self.new)) }
        ensures bad { OverStream (L.shows link.old) self.old (λ bytes l given.
            result ≡ Err ChunkFault.BadData → leaf_cause bytes l ≡ Some bad_data) }
        ensures fills { IfOk result (λ some. Fills some (length (column_view out.old)) (length (column_view out.new))
            (left_of self.old) (left_of self.new)) }
        ensures front { OnOk result (BeginWith (column_view out.old) (column_view out.new)) }
        ensures stays { OnErr result (column_view out.new ≡ column_view out.old) }
        ensures form { column_form out.new ≡ column_form out.old }
        ensures stream_form { stream_form self.new ≡ stream_form self.old }
        ensures file { file_of self.new ≡ file_of self.old }
        ensures field { field_of self.new ≡ field_of self.old }
        ensures refused { refused_of self.new ≡ refused_of self.old }
        ensures link { LeavesLink result ChunkFault.Failed (ServesUntil (L.shows link.old)
            (path_of (file_of self.old)) (file_of self.old).footer) (L.shows link.old) (L.shows link.new) }
        ensures asked { AsksOnly (is_read_inside (path_of (file_of self.old)) (ranges_of self.old))
            (L.shows link.old).asked (L.shows link.new).asked }
    {
        match self.field.telling {
            Telling::Itself => self.give_own(alloc, link, out),
            Telling::Nulls => self.give_rows(out),
            Telling::Outline(most) => self.give_outline(alloc, link, most, out),
        }
    }

    /// As `give`, where the leaf itself is read.
    fn give_own<L: Link>(
        &mut self,
        alloc: Global,
        link: &mut L,
        out: &mut Column,
    ) -> Result<bool, ChunkFault>
        requires told { telling_of self.old ≡ itself }
        requires form { column_form out.old ≡ stream_form self.old }
        ensures more { OverStream (L.shows link.old) self.old (λ bytes l given.
            IfOk result (StreamGoesOn bytes l given (column_view out.old) (column_view out.new) self.new)) }
        ensures bad { OverStream (L.shows link.old) self.old (λ bytes l given.
            result ≡ Err ChunkFault.BadData → leaf_cause bytes l ≡ Some bad_data) }
        ensures fills { IfOk result (λ some. Fills some (length (column_view out.old)) (length (column_view out.new))
            (left_of self.old) (left_of self.new)) }
        ensures front { OnOk result (BeginWith (column_view out.old) (column_view out.new)) }
        ensures stays { OnErr result (column_view out.new ≡ column_view out.old) }
        ensures form { column_form out.new ≡ column_form out.old }
        ensures stream_form { stream_form self.new ≡ stream_form self.old }
        ensures file { file_of self.new ≡ file_of self.old }
        ensures field { field_of self.new ≡ field_of self.old }
        ensures refused { refused_of self.new ≡ refused_of self.old }
        ensures link { LeavesLink result ChunkFault.Failed (ServesUntil (L.shows link.old)
            (path_of (file_of self.old)) (file_of self.old).footer) (L.shows link.old) (L.shows link.new) }
        ensures asked { AsksOnly (is_read_inside (path_of (file_of self.old)) (ranges_of self.old))
            (L.shows link.old).asked (L.shows link.new).asked }
    {
        Ok(self.leaf.next(alloc, link, out)? > 0)
    }

    /// As `give`, where the records lack the leaf.
    fn give_rows(&mut self, out: &mut Column) -> Result<bool, ChunkFault>
        requires told { telling_of self.old ≡ nulls }
        requires form { column_form out.old ≡ stream_form self.old }
        ensures more { (bytes : List ℕ) (l : Leaf) (given : List Triplet) → IsStreamOf bytes l given self.old
            → IfOk result (StreamGoesOn bytes l given (column_view out.old) (column_view out.new) self.new) }
        ensures fills { IfOk result (λ some. Fills some (length (column_view out.old)) (length (column_view out.new))
            (left_of self.old) (left_of self.new)) }
        ensures front { OnOk result (BeginWith (column_view out.old) (column_view out.new)) }
        ensures stays { OnErr result (column_view out.new ≡ column_view out.old) }
        ensures form { column_form out.new ≡ column_form out.old }
        ensures stream_form { stream_form self.new ≡ stream_form self.old }
        ensures file { file_of self.new ≡ file_of self.old }
        ensures field { field_of self.new ≡ field_of self.old }
        ensures refused { refused_of self.new ≡ refused_of self.old }
        ensures calm { (result ≢ Err ChunkFault.Failed) × (result ≢ Err ChunkFault.BadData) }
    {
        let count = (BATCH as u64).min(self.rows);
        match push_rows(out, count as usize) {
            Ok(()) => {
                self.rows -= count;
                Ok(count > 0)
            }
            Err(NoMemory) => Err(ChunkFault::NoMemory),
        }
    }

    /// As `give`, where another leaf stands in, of which a NULL is told up to these levels.
    fn give_outline<L: Link>(
        &mut self,
        alloc: Global,
        link: &mut L,
        most: Levels,
        out: &mut Column,
    ) -> Result<bool, ChunkFault>
        requires told { telling_of self.old ≡ outlined most.repetition most.definition }
        requires form { column_form out.old ≡ stream_form self.old }
        ensures more { OverStream (L.shows link.old) self.old (λ bytes l given.
            IfOk result (StreamGoesOn bytes l given (column_view out.old) (column_view out.new) self.new)) }
        ensures bad { OverStream (L.shows link.old) self.old (λ bytes l given.
            result ≡ Err ChunkFault.BadData → leaf_cause bytes l ≡ Some bad_data) }
        ensures fills { IfOk result (λ some. Fills some (length (column_view out.old)) (length (column_view out.new))
            (left_of self.old) (left_of self.new)) }
        ensures front { OnOk result (BeginWith (column_view out.old) (column_view out.new)) }
        ensures stays { OnErr result (column_view out.new ≡ column_view out.old) }
        ensures form { column_form out.new ≡ column_form out.old }
        ensures stream_form { stream_form self.new ≡ stream_form self.old }
        ensures file { file_of self.new ≡ file_of self.old }
        ensures field { field_of self.new ≡ field_of self.old }
        ensures refused { refused_of self.new ≡ refused_of self.old }
        ensures link { LeavesLink result ChunkFault.Failed (ServesUntil (L.shows link.old)
            (path_of (file_of self.old)) (file_of self.old).footer) (L.shows link.old) (L.shows link.new) }
        ensures asked { AsksOnly (is_read_inside (path_of (file_of self.old)) (ranges_of self.old))
            (L.shows link.old).asked (L.shows link.new).asked }
    {
        let before = out.len();
        'batches: loop {
            if !self.tell_batch(alloc, link, most, out)? {
                return Ok(false);
            }
            if out.len() > before {
                return Ok(true);
            }
        }
    }

    /// Reads a batch of the leaf that stands in, and appends its outline, which may be empty; false where all was read.
    fn tell_batch<L: Link>(
        &mut self,
        alloc: Global,
        link: &mut L,
        most: Levels,
        out: &mut Column,
    ) -> Result<bool, ChunkFault>
        requires told { telling_of self.old ≡ outlined most.repetition most.definition }
        requires form { column_form out.old ≡ stream_form self.old }
        ensures more { OverStream (L.shows link.old) self.old (λ bytes l given.
            IfOk result (StreamGoesOn bytes l given (column_view out.old) (column_view out.new) self.new)) }
        ensures bad { OverStream (L.shows link.old) self.old (λ bytes l given.
            result ≡ Err ChunkFault.BadData → leaf_cause bytes l ≡ Some bad_data) }
        ensures reads { IfOk result (λ some. Reads some (column_view out.old) (column_view out.new) (left_of self.old)
            (left_of self.new)) }
        ensures stays { OnErr result (column_view out.new ≡ column_view out.old) }
        ensures form { column_form out.new ≡ column_form out.old }
        ensures stream_form { stream_form self.new ≡ stream_form self.old }
        ensures file { file_of self.new ≡ file_of self.old }
        ensures field { field_of self.new ≡ field_of self.old }
        ensures refused { refused_of self.new ≡ refused_of self.old }
        ensures link { LeavesLink result ChunkFault.Failed (ServesUntil (L.shows link.old)
            (path_of (file_of self.old)) (file_of self.old).footer) (L.shows link.old) (L.shows link.new) }
        ensures asked { AsksOnly (is_read_inside (path_of (file_of self.old)) (ranges_of self.old))
            (L.shows link.old).asked (L.shows link.new).asked }
    {
        self.batch.clear();
        if self.leaf.next(alloc, link, &mut self.batch)? == 0 {
            return Ok(false);
        }
        match push_outline(out, most, &self.batch) {
            Ok(()) => Ok(true),
            Err(NoMemory) => Err(ChunkFault::NoMemory),
        }
    }
}
