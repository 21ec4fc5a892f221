//! The column of a leaf, some records at a time.

ghost use Rattle.std.specs.Prelude.{◌≡◌};
ghost use Rattle.dr_levels.specs.Views.{column_form};
ghost use Rattle.dr_file.specs.Streams.{stream_form};

use crate::append::append;
use crate::front::front_of;
use dr_file::{FileFault, Opened, Stream};
use dr_levels::{Column, Triplets};
use dr_memory::NoMemory;
use dr_outside::Link;
use std::alloc::Global;

/// The stream of a leaf of an opened file, what it gave last, and how much of that hasn't been taken.
#[derive(Drop)]
pub(crate) struct LeafRecords<'f> {
    pub(crate) stream: Stream<'f>,
    /// What the stream gave last.
    pub(crate) batch: Column,
    /// How many triplets of it are left, those at its end.
    pub(crate) left: usize,
    /// Whether nothing comes behind the batch.
    pub(crate) ended: bool,
    ghost form: { column_form batch ≡ stream_form stream },
}

impl<'f> LeafRecords<'f> {
    ghost use Rattle.std.specs.Prelude.{◌<◌, ◌++◌, [], List, Some, Option, IfOk, OnOk};
    ghost use Rattle.dr_levels.specs.Views.{column_view, triplets_form, triplets_view};
    ghost use Rattle.std.specs.List.{slice_get};
    ghost use Rattle.dr_meaning.specs.Path.{Leaf};
    ghost use Rattle.dr_outside.specs.Link.{Files};
    ghost use Rattle.dr_file.specs.OpenedFiles.{leaf_count};
    ghost use Rattle.dr_dump.specs.Leaves.{rest_of, IsLeafRecords, IsPassed, IsTaken, ReadsLeaf, OverLeafRecords, OverTaken};
    ghost use Rattle.dr_dump.specs.Lines.{is_passed as meant_passed};

    /// Before the first triplet of the leaf at an index of those that the file was opened for.
    ///
    /// Errors: want of memory alone.
    pub(crate) fn start(
        alloc: Global,
        file: &'f Opened,
        index: usize,
    ) -> Result<LeafRecords<'f>, NoMemory>
        requires { index < leaf_count file.now }
        ensures begun { (held : Option Files) (F : List Leaf) (l : Leaf) → slice_get F index ≡ Some l
            → IfOk result (IsLeafRecords held file.now F l []) }
        ensures none { IfOk result (λ x. rest_of x ≡ []) }
    {
        let stream = Stream::start(alloc, file, index)?;
        let batch = stream.column(alloc);
        Ok(LeafRecords {
            stream,
            batch,
            left: 0,
            ended: false,
        })
    }

    /// What is left of the batch.
    fn rest(&self) -> Triplets<'_>
        ensures rest { triplets_view result ≡ rest_of self.now }
        ensures form { triplets_form result ≡ stream_form (self.now).stream }
    {
        let passed = self.batch.len().saturating_sub(self.left);
        self.batch.triplets().split_at(passed).1
    }

    /// Whether nothing is left of the batch.
    pub(crate) fn is_passed(&self) -> bool
        ensures { result ≡ meant_passed self.now }
    {
        self.rest().len() == 0
    }

    /// The next batch in the place of the last one.
    ///
    /// Errors: the link failed, with its counts of faults before and after this call; `BadData` where the leaf's chunks
    /// spell no column of any records; want of memory.
    fn refill<L: Link>(&mut self, alloc: Global, link: &mut L) -> Result<(), FileFault>
        ensures filled { OverLeafRecords (L.shows link.old) self.old (λ o F l given.
            OnOk result (IsLeafRecords (L.shows link.old).held o F l (given ++ rest_of self.new) self.new)) }
        ensures reads { OverLeafRecords (L.shows link.old) self.old (λ o F l given.
            ReadsLeaf o F l result (L.shows link.old) (L.shows link.new)) }
        ensures form { stream_form (self.new).stream ≡ stream_form (self.old).stream }
    {
        self.batch.clear();
        self.left = 0;
        match self.stream.next(alloc, link, &mut self.batch) {
            Ok(some) => {
                self.left = self.batch.len();
                self.ended = !some;
                Ok(())
            }
            Err(fault) => Err(fault),
        }
    }

    /// Appends to a column what the batch has of so many records, which are so many fewer then. Answers whether the
    /// next record begins behind them in the batch, or nothing comes behind it.
    ///
    /// Errors: want of memory, or of room for texts.
    fn pass(&mut self, wanted: &mut u64, out: &mut Column) -> Result<bool, NoMemory>
        requires { stream_form (self.old).stream ≡ column_form out.old }
        ensures passed { IfOk result (IsPassed self.old self.new wanted.old wanted.new (column_view out.old)
            (column_view out.new)) }
        ensures form { column_form out.new ≡ column_form out.old }
        ensures stream { (self.new).stream ≡ (self.old).stream }
        ensures ended { (self.new).ended ≡ (self.old).ended }
    {
        let rest = self.rest();
        let front = front_of(rest.levels(), *wanted);
        let behind = rest.len() - front.length;
        append(rest.split_at(front.length).0, out)?;
        *wanted -= front.records;
        self.left = behind;
        Ok(behind > 0 || self.ended)
    }

    /// The triplets of the next so many records, or of those that are left.
    ///
    /// Errors: the link failed, with its counts of faults before and after this call; `BadData` where the leaf's chunks
    /// spell no column of any records; want of memory, or of room for texts.
    pub(crate) fn take<L: Link>(
        &mut self,
        alloc: Global,
        link: &mut L,
        records: u64,
    ) -> Result<Column, FileFault>
        ensures taken { OverTaken (L.shows link.old) self.old (λ o F l front. IfOk result (λ c.
            IsTaken (L.shows link.old).held o F l front records self.old self.new (column_view c))) }
        ensures reads { OverTaken (L.shows link.old) self.old (λ o F l front.
            ReadsLeaf o F l result (L.shows link.old) (L.shows link.new)) }
    {
        let mut column = self.stream.column(alloc);
        let mut wanted = records;
        // No file has more batches.
        'batches: for _ in 0..u64::MAX {
            match self.pass(&mut wanted, &mut column) {
                Ok(true) => return Ok(column),
                Ok(false) => {}
                Err(NoMemory) => return Err(FileFault::NoMemory),
            }
            match self.refill(alloc, link) {
                Ok(()) => {}
                Err(fault) => return Err(fault),
            }
        }
        Err(FileFault::NoMemory)
    }
}
