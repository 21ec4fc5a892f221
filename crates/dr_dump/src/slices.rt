//! The columns of a file's leaves, some records at a time.

ghost use Rattle.std.specs.Prelude.{◌≡◌, [], List, length, Option, Some, IfOk};
ghost use Rattle.dr_meaning.specs.Path.{Leaf};
ghost use Rattle.dr_levels.specs.Views.{columns_view};
ghost use Rattle.dr_outside.specs.Link.{Files};
ghost use Rattle.dr_file.specs.OpenedFiles.{leaf_count};
ghost use Rattle.dr_scan.specs.FileRecords.{IsColumnsFault};
ghost use Rattle.dr_dump.specs.Leaves.{ReadsLeaf, ReadsLeaves, OverTakenAt, IsTakenAt};
ghost use Rattle.dr_dump.specs.Slices.{AreBehind, AreTaken, OverBehind};

use crate::leaf_records::LeafRecords;
use dr_file::{FileFault, Opened};
use dr_levels::Column;
use dr_memory::NoMemory;
use dr_outside::Link;
use std::alloc::Global;

/// Each of so many leaves that a file was opened for, before its first triplet.
///
/// Errors: want of memory alone.
pub(crate) fn leaf_records<'f>(
    alloc: Global,
    file: &'f Opened,
    leaves: usize,
) -> Result<Vec<LeafRecords<'f>>, NoMemory>
    requires { leaves ≡ leaf_count file.now }
    ensures { (held : Option Files) (F : List Leaf) → length F ≡ leaves
        → IfOk result (λ v. AreBehind held file.now F [] v.items) }
{
    let mut records = Vec::with_capacity(alloc, leaves)?;
    'leaves: for index in 0..leaves {
        records.push(LeafRecords::start(alloc, file, index)?)?;
    }
    Ok(records)
}

/// The triplets of the next so many records of the leaf at an index, or of those that are left.
///
/// Errors: as `LeafRecords::take`.
fn take_at<L: Link>(
    alloc: Global,
    link: &mut L,
    leaves: &mut Vec<LeafRecords<'_>>,
    index: usize,
    records: u64,
) -> Result<Column, FileFault>
    ensures taken { OverTakenAt (L.shows link.old) (leaves.old).items index (λ o F l x front. IfOk result
        (IsTakenAt (L.shows link.old).held o F l front records x index leaves.old leaves.new)) }
    ensures reads { OverTakenAt (L.shows link.old) (leaves.old).items index (λ o F l x front.
        ReadsLeaf o F l result (L.shows link.old) (L.shows link.new)) }
{
    match leaves.get_mut(index) {
        Some(leaf) => leaf.take(alloc, link, records),
        None => Err(FileFault::NoMemory),
    }
}

/// The columns of the next so many records, or of those that are left of each leaf.
///
/// Errors: the link failed, with its counts of faults before and after this call; `BadData` where one leaf's chunks
/// spell no column of any records; want of memory.
pub(crate) fn take_slice<L: Link>(
    alloc: Global,
    link: &mut L,
    leaves: &mut Vec<LeafRecords<'_>>,
    records: u64,
) -> Result<Vec<Column>, FileFault>
    ensures taken { OverBehind (L.shows link.old) (leaves.old).items (λ o F R. IfOk result (λ v.
        AreTaken (L.shows link.old).held o F R records (length F) (leaves.old).items (leaves.new).items
        (columns_view v.items))) }
    ensures reads { OverBehind (L.shows link.old) (leaves.old).items (λ o F R.
        ReadsLeaves o F F (λ bytes. IsColumnsFault bytes F) result (L.shows link.old) (L.shows link.new)) }
{
    let mut columns = Vec::new(alloc);
    'leaves: for index in 0..leaves.len() {
        match take_at(alloc, link, leaves, index, records) {
            Ok(column) => match columns.push(column) {
                Ok(()) => {}
                Err(_) => return Err(FileFault::NoMemory),
            },
            Err(fault) => return Err(fault),
        }
    }
    Ok(columns)
}
