//! The lines of the records of an opened file, of which the columns of some records are held at a time.

ghost use Rattle.std.specs.Prelude.{◌≡◌, ◌≢◌, map, length, Err, OnOk, string_bytes};
ghost use Rattle.std.specs.List.{list_all};
ghost use Rattle.dr_nested.specs.Views.{fields_view};
ghost use Rattle.dr_nested.specs.SchemaView.{schema_view};
ghost use Rattle.dr_nested.specs.PathView.{path_view};
ghost use Rattle.dr_file.specs.OpenedFiles.{leaf_count};
ghost use Rattle.dr_scan.specs.FileRecords.{AreLeavesOf, IsFaultOf};
ghost use Rattle.dr_dump.specs.Leaves.{ReadsLeaves};
ghost use Rattle.dr_dump.specs.Lines.{is_passed as meant_passed, PrintsOpened, PrintsSome};

use crate::leaf_records::LeafRecords;
use crate::slices::{leaf_records, take_slice};
use dr_assemble::push_lines;
use dr_file::{FileFault, Opened};
use dr_levels::Column;
use dr_memory::NoMemory;
use dr_nested::{Path, Schema};
use dr_outside::{Cause, Link};
use dr_scan::file_fault;
use std::alloc::Global;

/// The most records of a slice.
const MOST_RECORDS: u64 = 1_024;

/// The triplets of a slice from which on the next one has fewer records.
const MANY_TRIPLETS: usize = 4_096;

/// How many records the next slice has at most, where the last one had so many at most, and these columns: twice as
/// many up to 1,024, or one where it had many triplets.
fn next_size(size: u64, columns: &[Column]) -> u64 {
    let mut triplets = 0usize;
    'columns: for column in columns {
        triplets = triplets.saturating_add(column.len());
    }
    if triplets > MANY_TRIPLETS {
        1
    } else {
        size.saturating_mul(2).min(MOST_RECORDS)
    }
}

/// Whether nothing is left of each leaf's batch.
fn are_passed(leaves: &[LeafRecords<'_>]) -> bool
    ensures { result ≡ list_all meant_passed leaves.now }
{
    leaves.iter().all(|leaf| leaf.is_passed())
}

/// Appends the lines of the records of an opened file, projected to these leaves, for which it was opened. Slice after
/// slice is read and printed, and no more of the file is held than a slice and a batch of each leaf.
///
/// Errors: the link failed, with its counts of faults before and after this call; `BadData` where the file is none of
/// any records for these leaves; want of memory. But for the last, the lines of some records may have joined the text.
pub(crate) fn push_opened<L: Link>(
    alloc: Global,
    link: &mut L,
    opened: &Opened,
    schema: &Schema,
    fields: &[Path],
    text: &mut String,
) -> Result<(), FileFault>
    requires leaves { AreLeavesOf (fields_view (schema.now).fields.items) (map path_view fields.now) }
    requires count { leaf_count opened.now ≡ length fields.now }
    ensures lines { OnOk result (PrintsOpened (schema_view schema.now) (map path_view fields.now)
        (L.shows link.old).held opened.now (string_bytes text.old) (string_bytes text.new)) }
    ensures some { result ≢ Err FileFault.NoMemory → PrintsSome (fields_view (schema.now).fields.items)
        (string_bytes text.old) (string_bytes text.new) }
    ensures reads { ReadsLeaves opened.now (map path_view fields.now) (map path_view fields.now)
        (λ bytes. IsFaultOf bytes (schema_view schema.now) (map path_view fields.now)) result (L.shows link.old)
        (L.shows link.new) }
{
    let mut leaves = match leaf_records(alloc, opened, fields.len()) {
        Ok(leaves) => leaves,
        Err(NoMemory) => return Err(FileFault::NoMemory),
    };
    let mut left = opened.rows();
    let mut size = 1u64;
    // No file has more slices.
    'slices: for _ in 0..u64::MAX {
        let records = size.min(left);
        let columns = match take_slice(alloc, link, &mut leaves, records) {
            Ok(columns) => columns,
            Err(fault) => return Err(fault),
        };
        match push_lines(alloc, text, schema, fields, &columns, records) {
            Ok(()) => {}
            Err(fault) => return Err(file_fault(fault)),
        }
        if left == 0 {
            if are_passed(&leaves) {
                return Ok(());
            }
            return Err(FileFault::Why(Cause::BadData));
        }
        left -= records;
        size = next_size(size, &columns);
    }
    Err(FileFault::NoMemory)
}
