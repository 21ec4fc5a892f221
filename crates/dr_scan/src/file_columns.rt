//! Reading the columns of a file.

ghost use Rattle.std.specs.Prelude.{◌≡◌, ◌≢◌, ◌≤◌, ℕ, List, length, map, true, IfOk, IfErr, Err, Some, []};
ghost use Rattle.std.specs.List.{flat_map};
ghost use Rattle.dr_meaning.specs.Path.{Leaf};
ghost use Rattle.dr_meaning.specs.Schema.{Schema as MeantSchema};
ghost use Rattle.dr_formats.specs.File.{Footer, footer_of, leaves_read, most_rows};
ghost use Rattle.dr_formats.specs.Opening.{leaf_ranges, reader_ranges};
ghost use Rattle.dr_formats.specs.Writing.{triplet_count};
ghost use Rattle.dr_nested.specs.PathView.{path_view};
ghost use Rattle.dr_levels.specs.Views.{columns_view};
ghost use Rattle.dr_outside.specs.Link.{Lacks};
ghost use Rattle.dr_outside.specs.Telling.{Tells, Serves, AsksOnly};
ghost use Rattle.dr_chunk.specs.Ranges.{is_read_inside};
ghost use Rattle.dr_file.specs.Asking.{is_for_path, is_request_for};
ghost use Rattle.dr_file.specs.OpenedFiles.{IsOpened, is_read_fault, leaf_count, path_of};
ghost use Rattle.dr_file.specs.Leaving.{LeavesLinkCounted, ServesOpened};
ghost use Rattle.dr_table.specs.Counting.{counted};
ghost use Rattle.dr_scan.specs.FileRecords.{AreLeavesOf, IsFaultOf, AreColumnsOf, AreColumnsOfFile, IsColumnsFault, are_short};

use dr_file::{FileFault, Opened};
use dr_levels::Column;
use dr_nested::Path;
use dr_outside::Link;
use dr_table::Steps;
use std::alloc::Global;

/// The columns of some leaves in a file, in the order of the leaves, and how many records the file has.
#[derive(Drop)]
pub struct FileColumns {
    pub columns: Vec<Column>,
    pub rows: u64,
}

/// The columns of all leaves that a file was opened for. A step is a triplet.
///
/// Errors: the link failed, with its counts of faults before and after this call; `BadData` where one leaf's chunks
/// spell no column of any records; want of memory.
fn read_columns<L: Link>(
    alloc: Global,
    link: &mut L,
    opened: &Opened,
    leaves: usize,
    steps: &mut Steps,
) -> Result<Vec<Column>, FileFault>
    requires { leaves ≡ leaf_count opened.now }
    ensures columns { (bytes : List ℕ) (F : List Leaf) → IsOpened bytes F opened.now → length F ≡ leaves
        → Tells (L.shows link.old) (path_of opened.now) bytes
        → IfOk result (λ v. AreColumnsOf bytes F (columns_view v.items)) }
    ensures cause { (bytes : List ℕ) (F : List Leaf) → IsOpened bytes F opened.now → length F ≡ leaves
        → Tells (L.shows link.old) (path_of opened.now) bytes → IfErr result (IsColumnsFault bytes F) }
    ensures lengths { IfOk result (λ v. length v.items ≡ leaves) }
    ensures few { IfOk result (λ v. are_short (columns_view v.items) ≡ true) }
    ensures counted { IfOk result (λ v. steps.new ≡ counted steps.old (triplet_count (columns_view v.items))) }
    ensures asked { (bytes : List ℕ) (F : List Leaf) (f : Footer) → IsOpened bytes F opened.now → length F ≡ leaves
        → footer_of bytes ≡ Some f
        → AsksOnly (is_read_inside (path_of opened.now) (flat_map (leaf_ranges f) (leaves_read f F)))
        (L.shows link.old).asked (L.shows link.new).asked }
    ensures paths { AsksOnly (is_for_path (path_of opened.now)) (L.shows link.old).asked (L.shows link.new).asked }
    ensures link { LeavesLinkCounted result (ServesOpened (L.shows link.old) opened.now) (L.shows link.old)
        (L.shows link.new) }
{
    let mut columns = Vec::new(alloc);
    let mut triplets = 0u64;
    'leaves: for index in 0..leaves {
        let column = opened.column(alloc, link, index)?;
        triplets = triplets.saturating_add(column.len() as u64);
        match columns.push(column) {
            Ok(()) => {}
            Err(_) => return Err(FileFault::NoMemory),
        }
    }
    steps.add(triplets);
    Ok(columns)
}

/// The columns of these leaves in the file at a path. The link is asked for the file's size, its two ends, the footer,
/// and the chunks of these leaves, or of those that stand in for them. A step is a triplet of one of these leaves.
/// Whether there are records that have them all isn't looked into.
///
/// Errors, at which no step is counted: the link failed, with its counts of faults before and after this call; else a
/// cause that opening the file or a single leaf has; want of memory.
pub fn read_file_columns<L: Link>(
    alloc: Global,
    link: &mut L,
    path: &str,
    fields: &[Path],
    steps: &mut Steps,
) -> Result<FileColumns, FileFault>
    ensures columns { (bytes : List ℕ) (s : MeantSchema) → Tells (L.shows link.old) path.now bytes
        → IfOk result (λ v. AreColumnsOfFile bytes s (map path_view fields.now) (columns_view v.columns.items) v.rows) }
    ensures lengths { IfOk result (λ v. length v.columns.items ≡ length fields.now) }
    ensures cause { (bytes : List ℕ) (s : MeantSchema) → Tells (L.shows link.old) path.now bytes
        → AreLeavesOf s.fields (map path_view fields.now)
        → IfErr result (IsFaultOf bytes s (map path_view fields.now)) }
    ensures short { IfOk result (λ v. are_short (columns_view v.columns.items) ≡ true) }
    ensures few { IfOk result (λ v. v.rows ≤ most_rows) }
    ensures counted { IfOk result (λ v. steps.new
        ≡ counted steps.old (triplet_count (columns_view v.columns.items))) }
    ensures uncounted { IfErr result (λ e. steps.new ≡ steps.old) }
    ensures asked { (bytes : List ℕ) → Tells (L.shows link.old) path.now bytes
        → AsksOnly (is_request_for path.now (reader_ranges bytes (map path_view fields.now))) (L.shows link.old).asked
        (L.shows link.new).asked }
    ensures asked_absent { Lacks (L.shows link.old).held path.now
        → AsksOnly (is_request_for path.now []) (L.shows link.old).asked (L.shows link.new).asked }
    ensures paths { AsksOnly (is_for_path path.now) (L.shows link.old).asked (L.shows link.new).asked }
    ensures link { LeavesLinkCounted result (Serves (L.shows link.old) path.now) (L.shows link.old)
        (L.shows link.new) }
    ensures absent { Lacks (L.shows link.old).held path.now → result ≢ Err FileFault.NoMemory → is_read_fault result
        ≡ true }
    ensures never_falls { (L.shows link.old).faults ≤ (L.shows link.new).faults }
{
    let opened = Opened::start(alloc, link, path, fields)?;
    let mut read = Steps::new();
    let columns = read_columns(alloc, link, &opened, fields.len(), &mut read)?;
    steps.add(read.taken());
    Ok(FileColumns {
        columns,
        rows: opened.rows(),
    })
}
