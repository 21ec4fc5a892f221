//! Opening a file.

ghost use Rattle.std.specs.Prelude.{◌≡◌, ◌≢◌, ◌≤◌, ◌++◌, ℕ, List, map, IfOk, IfErr, Err, true, length, []};
ghost use Rattle.dr_formats.specs.File.{most_rows};
ghost use Rattle.dr_formats.specs.Opening.{opening_cause, end_ranges, footer_ranges};
ghost use Rattle.dr_nested.specs.PathView.{path_view};
ghost use Rattle.dr_outside.specs.Telling.{Tells, AsksOnly, Serves};
ghost use Rattle.dr_outside.specs.Leaving.{LeavesLink};
ghost use Rattle.dr_file.specs.Asking.{is_for_path, is_request_for};
ghost use Rattle.dr_file.specs.Openings.{IsOpenFault};
ghost use Rattle.dr_file.specs.OpenedFiles.{IsOpened, IsCauseOf, is_read_fault, told_fault, rows_of, path_of, leaf_count};
ghost use Rattle.dr_file.specs.Leaving.{LeavesLinkCounted};
ghost use Rattle.dr_outside.specs.Link.{Lacks};

use crate::fault::OpenFault;
use crate::file_fault::FileFault;
use crate::footer::read_footer;
use crate::opened::Opened;
use crate::opening::open_footer;
use dr_nested::Path;
use dr_outside::{Cause, Link};
use std::alloc::Global;

/// A fault of opening as that of a file, where the link's count of faults was so great before and after.
pub(crate) fn file_fault(fault: OpenFault, before: u64, after: u64) -> FileFault
    ensures { result ≡ told_fault fault before after }
{
    match fault {
        OpenFault::NoMemory => FileFault::NoMemory,
        OpenFault::Failed => FileFault::Why(Cause::ReadFailed { before, after }),
        OpenFault::BadFooter => FileFault::Why(Cause::BadFooter),
        OpenFault::BadSchema => FileFault::Why(Cause::BadSchema),
        OpenFault::BadCodec => FileFault::Why(Cause::BadCodec),
        OpenFault::BadData => FileFault::Why(Cause::BadData),
    }
}

/// The file at a path, opened for these leaves.
///
/// Errors: the link failed; else the first cause that the footer shows; want of memory.
fn open<L: Link>(
    alloc: Global,
    link: &mut L,
    path: &str,
    fields: &[Path],
) -> Result<Opened, OpenFault>
    ensures opened { (bytes : List ℕ) → Tells (L.shows link.old) path.now bytes
        → IfOk result (λ o. IsOpened bytes (map path_view fields.now) o) }
    ensures cause { (bytes : List ℕ) → Tells (L.shows link.old) path.now bytes → result ≢ Err OpenFault.Failed
        → IfErr result (λ e. IsOpenFault e (opening_cause bytes (map path_view fields.now))) }
    ensures path { IfOk result (λ o. path_of o ≡ path.now) }
    ensures count { IfOk result (λ o. leaf_count o ≡ length fields.now) }
    ensures asked { (bytes : List ℕ) → Tells (L.shows link.old) path.now bytes
        → AsksOnly (is_request_for path.now (end_ranges bytes ++ footer_ranges bytes)) (L.shows link.old).asked
        (L.shows link.new).asked }
    ensures asked_absent { Lacks (L.shows link.old).held path.now
        → AsksOnly (is_request_for path.now []) (L.shows link.old).asked (L.shows link.new).asked }
    ensures paths { AsksOnly (is_for_path path.now) (L.shows link.old).asked (L.shows link.new).asked }
    ensures link { LeavesLink result OpenFault.Failed (Serves (L.shows link.old) path.now) (L.shows link.old)
        (L.shows link.new) }
    ensures absent { Lacks (L.shows link.old).held path.now → result ≢ Err OpenFault.NoMemory → result
        ≡ Err OpenFault.Failed }
{
    let footer = read_footer(alloc, link, path)?;
    let (rows, leaves) = open_footer(alloc, &footer, fields)?;
    let path = String::from_str(alloc, path)?;
    Ok(Opened {
        path,
        footer: footer.place,
        rows,
        leaves,
    })
}

impl Opened {
    /// The file at a path, opened for these leaves of a schema: its footer is read, and nothing of its chunks. The link
    /// is asked for the file's size, its two ends, and the footer.
    ///
    /// Errors: the link failed, with its counts of faults before and after this call; else the first cause that the
    /// footer shows (`BadFooter`, `BadSchema`, `BadCodec`, or `BadData` where the numbers of rows or of triplets
    /// disagree or are too great); want of memory.
    pub fn start<L: Link>(
        alloc: Global,
        link: &mut L,
        path: &str,
        fields: &[Path],
    ) -> Result<Opened, FileFault>
        ensures opened { (bytes : List ℕ) → Tells (L.shows link.old) path.now bytes
            → IfOk result (λ o. IsOpened bytes (map path_view fields.now) o) }
        ensures cause { (bytes : List ℕ) → Tells (L.shows link.old) path.now bytes
            → IfErr result (λ e. IsCauseOf e (opening_cause bytes (map path_view fields.now))) }
        ensures path { IfOk result (λ o. path_of o ≡ path.now) }
        ensures count { IfOk result (λ o. leaf_count o ≡ length fields.now) }
        ensures asked { (bytes : List ℕ) → Tells (L.shows link.old) path.now bytes
            → AsksOnly (is_request_for path.now (end_ranges bytes ++ footer_ranges bytes)) (L.shows link.old).asked
            (L.shows link.new).asked }
        ensures asked_absent { Lacks (L.shows link.old).held path.now
            → AsksOnly (is_request_for path.now []) (L.shows link.old).asked (L.shows link.new).asked }
        ensures paths { AsksOnly (is_for_path path.now) (L.shows link.old).asked (L.shows link.new).asked }
        ensures link { LeavesLinkCounted result (Serves (L.shows link.old) path.now) (L.shows link.old)
            (L.shows link.new) }
        ensures absent { Lacks (L.shows link.old).held path.now → result ≢ Err FileFault.NoMemory → is_read_fault result
            ≡ true }
    {
        let before = link.faults();
        match open(alloc, link, path, fields) {
            Ok(opened) => Ok(opened),
            Err(fault) => Err(file_fault(fault, before, link.faults())),
        }
    }

    /// How many rows the file has.
    pub fn rows(&self) -> u64
        ensures rows { result ≡ rows_of self.now }
        ensures few { result ≤ most_rows }
    {
        self.rows
    }
}
