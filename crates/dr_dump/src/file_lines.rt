//! The lines of the records of the file at a path.

ghost use Rattle.std.specs.Prelude.{◌≡◌, ◌≢◌, ◌≤◌, ℕ, List, [], map, true, Err, IfErr, OnOk, string_bytes};
ghost use Rattle.dr_formats.specs.Opening.{reader_ranges};
ghost use Rattle.dr_nested.specs.Views.{fields_view};
ghost use Rattle.dr_nested.specs.SchemaView.{schema_view};
ghost use Rattle.dr_nested.specs.PathView.{path_view};
ghost use Rattle.dr_outside.specs.Link.{Lacks};
ghost use Rattle.dr_outside.specs.Telling.{Tells, Serves, AsksOnly};
ghost use Rattle.dr_outside.specs.declared.cause.Cause.{Cause as ToldCause};
ghost use Rattle.dr_file.specs.Asking.{is_for_path, is_request_for};
ghost use Rattle.dr_file.specs.OpenedFiles.{is_read_fault};
ghost use Rattle.dr_file.specs.Leaving.{LeavesLinkCounted};
ghost use Rattle.dr_scan.specs.FileRecords.{AreLeavesOf, IsFaultOf};
ghost use Rattle.dr_file.specs.declared.file_fault.FileFault.{FileFault as Fault};
ghost use Rattle.dr_dump.specs.Lines.{PrintsFile};

use crate::slice_lines::push_opened;
use dr_file::{FileFault, Opened};
use dr_nested::{Path, Schema};
use dr_outside::Link;
use std::alloc::Global;

/// Appends the lines of the records of the file at a path, projected to these leaves of the schema. The link is asked
/// for the file's size, its two ends, the footer, and the chunks of these leaves.
///
/// Errors: the link failed, with its counts of faults before and after this call; else the first cause for which the
/// file is none of any records for these leaves; want of memory. But for the last, the text is as it was.
pub(crate) fn push_file<L: Link>(
    alloc: Global,
    link: &mut L,
    path: &str,
    schema: &Schema,
    fields: &[Path],
    text: &mut String,
) -> Result<(), FileFault>
    requires { AreLeavesOf (fields_view (schema.now).fields.items) (map path_view fields.now) }
    ensures lines { OnOk result (PrintsFile (schema_view schema.now) (map path_view fields.now)
        (L.shows link.old).held path.now (string_bytes text.old) (string_bytes text.new)) }
    ensures stays { (cause : ToldCause) → result ≡ Err (Fault.Why cause) → string_bytes text.new
        ≡ string_bytes text.old }
    ensures cause { (bytes : List ℕ) → Tells (L.shows link.old) path.now bytes
        → IfErr result (IsFaultOf bytes (schema_view schema.now) (map path_view fields.now)) }
    ensures asked { (bytes : List ℕ) → Tells (L.shows link.old) path.now bytes
        → AsksOnly (is_request_for path.now (reader_ranges bytes (map path_view fields.now))) (L.shows link.old).asked
        (L.shows link.new).asked }
    ensures asked_absent { Lacks (L.shows link.old).held path.now
        → AsksOnly (is_request_for path.now []) (L.shows link.old).asked (L.shows link.new).asked }
    ensures paths { AsksOnly (is_for_path path.now) (L.shows link.old).asked (L.shows link.new).asked }
    ensures link { LeavesLinkCounted result (Serves (L.shows link.old) path.now) (L.shows link.old)
        (L.shows link.new) }
    ensures absent { Lacks (L.shows link.old).held path.now → result ≢ Err FileFault.NoMemory → is_read_fault result
        ≡ true }
    ensures never_falls { (L.shows link.old).faults ≤ (L.shows link.new).faults }
{
    let before = text.len();
    let opened = match Opened::start(alloc, link, path, fields) {
        Ok(opened) => opened,
        Err(fault) => return Err(fault),
    };
    match push_opened(alloc, link, &opened, schema, fields, text) {
        Ok(()) => Ok(()),
        Err(FileFault::NoMemory) => Err(FileFault::NoMemory),
        Err(FileFault::Why(cause)) => {
            text.truncate(before);
            Err(FileFault::Why(cause))
        }
    }
}
