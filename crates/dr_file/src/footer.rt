//! A file's footer.

ghost use Rattle.std.specs.Prelude.{◌≡◌, ◌≢◌, ◌++◌, ℕ, List, false, IfOk, Err, []};
ghost use Rattle.dr_formats.specs.File.{is_framed};
ghost use Rattle.dr_formats.specs.Opening.{end_ranges, footer_ranges};
ghost use Rattle.dr_outside.specs.Telling.{Tells, AsksOnly, Serves};
ghost use Rattle.dr_outside.specs.Leaving.{LeavesLink};
ghost use Rattle.dr_file.specs.Asking.{is_for_path, is_request_for};
ghost use Rattle.dr_file.specs.Frames.{IsFooter};
ghost use Rattle.dr_outside.specs.Link.{Lacks};

use crate::frame::{FooterFault, read_frame};
use dr_outside::Link;
use std::alloc::Global;

/// The bytes of a file's footer.
#[derive(Drop)]
pub(crate) struct FooterBytes {
    /// The byte offset of the first.
    pub(crate) place: u64,
    pub(crate) bytes: Vec<u8>,
}

/// The footer of the file at a path, as its ends say where it lies.
///
/// Errors: the file's ends are no ends of a file with a footer; the link failed; want of memory.
pub(crate) fn read_footer<L: Link>(
    alloc: Global,
    link: &mut L,
    path: &str,
) -> Result<FooterBytes, FooterFault>
    ensures footer { (bytes : List ℕ) → Tells (L.shows link.old) path.now bytes
        → IfOk result (λ f. IsFooter bytes f.place f.bytes.items) }
    ensures bad { (bytes : List ℕ) → Tells (L.shows link.old) path.now bytes → result ≡ Err FooterFault.BadFooter
        → is_framed bytes ≡ false }
    ensures asked { (bytes : List ℕ) → Tells (L.shows link.old) path.now bytes
        → AsksOnly (is_request_for path.now (end_ranges bytes ++ footer_ranges bytes)) (L.shows link.old).asked
        (L.shows link.new).asked }
    ensures asked_absent { Lacks (L.shows link.old).held path.now
        → AsksOnly (is_request_for path.now []) (L.shows link.old).asked (L.shows link.new).asked }
    ensures paths { AsksOnly (is_for_path path.now) (L.shows link.old).asked (L.shows link.new).asked }
    ensures link { LeavesLink result FooterFault.Failed (Serves (L.shows link.old) path.now) (L.shows link.old)
        (L.shows link.new) }
    ensures absent { Lacks (L.shows link.old).held path.now → result ≢ Err FooterFault.NoMemory → result
        ≡ Err FooterFault.Failed }
{
    let frame = read_frame(link, path)?;
    let mut bytes = vec![in alloc; 0u8; frame.length]?;
    link.read_at(path, frame.place, &mut bytes)?;
    Ok(FooterBytes {
        place: frame.place,
        bytes,
    })
}
