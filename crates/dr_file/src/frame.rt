//! The two ends of a file, between which its footer lies.

ghost use Rattle.std.specs.Prelude.{◌≡◌, ◌≢◌, ◌≤◌, ◌-◌, ℕ, List, length, take, true, false, IfOk, IfSome, IfNone, Err, []};
ghost use Rattle.dr_formats.specs.LittleEndian.{little_endian};
ghost use Rattle.dr_formats.specs.File.{is_framed};
ghost use Rattle.dr_formats.specs.Opening.{end_ranges};
ghost use Rattle.dr_outside.specs.Telling.{Tells, AsksOnly, Serves};
ghost use Rattle.dr_outside.specs.Leaving.{LeavesLink};
ghost use Rattle.dr_file.specs.Asking.{is_for_path, is_request_for};
ghost use Rattle.dr_file.specs.Frames.{IsFrame, are_ends, outside_fault};
ghost use Rattle.dr_file.specs.declared.frame.FooterFault.TheVariants.{NoMemory as WantOfMemory};
ghost use Rattle.dr_outside.specs.Link.{Lacks};

use dr_bytes::Cut;
use dr_outside::{Fault, Link};
use std::alloc::AllocError;

/// What a file begins and ends with.
const MAGIC: &[u8; 4] = b"PAR1";

/// The bytes of the shortest file: two magics and the length of a footer.
const SHORTEST_FILE: u64 = 12;

/// Why no footer was read.
#[derive(Clone, Copy, PartialEq, Eq)]
pub(crate) enum FooterFault {
    NoMemory,
    /// The link failed.
    Failed,
    /// The file has no footer.
    BadFooter,
}

impl From<AllocError> for FooterFault {
    ghost from_gives = { λ _ fault. fault ≡ WantOfMemory };

    fn from(_: AllocError) -> FooterFault {
        FooterFault::NoMemory
    }
}

impl From<Fault> for FooterFault {
    ghost from_gives = { λ outside fault. fault ≡ outside_fault outside };

    fn from(fault: Fault) -> FooterFault {
        match fault {
            Fault::Failed => FooterFault::Failed,
            Fault::NoMemory => FooterFault::NoMemory,
        }
    }
}

/// Where the bytes of a footer lie in a file.
#[derive(Clone, Copy)]
pub(crate) struct Frame {
    /// The byte offset of the first.
    pub(crate) place: u64,
    pub(crate) length: usize,
}

/// Where a footer lies in a file of so many bytes, by its first four bytes and its last eight: the latter are the
/// footer's length and the magic. None where they are no ends of a file with a footer of this length.
fn frame_of(size: u64, front: &[u8], end: &[u8]) -> Option<Frame>
    requires size { 12 ≤ size }
    requires eight { length end.now ≡ 8 }
    ensures some { IfSome result (λ f. (are_ends size front.now end.now ≡ true)
        × (f.length ≡ little_endian (take 4 end.now)) × (f.place ≡ size - 8 - little_endian (take 4 end.now))) }
    ensures none { IfNone result (are_ends size front.now end.now ≡ false) }
{
    let mut cut = Cut::new(end);
    let length = u64::from(cut.le32().ok()?);
    if front == MAGIC.as_slice()
        && cut.rest() == MAGIC.as_slice()
        && length <= size - SHORTEST_FILE
    {
        Some(Frame {
            place: size - 8 - length,
            length: length as usize,
        })
    } else {
        None
    }
}

/// Where the footer of the file at a path lies.
///
/// Errors: the file's ends are no ends of a file with a footer; the link failed; want of memory.
pub(crate) fn read_frame<L: Link>(link: &mut L, path: &str) -> Result<Frame, FooterFault>
    ensures frame { (bytes : List ℕ) → Tells (L.shows link.old) path.now bytes
        → IfOk result (λ f. IsFrame bytes f.place f.length) }
    ensures bad { (bytes : List ℕ) → Tells (L.shows link.old) path.now bytes → result ≡ Err FooterFault.BadFooter
        → is_framed bytes ≡ false }
    ensures asked { (bytes : List ℕ) → Tells (L.shows link.old) path.now bytes
        → AsksOnly (is_request_for path.now (end_ranges bytes)) (L.shows link.old).asked (L.shows link.new).asked }
    ensures asked_absent { Lacks (L.shows link.old).held path.now
        → AsksOnly (is_request_for path.now []) (L.shows link.old).asked (L.shows link.new).asked }
    ensures paths { AsksOnly (is_for_path path.now) (L.shows link.old).asked (L.shows link.new).asked }
    ensures link { LeavesLink result FooterFault.Failed (Serves (L.shows link.old) path.now) (L.shows link.old)
        (L.shows link.new) }
    ensures absent { Lacks (L.shows link.old).held path.now → result ≢ Err FooterFault.NoMemory → result
        ≡ Err FooterFault.Failed }
{
    let size = link.size(path)?;
    if size < SHORTEST_FILE {
        return Err(FooterFault::BadFooter);
    }
    let mut front = [0; 4];
    link.read_at(path, 0, &mut front)?;
    let mut end = [0; 8];
    link.read_at(path, size - 8, &mut end)?;
    match frame_of(size, &front, &end) {
        Some(frame) => Ok(frame),
        None => Err(FooterFault::BadFooter),
    }
}
