//! Headers of pages.

ghost use Rattle.std.specs.Prelude.{◌≡◌, ◌≢◌, ◌≤◌, ◌+◌, ◌++◌, ◌∷◌, [], ℕ, List, length, drop, true, false, IfOk, IfErr, Err, IfSome, IfNone};
ghost use Rattle.dr_formats.specs.Reading.{got};
ghost use Rattle.dr_formats.specs.Chunk.{page_header};
ghost use Rattle.dr_meta.specs.Views.{page_view};
ghost use Rattle.dr_chunk.specs.Headers.{IsRefused, IsHeaderFault};
ghost use Rattle.dr_chunk.specs.Stretches.{rest_in, range_of};
ghost use Rattle.dr_outside.specs.Telling.{Tells, AsksOnly};
ghost use Rattle.dr_outside.specs.Leaving.{LeavesLink, ServesUntil};
ghost use Rattle.dr_chunk.specs.Ranges.{is_read_inside, inside};
ghost use Rattle.dr_chunk.specs.Faults.{compact_fault, meta_fault};

use crate::fault::ChunkFault;
use crate::stretch::Stretch;
use dr_compact::{CompactFault, read_struct};
use dr_meta::{MetaFault, PageHead, view_page};
use dr_outside::Link;
use std::alloc::Global;

/// How many bytes are read ahead at first for a page header. They are doubled while no struct is there.
const HEADER_AHEAD: u64 = 4_096;

/// Why bytes begin with no page header.
#[derive(Clone, Copy, PartialEq, Eq)]
pub(crate) enum HeaderFault {
    NoMemory,
    /// They begin with no struct; more bytes may spell one.
    NoStruct,
    /// They begin with a struct that is no page header.
    NoHeader,
}

impl From<CompactFault> for HeaderFault {
    ghost from_gives = { λ compact fault. fault ≡ compact_fault compact };

    fn from(fault: CompactFault) -> HeaderFault {
        match fault {
            CompactFault::NoMemory => HeaderFault::NoMemory,
            CompactFault::Malformed | CompactFault::TooDeep => HeaderFault::NoStruct,
        }
    }
}

impl From<MetaFault> for HeaderFault {
    ghost from_gives = { λ meta fault. fault ≡ meta_fault meta };

    fn from(fault: MetaFault) -> HeaderFault {
        match fault {
            MetaFault::NoMemory => HeaderFault::NoMemory,
            MetaFault::Missing(_) | MetaFault::Range(_) => HeaderFault::NoHeader,
        }
    }
}

/// The page header with which bytes begin, and how many bytes spell it.
///
/// Errors: they begin with no struct, or with one that is no page header; want of memory.
pub(crate) fn read_header(alloc: Global, bytes: &[u8]) -> Result<(PageHead, usize), HeaderFault>
    ensures header { IfOk result (λ r. (more : List ℕ) → page_header (bytes.now ++ more)
        ≡ got (page_view r.0) (drop r.1 (bytes.now ++ more))) }
    ensures within { IfOk result (λ r. r.1 ≤ length bytes.now) }
    ensures fault { IfErr result (λ e. IsHeaderFault e bytes.now) }
{
    let (tree, size) = read_struct(alloc, bytes)?;
    let head = view_page(&tree)?;
    Ok((head, size))
}

/// The page header with which bytes begin, and how many bytes spell it; none where more bytes, if there are any, may
/// spell one.
///
/// Errors: these bytes, which may be all that there are, begin with no page header; want of memory.
fn header_ahead(
    alloc: Global,
    bytes: &[u8],
    are_all: bool,
) -> Result<Option<(PageHead, usize)>, ChunkFault>
    ensures header { IfOk result (λ o. IfSome o (λ r. (more : List ℕ) → page_header (bytes.now ++ more)
        ≡ got (page_view r.0) (drop r.1 (bytes.now ++ more)))) }
    ensures within { IfOk result (λ o. IfSome o (λ r. r.1 ≤ length bytes.now)) }
    ensures none { IfOk result (λ o. IfNone o (are_all ≡ false)) }
    ensures bad { result ≡ Err ChunkFault.BadData → (more : List ℕ) → (are_all ≡ true → more ≡ [])
        → IsRefused (page_header (bytes.now ++ more)) }
    ensures calm { result ≢ Err ChunkFault.Failed }
{
    match read_header(alloc, bytes) {
        Ok(found) => Ok(Some(found)),
        Err(HeaderFault::NoStruct) if !are_all => Ok(None),
        Err(HeaderFault::NoMemory) => Err(ChunkFault::NoMemory),
        Err(HeaderFault::NoStruct | HeaderFault::NoHeader) => Err(ChunkFault::BadData),
    }
}

/// The header of the next page of a stretch, which is taken.
///
/// Errors: what is left begins with no page header; the link failed; want of memory.
pub(crate) fn next_header<L: Link>(
    alloc: Global,
    stretch: &mut Stretch,
    link: &mut L,
    path: &str,
) -> Result<PageHead, ChunkFault>
    ensures header { (bytes : List ℕ) → Tells (L.shows link.old) path.now bytes
        → IfOk result (λ h. page_header (rest_in bytes stretch.old) ≡ got (page_view h) (rest_in bytes stretch.new)) }
    ensures bad { (bytes : List ℕ) → Tells (L.shows link.old) path.now bytes → result
        ≡ Err ChunkFault.BadData → IsRefused (page_header (rest_in bytes stretch.old)) }
    ensures range { range_of stretch.new ≡ range_of stretch.old }
    ensures link { LeavesLink result ChunkFault.Failed (ServesUntil (L.shows link.old) path.now
        ((range_of stretch.old).start + (range_of stretch.old).size)) (L.shows link.old) (L.shows link.new) }
    ensures asked { AsksOnly (is_read_inside path.now (inside (range_of stretch.old) ∷ []))
        (L.shows link.old).asked (L.shows link.new).asked }
{
    let left = stretch.left();
    let mut ahead = left.min(HEADER_AHEAD);
    'tries: loop {
        stretch.look_ahead(link, path, ahead as usize)?;
        match header_ahead(alloc, stretch.pending(), ahead == left)? {
            Some((head, size)) => {
                stretch.take(size);
                return Ok(head);
            }
            None => ahead = left.min(ahead.saturating_mul(2)),
        }
    }
}
