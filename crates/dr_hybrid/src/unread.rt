//! What of a run is unread.

ghost use Rattle.std.specs.Prelude.{◌≡◌, ◌≤◌, ◌<◌, ℕ, length, drop, None, IfOk, OnErr};
ghost use Rattle.dr_formats.specs.Hybrid.{hybrid};
ghost use Rattle.dr_hybrid.specs.Unread.{unread_ahead, IsBegun, IsOpen};

use crate::runs::Short;
use crate::words::number_of;
use dr_bytes::Cut;

/// What of a run is unread.
#[derive(Clone, Copy)]
pub(crate) enum Unread {
    /// One value, so many more times.
    Repeat { value: u32, left: u64 },
    /// So many groups of eight packed values, of the first of which so many are read.
    Packed { groups: u64, read: u32 },
    /// Nothing: the bytes began with no runs for what was asked.
    Short,
}

/// The run with which bytes begin, all of it unread, and how many bytes are before its groups, or before the run behind
/// it where it is a repeat.
pub(crate) fn begin(width: u32, bytes: &[u8]) -> Result<(Unread, usize), Short>
    requires { width ≤ 32 }
    ensures ahead { IfOk result (λ r. (n : ℕ) → 0 < n
        → hybrid width n bytes.now ≡ unread_ahead r.0 width n (drop r.1 bytes.now)) }
    ensures begun { IfOk result (λ r. IsBegun width r.0) }
    ensures open { IfOk result (λ r. IsOpen r.0) }
    ensures some { IfOk result (λ r. 0 < r.1) }
    ensures within { IfOk result (λ r. r.1 ≤ length bytes.now) }
    ensures short { OnErr result ((n : ℕ) → 0 < n → hybrid width n bytes.now ≡ None) }
{
    let mut cut = Cut::new(bytes);
    let header = match cut.varint() {
        Ok(header) => header,
        Err(_) => return Err(Short),
    };
    if header % 2 != 0 {
        let groups = header / 2;
        return Ok((Unread::Packed { groups, read: 0 }, cut.place()));
    }
    match cut.take((width as usize + 7) / 8) {
        Ok(bytes) => {
            let value = number_of(bytes);
            let left = header / 2;
            Ok((Unread::Repeat { value, left }, cut.place()))
        }
        Err(_) => Err(Short),
    }
}

impl Unread {
    ghost use Rattle.dr_hybrid.specs.Unread.{HasMore, IsInGroups, IsOver};

    /// How many of the wanted values are read at once; none where the run is over.
    #[inline(always)]
    pub(crate) fn at_once(&self, wanted: usize) -> usize
        requires { IsInGroups self.now }
        ensures within { result ≤ wanted }
        ensures left { HasMore self.now result }
        ensures over { result ≡ 0 → 0 < wanted → IsOver self.now }
    {
        match self {
            Unread::Repeat { left, .. } => (*left).min(wanted as u64) as usize,
            Unread::Packed { groups, read: 0 } => groups
                .saturating_mul(8)
                .min(wanted as u64) as usize,
            Unread::Packed { groups: 0, .. } => 0,
            Unread::Packed { read, .. } => (8 - *read as usize).min(wanted),
            Unread::Short => 0,
        }
    }
}
