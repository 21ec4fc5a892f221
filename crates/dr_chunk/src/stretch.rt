//! A stretch of a file, read ahead through a buffer that is used again.

ghost use Rattle.std.specs.Prelude.{◌≡◌, ◌≤◌, ◌<◌, ◌+◌, ◌-◌, ◌∷◌, [], ℕ, List, length, take, drop, true, false, IfOk, OnOk};
ghost use Rattle.dr_outside.specs.Telling.{Tells, AsksOnly};
ghost use Rattle.dr_outside.specs.Leaving.{LeavesLink, ServesUntil};
ghost use Rattle.dr_chunk.specs.Ranges.{is_read_inside, inside};

use crate::byte_range::ByteRange;
use dr_outside::{Fault, Link};
use std::alloc::Global;

/// The bytes of a range of a file, in order. Those read ahead, from `from` on in the buffer, are still to be taken;
/// those from `at` on are still to be read.
#[derive(Drop)]
pub(crate) struct Stretch {
    range: ByteRange,
    at: u64,
    buffer: Vec<u8>,
    from: usize,
    ghost begun: { range.start ≤ at },
    ghost ends: { at ≤ range.start + range.size },
    ghost ahead: { from ≤ length buffer.items },
    ghost once: { length buffer.items ≤ from + (at - range.start) },
}

impl Stretch {
    ghost use Rattle.dr_chunk.specs.Stretches.{pending, left_count, rest_in, range_of};

    /// No bytes. Takes no memory.
    pub(crate) fn new(alloc: Global) -> Stretch {
        Stretch {
            range: ByteRange { start: 0, size: 0 },
            at: 0,
            buffer: Vec::new(alloc),
            from: 0,
        }
    }

    /// Goes over to all bytes of a range; what was read ahead is dropped.
    pub(crate) fn restart(&mut self, range: ByteRange)
        ensures rest { (bytes : List ℕ) → rest_in bytes self.new ≡ take range.size (drop range.start bytes) }
        ensures left { left_count self.new ≡ range.size }
        ensures range { range_of self.new ≡ range }
    {
        self.buffer.clear();
        self.from = 0;
        self.range = range;
        self.at = range.start;
    }

    /// The bytes read ahead.
    pub(crate) fn pending(&self) -> &[u8]
        ensures { result.now ≡ pending self.now }
    {
        &self.buffer[self.from..]
    }

    /// How many bytes are left.
    pub(crate) fn left(&self) -> u64
        ensures { result ≡ left_count self.now }
    {
        (self.buffer.len() - self.from) as u64 + (self.range.end() - self.at)
    }

    /// Takes bytes that are read ahead.
    pub(crate) fn take(&mut self, count: usize)
        requires { count ≤ length (pending self.old) }
        ensures rest { (bytes : List ℕ) → rest_in bytes self.new ≡ drop count (rest_in bytes self.old) }
        ensures left { left_count self.new + count ≡ left_count self.old }
        ensures range { range_of self.new ≡ range_of self.old }
    {
        self.from += count;
    }

    /// Sees that so many bytes are read ahead; false where fewer are left.
    ///
    /// Errors: the link failed; want of memory.
    pub(crate) fn look_ahead<L: Link>(
        &mut self,
        link: &mut L,
        path: &str,
        count: usize,
    ) -> Result<bool, Fault>
        ensures rest { (bytes : List ℕ) → Tells (L.shows link.old) path.now bytes
            → OnOk result (rest_in bytes self.new ≡ rest_in bytes self.old) }
        ensures enough { IfOk result (λ some. some ≡ true → count ≤ length (pending self.new)) }
        ensures short { IfOk result (λ some. some ≡ false → left_count self.old < count) }
        ensures left { OnOk result (left_count self.new ≡ left_count self.old) }
        ensures range { range_of self.new ≡ range_of self.old }
        ensures link { LeavesLink result Fault.Failed (ServesUntil (L.shows link.old) path.now
            ((range_of self.old).start + (range_of self.old).size)) (L.shows link.old) (L.shows link.new) }
        ensures asked { AsksOnly (is_read_inside path.now (inside (range_of self.old) ∷ []))
            (L.shows link.old).asked (L.shows link.new).asked }
    {
        let have = self.buffer.len() - self.from;
        if have >= count {
            return Ok(true);
        }
        let missing = count - have;
        if missing as u64 > self.range.end() - self.at {
            return Ok(false);
        }
        self.drop_taken();
        self.read_more(link, path, missing)?;
        Ok(true)
    }

    /// Moves what is read ahead to the front of the buffer.
    fn drop_taken(&mut self)
        ensures pending { pending self.new ≡ pending self.old }
        ensures rest { (bytes : List ℕ) → rest_in bytes self.new ≡ rest_in bytes self.old }
        ensures left { left_count self.new ≡ left_count self.old }
        ensures at { self.new.at ≡ self.old.at }
        ensures range { range_of self.new ≡ range_of self.old }
    {
        let have = self.buffer.len() - self.from;
        self.buffer.copy_within(self.from.., 0);
        self.buffer.truncate(have);
        self.from = 0;
    }

    /// Reads so many bytes more.
    ///
    /// Errors: the link failed; want of memory.
    fn read_more<L: Link>(&mut self, link: &mut L, path: &str, count: usize) -> Result<(), Fault>
        requires { self.old.at + count ≤ self.old.range.start + self.old.range.size }
        ensures rest { (bytes : List ℕ) → Tells (L.shows link.old) path.now bytes
            → OnOk result (rest_in bytes self.new ≡ rest_in bytes self.old) }
        ensures ahead { OnOk result (length (pending self.new) ≡ length (pending self.old) + count) }
        ensures left { OnOk result (left_count self.new ≡ left_count self.old) }
        ensures range { range_of self.new ≡ range_of self.old }
        ensures link { LeavesLink result Fault.Failed (ServesUntil (L.shows link.old) path.now
            ((range_of self.old).start + (range_of self.old).size)) (L.shows link.old) (L.shows link.new) }
        ensures asked { AsksOnly (is_read_inside path.now (inside (range_of self.old) ∷ []))
            (L.shows link.old).asked (L.shows link.new).asked }
    {
        let have = self.buffer.len();
        let Some(length) = have.checked_add(count) else {
            return Err(Fault::NoMemory);
        };
        self.buffer.resize(length, 0)?;
        if let Err(fault) = link.read_at(path, self.at, &mut self.buffer[have..]) {
            self.buffer.truncate(have);
            return Err(fault);
        }
        self.at += count as u64;
        Ok(())
    }
}
