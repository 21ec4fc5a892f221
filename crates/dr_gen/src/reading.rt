//! The lines of made records, as they are read.

ghost use Rattle.std.specs.Prelude.{◌≡◌, ◌≤◌, ◌<◌, ◌^◌, ◌+◌, ◌++◌, [], true, false, min, length, take, IfOk};
ghost use Rattle.dr_gen.specs.Generator.{lines_from};
ghost use Rattle.dr_gen.specs.Left.{ahead_of, left_of};

use crate::line::{LINE_ROOM, push_line};
use crate::source::GenSource;
use dr_memory::NoMemory;
use dr_outside::{Failed, Source};
use std::alloc::Global;

/// Copies as many bytes as there is room for, and says how many.
fn copy_front(bytes: &[u8], room: &mut [u8]) -> usize
    ensures count { result ≡ min (length room.new) (length bytes.now) }
    ensures bytes { take result room.new ≡ take result bytes.now }
{
    let count = room.len().min(bytes.len());
    room[..count].copy_from_slice(&bytes[..count]);
    count
}

impl GenSource {
    /// The lines of so many records, the first of which is that of the seed; seed and records together are at most
    /// 2^32. It reserves the room of one line.
    ///
    /// Errors: want of memory alone.
    pub fn new(alloc: Global, seed: u64, records: u64) -> Result<GenSource, NoMemory>
        requires { seed + records ≤ 2 ^ 32 }
        ensures { IfOk result (λ s. left_of s ≡ lines_from seed records) }
    {
        let line = Vec::with_capacity(alloc, LINE_ROOM)?;
        Ok(GenSource {
            next: seed,
            records,
            line,
            from: 0,
        })
    }

    /// Sees that something is made ahead; false at the end.
    fn look_ahead(&mut self) -> bool
        ensures same { left_of self.new ≡ left_of self.old }
        ensures more { result ≡ true → 0 < length (ahead_of self.new) }
        ensures end { result ≡ false → left_of self.old ≡ [] }
    {
        if self.from < self.line.len() {
            return true;
        }
        if self.records == 0 {
            return false;
        }
        self.make_line();
        true
    }

    /// Makes the next line, where the last one was read whole.
    fn make_line(&mut self)
        requires read { ahead_of self.old ≡ [] }
        requires more { 0 < self.old.records }
        ensures same { left_of self.new ≡ left_of self.old }
        ensures some { 0 < length (ahead_of self.new) }
    {
        self.line.clear();
        push_line(&mut self.line, self.next);
        self.from = 0;
        self.next += 1;
        self.records -= 1;
    }

    /// Gives what is made ahead, as much as there is room for, and says how many bytes.
    fn give(&mut self, room: &mut [u8]) -> usize
        ensures count { result ≡ min (length room.new) (length (ahead_of self.old)) }
        ensures bytes { take result room.new ++ left_of self.new ≡ left_of self.old }
    {
        let count = copy_front(&self.line[self.from..], room);
        self.from += count;
        count
    }

    /// Fills the front of the buffer, whole or up to the end, and says how many bytes.
    pub(crate) fn fill(&mut self, buf: &mut [u8]) -> usize
        ensures fits { result ≤ length buf.new }
        ensures bytes { take result buf.new ++ left_of self.new ≡ left_of self.old }
        ensures end { result < length buf.new → left_of self.new ≡ [] }
    {
        let mut filled = 0;
        'lines: while filled < buf.len() {
            if !self.look_ahead() {
                return filled;
            }
            filled += self.give(&mut buf[filled..]);
        }
        filled
    }
}

impl Source for GenSource {
    ghost use Rattle.std.specs.Prelude.{◌≡◌, ◌<◌, ◌≤◌, min, length, take, IsTrue, IsOk, IfOk, OnOk, OnErr, Ok};
    ghost use Rattle.dr_outside.specs.Faults.{raised};
    ghost use Rattle.dr_outside.specs.Source.{Took, EndsExactly};
    ghost use Rattle.dr_gen.specs.Left.{left_of, shown_by};

    ghost shows = { shown_by };

    /// Never fails: fills the buffer, or gives all that is left.
    fn read(&mut self, buf: &mut [u8]) -> Result<usize, Failed>
        ensures fits { IfOk result (λ n. n ≤ length buf.new) }
        ensures took { IfOk result (λ n. Took (shown_by self.old).left (shown_by self.new).left (take n buf.new)) }
        ensures end { IfOk result (λ n. 0 < length buf.new → EndsExactly (shown_by self.old).left n) }
        ensures stays { OnErr result ((shown_by self.new).left ≡ (shown_by self.old).left) }
        ensures cause { OnErr result ((shown_by self.new).faults ≡ raised (shown_by self.old).faults) }
        ensures calm { OnOk result ((shown_by self.new).faults ≡ (shown_by self.old).faults) }
        ensures never_falls { (shown_by self.old).faults ≤ (shown_by self.new).faults }
        ensures steady { IsTrue (shown_by self.old).is_steady → IsOk result }
        ensures stays_steady { IsTrue (shown_by self.old).is_steady → IsTrue (shown_by self.new).is_steady }

        // What is said of this source alone.
        ensures gives { result ≡ Ok (min (length buf.new) (length (left_of self.old))) }
    {
        Ok(self.fill(buf))
    }
}
