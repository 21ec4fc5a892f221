//! Hybrid data that is read a piece at a time.

ghost use Rattle.std.specs.Prelude.{◌≡◌, ◌≤◌};
ghost use Rattle.dr_hybrid.specs.Unread.{IsBegun, IsBegun-prop};
ghost use Rattle.dr_hybrid.specs.declared.unread.Unread.{Unread};

use crate::packable::Packable;
use crate::runs::Short;
use crate::single_groups::{GREATEST_SINGLE, unpack_single_runs};
use crate::unpacking::unpack;
use crate::unread::{Unread, begin};
use crate::words::packed_length;

/// Where the next values of hybrid data stand, a piece of which is read at each call. It doesn't hold the bytes: each
/// call is given them, from the first on. Neither call takes memory.
#[derive(Clone, Copy)]
pub struct RunReader {
    width: u32,
    place: usize,
    unread: Unread,
    ghost narrow: { width ≤ 32 },
    ghost begun: { IsBegun width unread } by { IsBegun-prop width unread },
}

impl RunReader {
    ghost use Rattle.std.specs.Prelude.{◌<◌, ◌+◌, ◌++◌, ℕ, List, length, take, Some, None, option_map, OnOk, OnErr};
    ghost use Rattle.dr_formats.specs.Hybrid.{hybrid};
    ghost use Rattle.dr_hybrid.specs.Unread.{HasMore, IsOver, IsOpen};
    ghost use Rattle.dr_hybrid.specs.Reader.{ahead, width_at, bytes_left};

    /// At the front of hybrid data of a width of at most 32 bits.
    pub fn start(width: u32) -> RunReader
        requires { width ≤ 32 }
        ensures ahead { (n : ℕ) (bytes : List ℕ) → ahead result n bytes ≡ hybrid width n bytes }
        ensures width { width_at result ≡ width }
    {
        RunReader {
            width,
            place: 0,
            unread: Unread::Repeat { value: 0, left: 0 },
        }
    }

    /// The next values of the bytes, as many as there is room for.
    ///
    /// Errors: the bytes begin with no runs for all that was asked, this included; so says each later call, and there
    /// may be any values in `out`.
    #[inline]
    pub fn next<T: Packable>(&mut self, bytes: &[u8], out: &mut [T]) -> Result<(), Short>
        requires { width_at self.old ≤ T.greatest_width }
        ensures read { OnOk result (ahead self.old (length out.old) bytes.now ≡ Some (T.numbers out.new)) }
        ensures rest { OnOk result ((n : ℕ) → ahead self.old (length out.old + n) bytes.now
            ≡ option_map (λ more. T.numbers out.new ++ more) (ahead self.new n bytes.now)) }
        ensures short { OnErr result ((n : ℕ) → ahead self.old (length out.old + n) bytes.now ≡ None) }
        ensures stays_short { OnErr result ((n : ℕ) (bytes : List ℕ) → ahead self.new n bytes ≡ None) }
        ensures width { width_at self.new ≡ width_at self.old }
    {
        if let Unread::Short = self.unread {
            return Err(Short);
        }
        match self.read(bytes, out) {
            Ok(()) => Ok(()),
            Err(short) => {
                self.unread = Unread::Short;
                Err(short)
            }
        }
    }

    /// Reads the next values, run by run.
    #[inline]
    fn read<T: Packable>(&mut self, bytes: &[u8], out: &mut [T]) -> Result<(), Short>
        requires held { width_at self.old ≤ T.greatest_width }
        requires open { IsOpen (self.old).unread }
        ensures rest { OnOk result ((n : ℕ) → ahead self.old (length out.old + n) bytes.now
            ≡ option_map (λ more. T.numbers out.new ++ more) (ahead self.new n bytes.now)) }
        ensures open { OnOk result (IsOpen (self.new).unread) }
        ensures short { OnErr result ((n : ℕ) → ahead self.old (length out.old + n) bytes.now ≡ None) }
        ensures width { width_at self.new ≡ width_at self.old }
    {
        let mut done = 0;
        'pieces: while done < out.len() {
            let count = self.unread.at_once(out.len() - done);
            if count == 0 {
                done += self.take_single_groups(bytes, &mut out[done..]);
                if done < out.len() {
                    self.go_on(bytes)?;
                }
            } else {
                self.take(bytes, &mut out[done..done + count])?;
                done += count;
            }
        }
        Ok(())
    }

    /// The bytes from its place on.
    #[inline(always)]
    fn rest<'a>(&self, bytes: &'a [u8]) -> &'a [u8]
        ensures { result.now ≡ bytes_left self.now bytes.now }
    {
        &bytes[self.place.min(bytes.len())..]
    }

    /// Reads the runs of one group behind a run that is over, as many as follow one another and there is room for.
    /// Answers how many values they have.
    #[inline(always)]
    fn take_single_groups<T: Packable>(&mut self, bytes: &[u8], out: &mut [T]) -> usize
        requires held { width_at self.old ≤ T.greatest_width }
        requires over { IsOver (self.old).unread }
        requires open { IsOpen (self.old).unread }
        ensures room { result ≤ length out.old }
        ensures read { (n : ℕ) → ahead self.old (result + n) bytes.now
            ≡ option_map (λ more. take result (T.numbers out.new) ++ more) (ahead self.new n bytes.now) }
        ensures unread { (self.new).unread ≡ (self.old).unread }
        ensures closer { length (bytes_left self.new bytes.now) ≤ length (bytes_left self.old bytes.now) }
        ensures width { width_at self.new ≡ width_at self.old }
    {
        if self.width > GREATEST_SINGLE {
            return 0;
        }
        let groups = unpack_single_runs(self.rest(bytes), self.width, out);
        self.place += groups * (self.width as usize + 1);
        8 * groups
    }

    /// Goes on to the next run, behind one that is over.
    #[inline(always)]
    fn go_on(&mut self, bytes: &[u8]) -> Result<(), Short>
        requires over { IsOver (self.old).unread }
        requires open { IsOpen (self.old).unread }
        ensures rest { OnOk result ((n : ℕ) → 0 < n → ahead self.old n bytes.now ≡ ahead self.new n bytes.now) }
        ensures open { OnOk result (IsOpen (self.new).unread) }
        ensures closer { OnOk result (length (bytes_left self.new bytes.now) < length (bytes_left self.old bytes.now)) }
        ensures short { OnErr result ((n : ℕ) → 0 < n → ahead self.old n bytes.now ≡ None) }
        ensures width { width_at self.new ≡ width_at self.old }
    {
        let (unread, before) = begin(self.width, self.rest(bytes))?;
        self.place += before;
        self.unread = unread;
        Ok(())
    }

    /// Reads values that are read at once.
    #[inline(always)]
    fn take<T: Packable>(&mut self, bytes: &[u8], out: &mut [T]) -> Result<(), Short>
        requires held { width_at self.old ≤ T.greatest_width }
        requires open { IsOpen (self.old).unread }
        requires some { 0 < length out.old }
        requires left { HasMore (self.old).unread (length out.old) }
        ensures rest { OnOk result ((n : ℕ) → ahead self.old (length out.old + n) bytes.now
            ≡ option_map (λ more. T.numbers out.new ++ more) (ahead self.new n bytes.now)) }
        ensures open { OnOk result (IsOpen (self.new).unread) }
        ensures closer { OnOk result (length (bytes_left self.new bytes.now) ≤ length (bytes_left self.old bytes.now)) }
        ensures short { OnErr result ((n : ℕ) → ahead self.old (length out.old + n) bytes.now ≡ None) }
        ensures width { width_at self.new ≡ width_at self.old }
    {
        match self.unread {
            Unread::Repeat { value, left } => {
                T::fill(out, value);
                let left = left - out.len() as u64;
                self.unread = Unread::Repeat { value, left };
                Ok(())
            }
            Unread::Packed { groups, read } => self.take_packed(bytes, groups, read, out),
            Unread::Short => Err(Short),
        }
    }

    /// Reads packed values of so many groups, of the first of which some are read.
    #[inline(always)]
    fn take_packed<T: Packable>(
        &mut self,
        bytes: &[u8],
        groups: u64,
        read: u32,
        out: &mut [T],
    ) -> Result<(), Short>
        requires held { width_at self.old ≤ T.greatest_width }
        requires unread { (self.old).unread ≡ Unread.Packed groups read }
        requires some { 0 < length out.old }
        requires left { HasMore (self.old).unread (length out.old) }
        ensures rest { OnOk result ((n : ℕ) → ahead self.old (length out.old + n) bytes.now
            ≡ option_map (λ more. T.numbers out.new ++ more) (ahead self.new n bytes.now)) }
        ensures open { OnOk result (IsOpen (self.new).unread) }
        ensures closer { OnOk result (length (bytes_left self.new bytes.now) ≤ length (bytes_left self.old bytes.now)) }
        ensures short { OnErr result ((n : ℕ) → ahead self.old (length out.old + n) bytes.now ≡ None) }
        ensures width { width_at self.new ≡ width_at self.old }
    {
        let end = read as usize + out.len();
        let Some(length) = packed_length(end, self.width) else {
            return Err(Short);
        };
        let rest = self.rest(bytes);
        if length > rest.len() {
            return Err(Short);
        }
        unpack(&rest[..length], self.width, read, out);
        self.place += end / 8 * self.width as usize;
        self.unread = Unread::Packed {
            groups: groups - (end / 8) as u64,
            read: (end % 8) as u32,
        };
        Ok(())
    }
}
