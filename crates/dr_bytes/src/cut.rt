//! Bytes that are read from the front on.

ghost use Rattle.std.specs.Prelude.{◌≡◌, ◌<◌, ◌≤◌, ◌+◌, ◌↔◌, length, take, drop, IfOk, IfErr, OnOk, OnErr, IsErr};
ghost use Rattle.dr_formats.specs.Reading.{got};
ghost use Rattle.dr_formats.specs.Varint.{read_varint};
ghost use Rattle.dr_formats.specs.LittleEndian.{little_endian};
ghost use Rattle.dr_bytes.specs.Numbers.{IsFault, varint_fault_view};

use crate::fault::{Short, VarintFault};
use crate::reading::front_varint;

/// Bytes with a place in them, from which they are read on. A call that is refused leaves the place.
#[derive(Clone, Copy)]
pub struct Cut<'a> {
    bytes: &'a [u8],
    place: usize,
    ghost within: { place ≤ length bytes.now },
}

impl<'a> Cut<'a> {
    ghost use Rattle.dr_bytes.specs.Cutting.{whole, left};

    /// All of the bytes, at their front.
    #[inline(always)]
    pub fn new(bytes: &'a [u8]) -> Cut<'a>
        ensures whole { whole result ≡ bytes.now }
        ensures left { left result ≡ bytes.now }
    {
        Cut { bytes, place: 0 }
    }

    /// The place, in bytes from the front.
    #[inline(always)]
    pub fn place(&self) -> usize
        ensures { result + length (left self.now) ≡ length (whole self.now) }
    {
        self.place
    }

    /// The bytes from the place on.
    #[inline(always)]
    pub fn rest(&self) -> &'a [u8]
        ensures { result.now ≡ left self.now }
    {
        &self.bytes[self.place..]
    }

    /// The next bytes, so many.
    ///
    /// Errors: fewer are left.
    #[inline(always)]
    pub fn take(&mut self, count: usize) -> Result<&'a [u8], Short>
        ensures taken { IfOk result (λ b. b.now ≡ take count (left self.old)) }
        ensures behind { OnOk result (left self.new ≡ drop count (left self.old)) }
        ensures short { IsErr result ↔ (length (left self.old) < count) }
        ensures stays { OnErr result (left self.new ≡ left self.old) }
        ensures whole { whole self.new ≡ whole self.old }
    {
        let rest = self.rest();
        if count > rest.len() {
            return Err(Short);
        }
        self.place += count;
        Ok(&rest[..count])
    }

    /// The number in the next four bytes, the lowest first.
    ///
    /// Errors: fewer are left.
    #[inline(always)]
    pub fn le32(&mut self) -> Result<u32, Short>
        ensures number { IfOk result (λ n. n ≡ little_endian (take 4 (left self.old))) }
        ensures behind { OnOk result (left self.new ≡ drop 4 (left self.old)) }
        ensures short { IsErr result ↔ (length (left self.old) < 4) }
        ensures stays { OnErr result (left self.new ≡ left self.old) }
        ensures whole { whole self.new ≡ whole self.old }
    {
        match self.rest().first_chunk::<4>() {
            Some(bytes) => {
                self.place += 4;
                Ok(u32::from_le_bytes(*bytes))
            }
            None => Err(Short),
        }
    }

    /// The number in the next eight bytes, the lowest first.
    ///
    /// Errors: fewer are left.
    #[inline(always)]
    pub fn le64(&mut self) -> Result<u64, Short>
        ensures number { IfOk result (λ n. n ≡ little_endian (take 8 (left self.old))) }
        ensures behind { OnOk result (left self.new ≡ drop 8 (left self.old)) }
        ensures short { IsErr result ↔ (length (left self.old) < 8) }
        ensures stays { OnErr result (left self.new ≡ left self.old) }
        ensures whole { whole self.new ≡ whole self.old }
    {
        match self.rest().first_chunk::<8>() {
            Some(bytes) => {
                self.place += 8;
                Ok(u64::from_le_bytes(*bytes))
            }
            None => Err(Short),
        }
    }

    /// The variable-length number that comes next (unsigned LEB128): any spelling of at most ten bytes of a number
    /// below 2^64.
    ///
    /// Errors: the bytes end before; the spelling is too long.
    #[inline]
    pub fn varint(&mut self) -> Result<u64, VarintFault>
        ensures number { IfOk result (λ n. read_varint (left self.old) ≡ got n (left self.new)) }
        ensures fault { IfErr result (λ e. IsFault (varint_fault_view e) (read_varint (left self.old))) }
        ensures stays { OnErr result (left self.new ≡ left self.old) }
        ensures whole { whole self.new ≡ whole self.old }
    {
        let (number, length) = front_varint(self.rest())?;
        self.place += length;
        Ok(number)
    }
}
