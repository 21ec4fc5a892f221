//! Values in PLAIN, read a piece at a time.

ghost use Rattle.std.specs.Prelude.{◌≡◌, ◌+◌, ◌*◌, ◌≤◌, ℕ, [], List, length, map, drop, Some, Err, OnOk, OnErr, IfOk};
ghost use Rattle.dr_meaning.specs.Schema as tree;
ghost use Rattle.dr_meaning.specs.Record.{Value, bool_value, int_value};
ghost use Rattle.dr_plain.specs.Views.{AreTexts};
ghost use Rattle.dr_plain.specs.declared.values.PlainFault.{PlainFault};
ghost use Rattle.dr_plain.specs.Pieces.{HasGiven, GivesMore, GivesTexts, refused_of};

use crate::reading::{append_int32s, append_int64s, bytes_of_bits, push_bits};
use crate::text_batch::read_batch;
use crate::texts::{append_texts, front_texts};
use crate::values::{PlainFault, TextPlace};

/// Reads values in PLAIN a piece at a time. Each call takes the bytes of all values, the same ones, and the calls are
/// of one kind. A refusal is repeated from then on. It has no buffers.
#[derive(Clone, Copy)]
pub struct PlainReader {
    /// Where the next value begins: the place of its first byte; of a truth value that of its bit.
    pub(crate) place: usize,
    /// Why no values are given from now on, where it is so.
    pub(crate) refused: Option<PlainFault>,
}

impl PlainReader {
    /// A reader that gave nothing.
    pub fn new() -> PlainReader
        ensures { (k : tree.Kind) → (bytes : List ℕ) → HasGiven k bytes [] result }
    {
        PlainReader {
            place: 0,
            refused: None,
        }
    }

    /// Appends the next truth values.
    ///
    /// Errors: the bytes end before; want of memory. The values are then as they were.
    pub fn next_bools(
        &mut self,
        bytes: &[u8],
        count: usize,
        out: &mut Vec<bool>,
    ) -> Result<(), PlainFault>
        ensures next { (given : List Value) → HasGiven tree.bool_kind bytes.now given self.old
            → GivesMore tree.bool_kind bytes.now given count (map bool_value (out.old).items)
            (map bool_value (out.new).items) self.new result }
        ensures count { OnOk result (length (out.new).items ≡ length (out.old).items + count) }
        ensures stays { OnErr result ((out.new).items ≡ (out.old).items) }
        ensures again { (fault : PlainFault) → refused_of self.old ≡ Some fault → result ≡ Err fault }
        ensures refused { (fault : PlainFault) → result ≡ Err fault → refused_of self.new ≡ Some fault }
    {
        if let Some(fault) = self.refused {
            return Err(fault);
        }
        let Some(end) = self.place.checked_add(count) else {
            return self.refuse(PlainFault::NoMemory);
        };
        if bytes.len() < bytes_of_bits(end) {
            return self.refuse(PlainFault::Short);
        }
        if out.reserve(count).is_err() {
            return self.refuse(PlainFault::NoMemory);
        }
        push_bits(bytes, self.place, end, out);
        self.place = end;
        Ok(())
    }

    /// Appends the next 32-bit numbers.
    ///
    /// Errors: the bytes end before; want of memory. The values are then as they were.
    pub fn next_int32s(
        &mut self,
        bytes: &[u8],
        count: usize,
        out: &mut Vec<i64>,
    ) -> Result<(), PlainFault>
        ensures next { (given : List Value) → HasGiven tree.int32_kind bytes.now given self.old
            → GivesMore tree.int32_kind bytes.now given count (map int_value (out.old).items)
            (map int_value (out.new).items) self.new result }
        ensures count { OnOk result (length (out.new).items ≡ length (out.old).items + count) }
        ensures stays { OnErr result ((out.new).items ≡ (out.old).items) }
        ensures again { (fault : PlainFault) → refused_of self.old ≡ Some fault → result ≡ Err fault }
        ensures refused { (fault : PlainFault) → result ≡ Err fault → refused_of self.new ≡ Some fault }
    {
        if let Some(fault) = self.refused {
            return Err(fault);
        }
        let rest = self.rest(bytes);
        match append_int32s(rest, count, out) {
            Ok(()) => {
                self.go_behind(bytes, rest, count, 4);
                Ok(())
            }
            Err(fault) => self.refuse(fault),
        }
    }

    /// Appends the next 64-bit numbers.
    ///
    /// Errors: the bytes end before; want of memory. The values are then as they were.
    pub fn next_int64s(
        &mut self,
        bytes: &[u8],
        count: usize,
        out: &mut Vec<i64>,
    ) -> Result<(), PlainFault>
        ensures next { (given : List Value) → HasGiven tree.int64_kind bytes.now given self.old
            → GivesMore tree.int64_kind bytes.now given count (map int_value (out.old).items)
            (map int_value (out.new).items) self.new result }
        ensures count { OnOk result (length (out.new).items ≡ length (out.old).items + count) }
        ensures stays { OnErr result ((out.new).items ≡ (out.old).items) }
        ensures again { (fault : PlainFault) → refused_of self.old ≡ Some fault → result ≡ Err fault }
        ensures refused { (fault : PlainFault) → result ≡ Err fault → refused_of self.new ≡ Some fault }
    {
        if let Some(fault) = self.refused {
            return Err(fault);
        }
        let rest = self.rest(bytes);
        match append_int64s(rest, count, out) {
            Ok(()) => {
                self.go_behind(bytes, rest, count, 8);
                Ok(())
            }
            Err(fault) => self.refuse(fault),
        }
    }

    /// Puts the places of the next texts into the place of others, and answers the bytes that they are places of: those
    /// of these texts alone, each behind its length.
    ///
    /// Errors: the bytes end before, or a text is not UTF-8, whichever comes first; want of memory. There are then no
    /// places.
    pub fn next_texts<'a>(
        &mut self,
        bytes: &'a [u8],
        count: usize,
        out: &mut Vec<TextPlace>,
    ) -> Result<&'a [u8], PlainFault>
        ensures next { (given : List Value) → HasGiven tree.text_kind bytes.now given self.old
            → GivesTexts bytes.now given count (out.new).items self.new result }
        ensures count { OnOk result (length (out.new).items ≡ count) }
        ensures texts { IfOk result (λ piece. AreTexts piece.now (out.new).items) }
        ensures none { OnErr result ((out.new).items ≡ []) }
        ensures again { (fault : PlainFault) → refused_of self.old ≡ Some fault → result ≡ Err fault }
        ensures refused { (fault : PlainFault) → result ≡ Err fault → refused_of self.new ≡ Some fault }
    {
        out.clear();
        if let Some(fault) = self.refused {
            return Err(fault);
        }
        let rest = self.rest(bytes);
        if let Some(piece) = read_batch(rest, count, out) {
            self.go_behind(bytes, rest, piece.len(), 1);
            return Ok(piece);
        }
        out.clear();
        let piece = front_texts(rest, count);
        match append_texts(piece, count, out) {
            Ok(()) => {
                self.go_behind(bytes, rest, piece.len(), 1);
                Ok(piece)
            }
            Err(fault) => self.refuse(fault),
        }
    }

    /// The bytes that weren't read.
    fn rest<'a>(&self, bytes: &'a [u8]) -> &'a [u8]
        ensures { result.now ≡ drop (self.now).place bytes.now }
    {
        &bytes[self.place.min(bytes.len())..]
    }
    /// Goes behind the next so many values of a size, with which the rest of the bytes begins.
    fn go_behind(&mut self, bytes: &[u8], rest: &[u8], count: usize, size: usize)
        requires rest { rest.now ≡ drop (self.old).place bytes.now }
        requires there { count * size ≤ length rest.now }
        ensures place { drop (self.new).place bytes.now ≡ drop (count * size) rest.now }
        ensures refused { refused_of self.new ≡ refused_of self.old }
    {
        self.place = bytes.len() - (rest.len() - count * size);
    }

    /// Refuses, now and from now on.
    fn refuse<T>(&mut self, fault: PlainFault) -> Result<T, PlainFault>
        ensures refuses { result ≡ Err fault }
        ensures refused { refused_of self.new ≡ Some fault }
    {
        self.refused = Some(fault);
        Err(fault)
    }
}
