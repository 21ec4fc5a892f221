//! The cutter of lines.

ghost use Rattle.std.specs.Prelude.{◌≡◌, ◌≢◌, ◌≤◌, ◌<◌, ◌^◌, ◌++◌, ◌∷◌, ℕ, List, [], true, false, length, vec_capacity, IfOk, OnOk, OnErr, IfErr, IfSome, IfNone, Some, None, Ok, Err, take, drop, ◌+◌};
ghost use Rattle.dr_meaning.specs.Lines.{longest_line};
ghost use Rattle.dr_outside.specs.Faults.{raised};
ghost use Rattle.dr_lines.specs.Cutting.{pending, last_line, fault_of, rest_of, CutsLine, CutsBytes, BeginsLine, IsEnd, IsTooLong, Keeps, no_lf};

use crate::cutter::{LineFault, Lines};
use dr_memory::NoMemory;
use dr_outside::Source;
use memchr::memchr;
use std::alloc::Global;

/// The greatest length of a line, in bytes, without its LF.
pub const LONGEST_LINE: usize = 1_048_576;

/// How many bytes are asked of a source at once.
const BUFFER_SIZE: usize = 65_536;

/// A law: this is the limit of the definitions.
pub fn line_limit_is_as_defined()
    ensures { LONGEST_LINE ≡ longest_line }
{}

impl Lines {
    /// A cutter that has read nothing. It reserves the room of the longest line.
    ///
    /// Errors: want of memory alone.
    pub fn new(alloc: Global) -> Result<Lines, NoMemory>
        ensures pending { IfOk result (λ l. pending l ≡ []) }
        ensures line { IfOk result (λ l. last_line l ≡ []) }
        ensures fault { IfOk result (λ l. fault_of l ≡ None) }
    {
        let buffer = vec![in alloc; 0u8; BUFFER_SIZE]?;
        let line = Vec::with_capacity(alloc, LONGEST_LINE)?;
        Ok(Lines {
            buffer,
            from: 0,
            to: 0,
            line,
            stopped: None,
        })
    }

    /// The line that was cut last, without its LF.
    pub fn line(&self) -> &[u8]
        ensures { result.now ≡ last_line self.now }
    {
        &self.line
    }

    /// Cuts the next line off; false where no line is left.
    ///
    /// The source is the same at each call. Errors: the line has more than 1,048,576 bytes; the source failed. After an
    /// error it is repeated.
    pub fn next<S: Source>(&mut self, source: &mut S) -> Result<bool, LineFault>
        ensures cuts { IfOk result (λ more. more ≡ true
            → CutsLine (rest_of self.old (S.shows source.old).left) (last_line self.new)
            (rest_of self.new (S.shows source.new).left)) }
        ensures bytes { IfOk result (λ more. more ≡ true → CutsBytes (rest_of self.old (S.shows source.old).left)
            (last_line self.new) (rest_of self.new (S.shows source.new).left)) }
        ensures short { IfOk result (λ more. more ≡ true → length (last_line self.new) ≤ longest_line) }
        ensures end { IfOk result (λ more. more ≡ false
            → IsEnd (rest_of self.old (S.shows source.old).left) (rest_of self.new (S.shows source.new).left)) }
        ensures no_line { IfOk result (λ more. more ≡ false → last_line self.new ≡ []) }
        ensures long { fault_of self.old ≡ None → result ≡ Err LineFault.TooLong
            → IsTooLong (rest_of self.old (S.shows source.old).left) }
        ensures cause { fault_of self.old ≡ None → result ≡ Err LineFault.ReadFault → (S.shows source.new).faults
            ≡ raised (S.shows source.old).faults }
        ensures calm { result ≢ Err LineFault.ReadFault → (S.shows source.new).faults ≡ (S.shows source.old).faults }

        // Where a whole line is read ahead, the source isn't asked.
        ensures ahead { no_lf (pending self.old) ≡ false → source.new ≡ source.old }
        ensures waits { fault_of self.old ≡ None → result ≡ Err LineFault.ReadFault → no_lf (pending self.old) ≡ true }
        ensures begins { fault_of self.old ≡ None → result ≡ Err LineFault.ReadFault
            → BeginsLine (rest_of self.old (S.shows source.old).left) (S.shows source.new).left }

        // After an error the source isn't asked again.
        ensures stops { IfErr result (λ e. fault_of self.new ≡ Some e) }
        ensures repeats { IfSome (fault_of self.old) (λ e. result ≡ Err e) }
        ensures rests { IfSome (fault_of self.old) (λ _. source.new ≡ source.old) }
        ensures goes_on { OnOk result (fault_of self.new ≡ None) }
    {
        if let Some(fault) = self.stopped {
            return Err(fault);
        }
        self.line.clear();
        let answer = self.cut(source);
        if let Err(fault) = answer {
            self.stopped = Some(fault);
        }
        answer
    }

    /// Cuts the next line off, behind what is already in the line.
    fn cut<S: Source>(&mut self, source: &mut S) -> Result<bool, LineFault>
        requires { last_line self.old ≡ [] }
        ensures cuts { IfOk result (λ more. more ≡ true
            → CutsLine (rest_of self.old (S.shows source.old).left) (last_line self.new)
            (rest_of self.new (S.shows source.new).left)) }
        ensures bytes { IfOk result (λ more. more ≡ true → CutsBytes (rest_of self.old (S.shows source.old).left)
            (last_line self.new) (rest_of self.new (S.shows source.new).left)) }
        ensures end { IfOk result (λ more. more ≡ false
            → IsEnd (rest_of self.old (S.shows source.old).left) (rest_of self.new (S.shows source.new).left)) }
        ensures long { result ≡ Err LineFault.TooLong → IsTooLong (rest_of self.old (S.shows source.old).left) }
        ensures no_line { IfOk result (λ more. more ≡ false → last_line self.new ≡ []) }
        ensures cause { result ≡ Err LineFault.ReadFault → (S.shows source.new).faults
            ≡ raised (S.shows source.old).faults }
        ensures calm { result ≢ Err LineFault.ReadFault → (S.shows source.new).faults ≡ (S.shows source.old).faults }
        ensures ahead { no_lf (pending self.old) ≡ false → source.new ≡ source.old }
        ensures waits { result ≡ Err LineFault.ReadFault → no_lf (pending self.old) ≡ true }
        ensures begins { result ≡ Err LineFault.ReadFault
            → BeginsLine (rest_of self.old (S.shows source.old).left) (S.shows source.new).left }
        ensures fault { fault_of self.new ≡ fault_of self.old }
    {
        'pieces: loop {
            if !self.look_ahead(source)? {
                return Ok(!self.line.is_empty());
            }
            if self.take_piece()? {
                return Ok(true);
            }
        }
    }

    /// Sees that something is read ahead; false at the input's end.
    fn look_ahead<S: Source>(&mut self, source: &mut S) -> Result<bool, LineFault>
        ensures more { IfOk result (λ some. some ≡ true
            → Keeps (rest_of self.old (S.shows source.old).left) (rest_of self.new (S.shows source.new).left)) }
        ensures some { IfOk result (λ some. some ≡ true → 0 < length (pending self.new)) }
        ensures end { IfOk result (λ some. some ≡ false
            → IsEnd (rest_of self.old (S.shows source.old).left) (rest_of self.new (S.shows source.new).left)) }
        ensures line { last_line self.new ≡ last_line self.old }
        ensures fault { fault_of self.new ≡ fault_of self.old }
        ensures read { IfErr result (λ e. e ≡ LineFault.ReadFault) }
        ensures cause { OnErr result ((S.shows source.new).faults ≡ raised (S.shows source.old).faults) }
        ensures calm { OnOk result ((S.shows source.new).faults ≡ (S.shows source.old).faults) }
        ensures ahead { 0 < length (pending self.old) → source.new ≡ source.old }
        ensures waits { OnErr result (pending self.old ≡ []) }
        ensures stays { OnErr result ((S.shows source.new).left ≡ (S.shows source.old).left) }
        ensures reads_ahead { 0 < length (pending self.old) → pending self.new ≡ pending self.old }
    {
        if self.from < self.to {
            Ok(true)
        } else {
            self.fill(source)
        }
    }

    /// Reads ahead, where nothing is; false at the input's end.
    fn fill<S: Source>(&mut self, source: &mut S) -> Result<bool, LineFault>
        requires { pending self.old ≡ [] }
        ensures more { IfOk result (λ some. some ≡ true
            → Keeps (S.shows source.old).left (rest_of self.new (S.shows source.new).left)) }
        ensures some { IfOk result (λ some. some ≡ true → 0 < length (pending self.new)) }
        ensures end { IfOk result (λ some. some ≡ false → IsEnd (S.shows source.old).left (S.shows source.new).left
            × (pending self.new ≡ [])) }
        ensures line { last_line self.new ≡ last_line self.old }
        ensures fault { fault_of self.new ≡ fault_of self.old }
        ensures read { IfErr result (λ e. e ≡ LineFault.ReadFault) }
        ensures cause { OnErr result ((S.shows source.new).faults ≡ raised (S.shows source.old).faults) }
        ensures calm { OnOk result ((S.shows source.new).faults ≡ (S.shows source.old).faults) }
        ensures stays { OnErr result ((S.shows source.new).left ≡ (S.shows source.old).left) }
    {
        self.from = 0;
        self.to = 0;
        self.to = source.read(&mut self.buffer)?;
        Ok(self.to > 0)
    }

    /// Moves bytes read ahead to the line, up to the first LF, which is dropped; false where there is none.
    fn take_piece(&mut self) -> Result<bool, LineFault>
        ensures found { IfOk result (λ f. f ≡ true → (piece : List ℕ)
            × (pending self.old ≡ piece ++ 10 ∷ pending self.new) × (last_line self.new ≡ last_line self.old ++ piece)
            × (no_lf piece ≡ true)) }
        ensures all { IfOk result (λ f. f ≡ false → (pending self.new ≡ [])
            × (last_line self.new ≡ last_line self.old ++ pending self.old) × (no_lf (pending self.old) ≡ true)) }
        ensures long { OnErr result ((piece : List ℕ) × (rest : List ℕ) × (pending self.old ≡ piece ++ rest)
            × (no_lf piece ≡ true) × (longest_line < length (last_line self.old ++ piece))) }
        ensures fault { fault_of self.new ≡ fault_of self.old }
        ensures kind { IfErr result (λ e. e ≡ LineFault.TooLong) }
    {
        let ahead = &self.buffer[self.from..self.to];
        match line_end(ahead) {
            Some(count) => {
                append(&mut self.line, &ahead[..count])?;
                self.from += count + 1;
                Ok(true)
            }
            None => {
                append(&mut self.line, ahead)?;
                self.from = self.to;
                Ok(false)
            }
        }
    }
}

/// The place of the first LF.
fn line_end(ahead: &[u8]) -> Option<usize>
    ensures none { IfNone result (no_lf ahead.now ≡ true) }
    ensures first { IfSome result (λ k. no_lf (take k ahead.now) ≡ true) }
    ensures there { IfSome result (λ k. ahead.now ≡ take k ahead.now ++ 10 ∷ drop (k + 1) ahead.now) }
    ensures within { IfSome result (λ k. k < length ahead.now) }
{
    memchr(b'\n', ahead)
}

/// Appends a piece to a line, whose room is reserved.
fn append(line: &mut Vec<u8>, piece: &[u8]) -> Result<(), LineFault>
    requires room { 2 ^ 20 ≤ vec_capacity line.old }
    requires fits { length (line.old).items ≤ 2 ^ 20 }
    ensures bytes { OnOk result ((line.new).items ≡ (line.old).items ++ piece.now) }
    ensures long { OnErr result (longest_line < length ((line.old).items ++ piece.now)) }
    ensures stays { OnErr result ((line.new).items ≡ (line.old).items) }
    ensures kind { IfErr result (λ e. e ≡ LineFault.TooLong) }
    ensures still_room { 2 ^ 20 ≤ vec_capacity line.new }
    ensures still_fits { length (line.new).items ≤ 2 ^ 20 }
{
    if piece.len() > LONGEST_LINE - line.len() {
        return Err(LineFault::TooLong);
    }
    line.extend_from_slice(piece).unwrap();
    Ok(())
}
