//! Lines on standard error, built without memory.

ghost use Rattle.std.specs.Prelude.{◌≡◌, ◌≤◌, ◌+◌, ◌++◌, ℕ, List, [], length, take};

use std::marker::Model;

/// The greatest length of a line, in bytes.
pub const LONGEST_REPORT: usize = 1024;

/// A line that grows piece by piece.
#[derive(Drop)]
pub struct Report {
    bytes: [u8; LONGEST_REPORT],
    len: usize,
}

impl Model for Report {
    ghost Value = { List ℕ };

    ghost view = { λ r. take r.len r.bytes };

    ghost invariant = { λ r. r.len ≤ 1024 };
}

impl Report {
    /// An empty line.
    pub fn new() -> Report
        ensures { result ≡ [] }
    {
        Report {
            bytes: [0; LONGEST_REPORT],
            len: 0,
        }
    }

    /// Appends a piece.
    pub fn push(&mut self, piece: &str)
        requires { length self.old + length piece.now ≤ LONGEST_REPORT }
        ensures bytes { self.new ≡ self.old ++ piece.now }
        ensures len { length self.new ≡ length self.old + length piece.now }
    {
        let end = self.len + piece.len();
        self.bytes[self.len..end].copy_from_slice(piece.as_bytes());
        self.len = end;
    }

    /// The bytes so far.
    pub fn bytes(&self) -> &[u8]
        ensures { result.now ≡ self.now }
    {
        &self.bytes[..self.len]
    }
}
