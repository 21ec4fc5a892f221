//! Indices of a dictionary's values, a piece at a time.

ghost use Rattle.std.specs.Prelude.{◌≡◌, ◌≤◌, ◌<◌, ℕ, List, [], ◌∷◌, length, IfSome, IfNone, OnOk};
ghost use Rattle.dr_page.specs.ValuePieces.{HasIndices, TakesIndices, indices_of};

use crate::fault::PageFault;
use dr_hybrid::{GREATEST_WIDTH, RunReader};
use std::alloc::Global;

/// Indices, read a piece at a time, and the last piece: a byte of width and hybrid data. As long as none is wanted no
/// byte is needed.
#[derive(Drop)]
pub(crate) struct IndexCursor {
    pub(crate) runs: RunReader,
    pub(crate) indices: Vec<u32>,
}

impl IndexCursor {
    /// A cursor over nothing. Takes no memory.
    pub(crate) fn new(alloc: Global) -> IndexCursor {
        IndexCursor {
            runs: RunReader::start(0),
            indices: Vec::new(alloc),
        }
    }

    /// Begins bytes.
    pub(crate) fn begin(&mut self, bytes: &[u8])
        ensures { HasIndices bytes.now [] self.new }
    {
        let width = match index_runs(bytes) {
            Some((width, _)) => width,
            None => 0,
        };
        self.runs = RunReader::start(width);
    }

    /// Puts the next indices of the bytes into the place of the last piece, as many as are wanted.
    pub(crate) fn next(&mut self, bytes: &[u8], count: usize) -> Result<(), PageFault>
        ensures next { (given : List ℕ) → HasIndices bytes.now given self.old
            → TakesIndices bytes.now given count self.new result }
        ensures count { OnOk result (length (indices_of self.new) ≡ count) }
    {
        self.indices.resize(count, 0)?;
        if count == 0 {
            return Ok(());
        }
        match index_runs(bytes) {
            Some((_, runs)) => Ok(self.runs.next(runs, &mut self.indices)?),
            None => Err(PageFault::BadData),
        }
    }
}

/// The width of indices, which is the first byte, and the hybrid data behind it; none where there is no width of at
/// most 32 bits.
fn index_runs(bytes: &[u8]) -> Option<(u32, &[u8])>
    ensures some { IfSome result (λ p. (bytes.now ≡ p.0 ∷ p.1.now) × (p.0 ≤ 32)) }
    ensures none { IfNone result ((w : ℕ) → (bs : List ℕ) → bytes.now ≡ w ∷ bs → 32 < w) }
{
    match bytes {
        [width, runs @ ..] if u32::from(*width) <= GREATEST_WIDTH => Some((
            u32::from(*width),
            runs,
        )),
        _ => None,
    }
}
