//! Levels of a part of a page's body, a piece at a time.

ghost use Rattle.std.specs.Prelude.{◌≡◌, ◌≤◌, replicate, OnOk};
ghost use Rattle.dr_hybrid.specs.Reader.{width_at};

use crate::fault::PageFault;
use crate::level_part::{level_width, none_above};
use dr_hybrid::RunReader;
use dr_memory::NoMemory;
use std::alloc::Global;

/// Levels of a part, read a piece at a time, and the last piece. Where the greatest level is 0 the part isn't looked
/// at: all are 0.
#[derive(Drop)]
pub(crate) struct LevelCursor {
    pub(crate) greatest: u8,
    pub(crate) runs: RunReader,
    pub(crate) levels: Vec<u8>,
    pub ghost within: { greatest ≤ 32 },
    pub ghost narrow: { width_at runs ≤ 8 },
}

impl LevelCursor {
    ghost use Rattle.std.specs.Prelude.{ℕ, List, [], length};
    ghost use Rattle.dr_page.specs.LevelPieces.{HasLevels, TakesLevels, piece_of};

    /// A cursor over levels that are all 0. Takes no memory.
    pub(crate) fn new(alloc: Global) -> LevelCursor {
        LevelCursor {
            greatest: 0,
            runs: RunReader::start(0),
            levels: Vec::new(alloc),
        }
    }

    /// Begins a part, of whose levels this one is the greatest.
    pub(crate) fn begin(&mut self, greatest: u8)
        requires { greatest ≤ 32 }
        ensures begun { (part : List ℕ) → HasLevels part [] self.new }
        ensures greatest { (self.new).greatest ≡ greatest }
    {
        self.greatest = greatest;
        self.runs = RunReader::start(level_width(greatest));
    }

    /// Puts the next levels of the part into the place of the last piece, as many as are wanted.
    pub(crate) fn next(&mut self, part: &[u8], count: usize) -> Result<(), PageFault>
        ensures next { (given : List ℕ) → HasLevels part.now given self.old
            → TakesLevels part.now given count (self.old).greatest self.new result }
        ensures count { OnOk result (length (piece_of self.new) ≡ count) }
        ensures greatest { (self.new).greatest ≡ (self.old).greatest }
    {
        if self.greatest == 0 {
            put_zeros(count, &mut self.levels)?;
            return Ok(());
        }
        self.levels.resize(count, 0)?;
        self.runs.next(part, &mut self.levels)?;
        if none_above(self.greatest, &self.levels) {
            Ok(())
        } else {
            Err(PageFault::BadData)
        }
    }
}

/// Puts so many zeros into the place of levels.
fn put_zeros(count: usize, levels: &mut Vec<u8>) -> Result<(), NoMemory>
    ensures { OnOk result ((levels.new).items ≡ replicate count 0) }
{
    levels.clear();
    levels.resize(count, 0)?;
    Ok(())
}
