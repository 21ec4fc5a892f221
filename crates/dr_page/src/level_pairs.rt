//! Repetition and definition levels side by side, a piece at a time.

ghost use Rattle.std.specs.Prelude.{◌≡◌, ◌≤◌, ℕ, List, [], length, OnOk};
ghost use Rattle.dr_formats.specs.Page.{count_equal};
ghost use Rattle.dr_page.specs.Parts.{PairsOf};
ghost use Rattle.dr_page.specs.LevelPieces.{HavePairs, piece_of, TakesNextPairs};

use crate::fault::PageFault;
use crate::level_cursor::LevelCursor;
use crate::levels::{count_equal, pair_levels};
use crate::part::{BodyParts, part_bytes};
use dr_levels::Levels;
use std::alloc::Global;

/// The levels of a body, read a piece at a time, and the pairs of the last piece.
#[derive(Drop)]
pub(crate) struct LevelPairs {
    pub(crate) repetitions: LevelCursor,
    pub(crate) definitions: LevelCursor,
    pub(crate) pairs: Vec<Levels>,
}

impl LevelPairs {
    /// Levels that are all 0. Takes no memory.
    pub(crate) fn new(alloc: Global) -> LevelPairs {
        LevelPairs {
            repetitions: LevelCursor::new(alloc),
            definitions: LevelCursor::new(alloc),
            pairs: Vec::new(alloc),
        }
    }

    /// Begins a body, of whose levels these are the greatest.
    pub(crate) fn begin(&mut self, repetition: u8, definition: u8)
        requires repetition { repetition ≤ 32 }
        requires definition { definition ≤ 32 }
        ensures begun { (bytes : List ℕ) → (p : BodyParts) → HavePairs bytes p [] [] self.new }
        ensures repetition { (self.new).repetitions.greatest ≡ repetition }
        ensures definition { (self.new).definitions.greatest ≡ definition }
    {
        self.repetitions.begin(repetition);
        self.definitions.begin(definition);
    }

    /// Puts the pairs of the next levels into the place of the last piece, as many as are wanted.
    pub(crate) fn next(
        &mut self,
        parts: BodyParts,
        bytes: &[u8],
        count: usize,
    ) -> Result<(), PageFault>
        ensures next { TakesNextPairs bytes.now parts count self.old self.new result }
        ensures pairs { OnOk result (PairsOf (piece_of (self.new).repetitions) (piece_of (self.new).definitions)
            (self.new).pairs.items) }
        ensures count { OnOk result (length (self.new).pairs.items ≡ count) }
        ensures repetition { (self.new).repetitions.greatest ≡ (self.old).repetitions.greatest }
        ensures definition { (self.new).definitions.greatest ≡ (self.old).definitions.greatest }
    {
        self.repetitions
            .next(part_bytes(bytes, parts.repetitions), count)?;
        self.definitions
            .next(part_bytes(bytes, parts.definitions), count)?;
        let repetitions = &self.repetitions;
        let definitions = &self.definitions;
        pair_levels(&repetitions.levels, &definitions.levels, &mut self.pairs)?;
        Ok(())
    }

    /// How many triplets of the last piece have a value.
    pub(crate) fn count_values(&self) -> usize
        ensures { result ≡ count_equal (self.now).definitions.greatest (piece_of (self.now).definitions) }
    {
        count_equal(self.definitions.greatest, &self.definitions.levels)
    }
}
