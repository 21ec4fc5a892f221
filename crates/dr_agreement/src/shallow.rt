//! Levels of a leaf that has few repeated fields.

ghost use Rattle.std.specs.Prelude.{◌≡◌, ◌≤◌, ℕ, List, length, map};
ghost use Rattle.dr_meaning.specs.Path.{Step as MeantStep};
ghost use Rattle.dr_levels.specs.Apart as apart;
ghost use Rattle.dr_levels.specs.Views.{levels_pair};
ghost use Rattle.dr_levels.specs.declared.triplet.Levels.{Levels as MeantLevels};
ghost use Rattle.dr_agreement.specs.Alone.{each_may_stand, may_stand, shallow_least, IsShallowOf};

use dr_levels::{Levels, PIECE, part, put_both};

/// The greatest levels of a leaf with at most three repeated fields, and the definition levels that the triplets have
/// at least between which the repetition levels 1, 2 and 3 stand.
#[derive(Clone, Copy)]
pub(crate) struct Shallow {
    pub(crate) greatest: u8,
    pub(crate) most: u8,
    pub(crate) first: u8,
    pub(crate) second: u8,
    pub(crate) third: u8,
}

impl Shallow {
    /// The least level of a repetition level.
    #[inline(always)]
    fn least(self, repetition: u8) -> u8
        ensures { result ≡ shallow_least self repetition }
    {
        if repetition == 1 {
            self.first
        } else if repetition == 2 {
            self.second
        } else if repetition == 3 {
            self.third
        } else {
            0
        }
    }

    /// Whether these levels may stand behind a triplet of this definition level.
    #[inline(always)]
    fn may_stand(self, before: u8, repetition: u8, definition: u8) -> bool
        ensures { (p : List MeantStep) → IsShallowOf p self → result ≡ may_stand p before (repetition, definition) }
    {
        let least = self.least(repetition);
        (repetition <= self.most)
            & ((least <= before) & (least <= definition) & (definition <= self.greatest))
    }

    /// Whether a few levels may stand, each behind the one before it, the first behind this definition level. All are
    /// looked at, many at once.
    #[inline(always)]
    fn parts_may_stand(self, before: u8, repetitions: &[u8], definitions: &[u8]) -> bool
        requires { length definitions.now ≡ length repetitions.now }
        ensures { (p : List MeantStep) (ls : List MeantLevels) → IsShallowOf p self
            → apart.repetitions ls ≡ repetitions.now → apart.definitions ls ≡ definitions.now
            → result ≡ each_may_stand p before (map levels_pair ls) }
    {
        let mut last = before;
        let mut fits = true;
        'levels: for at in 0..repetitions.len() {
            let definition = definitions[at];
            fits = fits & self.may_stand(last, repetitions[at], definition);
            last = definition;
        }
        fits
    }

    /// The same of a few levels that aren't parted yet.
    fn few_may_stand(self, before: u8, levels: &[Levels]) -> bool
        requires { length levels.now ≤ 224 }
        ensures { (p : List MeantStep) → IsShallowOf p self
            → result ≡ each_may_stand p before (map levels_pair levels.now) }
    {
        let mut both_room = [0u16; PIECE];
        let mut repetitions_room = [0u8; PIECE];
        let mut definitions_room = [0u8; PIECE];
        let both = &mut both_room[..levels.len()];
        let repetitions = &mut repetitions_room[..levels.len()];
        let definitions = &mut definitions_room[..levels.len()];
        put_both(levels, both);
        part(both, repetitions, definitions);
        self.parts_may_stand(before, repetitions, definitions)
    }

    /// Whether levels may stand, each behind the one before it.
    pub(crate) fn each_may_stand(self, levels: &[Levels]) -> bool
        ensures { (p : List MeantStep) → IsShallowOf p self
            → result ≡ each_may_stand p 0 (map levels_pair levels.now) }
    {
        let mut before = 0;
        let mut rest = levels;
        'pieces: while rest.len() > PIECE {
            let (piece, others) = rest.split_at(PIECE);
            if !self.few_may_stand(before, piece) {
                return false;
            }
            before = piece[PIECE - 1].definition;
            rest = others;
        }
        self.few_may_stand(before, rest)
    }
}
