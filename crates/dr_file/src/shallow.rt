//! Levels of a leaf that has few repeated fields, which are looked at many at once.

ghost use Rattle.std.specs.Prelude.{◌≡◌, ◌≤◌, List, length, map, None};
ghost use Rattle.dr_meaning.specs.Column.{triplet};
ghost use Rattle.dr_meaning.specs.Path.{Step as MeantStep};
ghost use Rattle.dr_meaning.specs.OneColumn.{starts, all_follow};
ghost use Rattle.dr_levels.specs.Apart as apart;
ghost use Rattle.dr_levels.specs.declared.triplet.Levels.{Levels as MeantLevels};
ghost use Rattle.dr_file.specs.Floors.{bare, shallow_least, AreShallowOf};

use crate::floors::Following;
use dr_levels::{Levels, PIECE, part, put_both};

/// The definition levels that the triplets have at least between which the repetition levels 1, 2 and 3 stand, and the
/// one of all greater levels.
#[derive(Clone, Copy)]
pub(crate) struct Shallow {
    pub(crate) first: u8,
    pub(crate) second: u8,
    pub(crate) third: u8,
    pub(crate) others: u8,
}

/// How many of a few repetition levels begin a row. All are looked at, many at once.
#[inline(always)]
fn count_zeros(repetitions: &[u8]) -> u8
    requires { length repetitions.now ≤ 224 }
    ensures count { (ls : List MeantLevels) → apart.repetitions ls ≡ repetitions.now → result ≡ starts (map bare ls) }
    ensures within { result ≤ length repetitions.now }
{
    let mut begun = 0u8;
    'levels: for at in 0..repetitions.len() {
        begun += u8::from(repetitions[at] == 0);
    }
    begun
}

impl Shallow {
    /// The one of a repetition level.
    #[inline(always)]
    fn least(self, repetition: u8) -> u8
        ensures { result ≡ shallow_least self repetition }
    {
        if repetition == 0 {
            0
        } else if repetition == 1 {
            self.first
        } else if repetition == 2 {
            self.second
        } else if repetition == 3 {
            self.third
        } else {
            self.others
        }
    }

    /// Whether each of a few levels may follow the one before it, the first a triplet of this definition level. All are
    /// looked at, many at once.
    #[inline(always)]
    fn parts_follow(self, before: u8, repetitions: &[u8], definitions: &[u8]) -> bool
        requires { length definitions.now ≡ length repetitions.now }
        ensures { (p : List MeantStep) (ls : List MeantLevels) → AreShallowOf p self
            → apart.repetitions ls ≡ repetitions.now → apart.definitions ls ≡ definitions.now
            → result ≡ all_follow p (triplet 0 before None) (map bare ls) }
    {
        let mut last = before;
        let mut fits = true;
        'levels: for at in 0..repetitions.len() {
            let definition = definitions[at];
            let floor = self.least(repetitions[at]);
            fits = fits & ((floor <= last) & (floor <= definition));
            last = definition;
        }
        fits
    }

    /// What is found of a few levels that follow a triplet of this definition level.
    fn follow_few(self, before: u8, levels: &[Levels]) -> Following
        requires { length levels.now ≤ 224 }
        ensures fits { (p : List MeantStep) → AreShallowOf p self → result.fits
            ≡ all_follow p (triplet 0 before None) (map bare levels.now) }
        ensures begun { result.begun ≡ starts (map bare levels.now) }
        ensures within { result.begun ≤ length levels.now }
    {
        let mut both_room = [0u16; PIECE];
        let mut repetitions_room = [0u8; PIECE];
        let mut definitions_room = [0u8; PIECE];
        let both = &mut both_room[..levels.len()];
        let repetitions = &mut repetitions_room[..levels.len()];
        let definitions = &mut definitions_room[..levels.len()];
        put_both(levels, both);
        part(both, repetitions, definitions);
        Following {
            fits: self.parts_follow(before, repetitions, definitions),
            begun: usize::from(count_zeros(repetitions)),
        }
    }

    /// What is found of levels that follow a triplet of this definition level.
    pub(crate) fn follow(self, before: u8, levels: &[Levels]) -> Following
        ensures fits { (p : List MeantStep) → AreShallowOf p self → result.fits
            ≡ all_follow p (triplet 0 before None) (map bare levels.now) }
        ensures begun { result.begun ≡ starts (map bare levels.now) }
    {
        let mut last = before;
        let mut fits = true;
        let mut begun = 0;
        let mut rest = levels;
        'pieces: while rest.len() > PIECE {
            let (piece, others) = rest.split_at(PIECE);
            let found = self.follow_few(last, piece);
            fits = fits & found.fits;
            begun += found.begun;
            last = piece[PIECE - 1].definition;
            rest = others;
        }
        let found = self.follow_few(last, rest);
        Following {
            fits: fits & found.fits,
            begun: begun + found.begun,
        }
    }
}
