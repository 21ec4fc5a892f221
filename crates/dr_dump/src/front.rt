//! The triplets of the first records of a column.

ghost use Rattle.std.specs.Prelude.{◌≡◌, List, map};
ghost use Rattle.dr_meaning.specs.Column.{Triplet};
ghost use Rattle.dr_levels.specs.Views.{levels_pair, triplet_levels};
ghost use Rattle.dr_dump.specs.Fronts.{IsFront};

use dr_levels::Levels;

/// A front of a leaf's triplets.
#[derive(Clone, Copy)]
pub(crate) struct Front {
    pub(crate) length: usize,
    /// How many records begin in it.
    pub(crate) records: u64,
}

/// The triplets before those of the next record, where so many begin before it; all of them, where no more begin.
pub(crate) fn front_of(levels: &[Levels], records: u64) -> Front
    ensures { (ts : List Triplet) → map levels_pair levels.now ≡ map triplet_levels ts → IsFront ts records result }
{
    let mut begun = 0;
    'levels: for (place, level) in levels.iter().enumerate() {
        if level.repetition == 0 {
            if begun == records {
                return Front {
                    length: place,
                    records: begun,
                };
            }
            begun += 1;
        }
    }
    Front {
        length: levels.len(),
        records: begun,
    }
}
