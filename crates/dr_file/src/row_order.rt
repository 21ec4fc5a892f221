//! Whether triplets that come a piece at a time are those of whole rows.

ghost use Rattle.std.specs.Prelude.{◌≡◌, ◌==◌, ◌++◌, [], List, ℕ, map, true, false};
ghost use Rattle.dr_meaning.specs.Path.{Step as MeantStep};
ghost use Rattle.dr_meaning.specs.Column.{Triplet};
ghost use Rattle.dr_meaning.specs.OneColumn.{starts, begins_record};
ghost use Rattle.dr_file.specs.Floors.{AreFloorsOf, bare};
ghost use Rattle.dr_file.specs.RowOrders.{IsOrder, are_rows, go_behind};

use crate::floors::{Floors, Following};
use dr_levels::Levels;

/// How far the triplets of some rows have come.
#[derive(Clone, Copy)]
pub(crate) struct RowOrder {
    /// The definition level of the triplet before.
    pub(crate) last: Option<u8>,
    /// How many rows have yet to begin.
    pub(crate) rows: u64,
}

impl RowOrder {
    /// Before the first triplet of so many rows.
    pub(crate) fn of_rows(rows: u64) -> RowOrder
        ensures { (p : List MeantStep) → IsOrder p rows [] result }
    {
        RowOrder { last: None, rows }
    }

    /// Whether all rows have begun.
    pub(crate) fn is_done(self) -> bool
        ensures { result ≡ (self.rows == 0) }
    {
        self.rows == 0
    }

    /// Whether triplets of these levels may stand behind those that came, whatever the rows, and how many begin a row.
    fn look_at(self, floors: &Floors, levels: &[Levels]) -> Following
        ensures fits { (p : List MeantStep) → AreFloorsOf p floors.now → result.fits
            ≡ go_behind p self.last (map bare levels.now) }
        ensures begun { result.begun ≡ starts (map bare levels.now) }
    {
        if let Some(before) = self.last {
            return floors.follow(before, levels);
        }
        let found = floors.follow(0, levels);
        Following {
            fits: found.fits & begin_row(levels),
            begun: found.begun,
        }
    }

    /// Goes on by triplets of these levels; false where no triplets of the rows go on so.
    pub(crate) fn go_on(&mut self, floors: &Floors, levels: &[Levels]) -> bool
        ensures on { (p : List MeantStep) (rows : ℕ) (ts : List Triplet) → AreFloorsOf p floors.now
            → IsOrder p rows ts self.old → result ≡ true → IsOrder p rows (ts ++ map bare levels.now) self.new }
        ensures stuck { (p : List MeantStep) (rows : ℕ) (ts more : List Triplet) → AreFloorsOf p floors.now
            → IsOrder p rows ts self.old → result ≡ false
            → are_rows p rows (ts ++ (map bare levels.now ++ more)) ≡ false }
    {
        if levels.is_empty() {
            return true;
        }
        let found = self.look_at(floors, levels);
        if found.begun as u64 > self.rows {
            return false;
        }
        if !found.fits {
            return false;
        }
        self.rows -= found.begun as u64;
        self.last = Some(levels[levels.len() - 1].definition);
        true
    }
}

/// Whether the first of some levels, if there is one, begins a row.
fn begin_row(levels: &[Levels]) -> bool
    ensures { result ≡ begins_record (map bare levels.now) }
{
    match levels {
        [] => true,
        [first, ..] => first.repetition == 0,
    }
}
