//! Where a leaf's column is read.

ghost use Rattle.std.specs.Prelude.{◌≡◌, ◌≤◌, length, take, true};
ghost use Rattle.dr_levels.specs.Dense.{present};
ghost use Rattle.dr_levels.specs.Lent.{lent_values};
ghost use Rattle.dr_rows_beside.specs.Lent.{has_texts};

use crate::lent::value_of;
use dr_levels::{Levels, Triplets, ValueRef, ValuesRef};

/// Where the next triplet of a leaf is, and its next value.
#[derive(Clone, Copy)]
pub struct Place<'r> {
    pub leaf: usize,
    /// It goes on where a deeper leaf's repetition level is at most this.
    pub depth: u8,
    greatest: u8,
    levels: &'r [Levels],
    values: ValuesRef<'r>,
    at: usize,
    value: usize,
    pub ghost within: { at ≤ length levels.now },
    pub ghost counted: { value ≡ present greatest (take at levels.now) },
    pub ghost dense: { present greatest levels.now ≡ length (lent_values values) },
    pub ghost texts: { has_texts values ≡ true },
}

impl<'r> Place<'r> {
    ghost use Rattle.std.specs.Prelude.{◌<◌, map, option_map, slice_index_or, Some, None};
    ghost use Rattle.std.specs.List.{slice_get};
    ghost use Rattle.dr_levels.specs.Views.{triplets_view};
    ghost use Rattle.dr_beside.specs.Neighbours.{column_at};
    ghost use Rattle.dr_rows_beside.specs.Places.{place_left, Passes, LevelsAt};

    /// Before the first triplet of a leaf's column.
    pub fn new(leaf: u32, depth: u8, columns: &[Triplets<'r>]) -> Place<'r>
        requires { leaf < length columns.now }
        ensures left { place_left result ≡ column_at (map triplets_view columns.now) leaf }
        ensures leaf { result.leaf ≡ leaf }
        ensures depth { result.depth ≡ depth }
    {
        let column = columns[leaf as usize];
        Place {
            leaf: leaf as usize,
            depth,
            greatest: column.greatest_definition(),
            levels: column.levels(),
            values: column.values(),
            at: 0,
            value: 0,
        }
    }

    /// The repetition level of the next triplet; none at the end.
    #[inline(always)]
    pub fn peek(&self) -> Option<u8>
        ensures { LevelsAt result (place_left self.now) }
    {
        if self.at >= self.levels.len() {
            return None;
        }
        Some(self.levels[self.at].repetition)
    }

    /// The next value, where there is one.
    #[inline(always)]
    pub fn next(&mut self) -> Option<ValueRef<'r>>
        requires { (self.old).at < length ((self.old).levels).now }
        ensures passes { Passes (place_left self.old) (place_left self.new) result }
        ensures leaf { (self.new).leaf ≡ (self.old).leaf }
        ensures depth { (self.new).depth ≡ (self.old).depth }
    {
        let definition = self.levels[self.at].definition;
        self.at += 1;
        if definition != self.greatest {
            return None;
        }
        let number = self.value;
        self.value = number + 1;
        Some(value_of(self.values, number))
    }
}
