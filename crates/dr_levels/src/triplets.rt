//! Going through a column's triplets.

ghost use Rattle.std.specs.Prelude.{◌≡◌, ◌≤◌, ◌+◌, length};
ghost use Rattle.dr_levels.specs.Dense.{values_view, present};

use crate::column::Column;
use crate::joining::count_present;
use crate::triplet::{Levels, Triplet};
use crate::values_ref::ValuesRef;
use dr_nested::Kind;

/// A stretch of a column's triplets, from the next one on.
#[derive(Clone, Copy)]
pub struct Triplets<'a> {
    pub(crate) column: &'a Column,
    pub(crate) levels: &'a [Levels],
    /// The number of the column's values that lie before them.
    pub(crate) value: usize,
    /// How many of the column's values are theirs.
    pub(crate) count: usize,
    pub ghost counted: { count ≡ present (column.now).greatest levels.now },
    pub ghost there: { value + present (column.now).greatest levels.now ≤ length (values_view (column.now).values) },
}

impl<'a> Triplets<'a> {
    ghost use Rattle.std.specs.Prelude.{map, take, drop};
    ghost use Rattle.std.specs.Prelude.{true};
    ghost use Rattle.dr_nested.specs.Views.{kind_view};
    ghost use Rattle.dr_levels.specs.Views.{levels_pair, triplet_levels, triplet_view, triplets_view, triplets_form};
    ghost use Rattle.dr_levels.specs.Columns.{Gives};
    ghost use Rattle.dr_levels.specs.Lent.{lent_values, lends_kind, present_values};

    /// The kind of the leaf's values.
    #[inline(always)]
    pub fn kind(self) -> Kind
        ensures { kind_view result ≡ (triplets_form self.entry).kind }
    {
        self.column.kind
    }

    /// The leaf's greatest definition level.
    #[inline(always)]
    pub fn greatest_definition(self) -> u8
        ensures { result ≡ (triplets_form self.entry).greatest }
    {
        self.column.greatest
    }

    /// How many triplets are left.
    #[tactic(auto, using(crate::proofs::DenseLemmas::joined_length))]
    #[inline(always)]
    pub fn len(self) -> usize
        ensures { result ≡ length (triplets_view self.entry) }
    {
        self.levels.len()
    }

    /// The levels of the triplets that are left.
    #[tactic(auto, using(crate::proofs::DenseLemmas::joined_levels))]
    #[inline(always)]
    pub fn levels(self) -> &'a [Levels]
        ensures { map levels_pair result.now ≡ map triplet_levels (triplets_view self.entry) }
    {
        self.levels
    }

    /// The values of the triplets that are left, which stand side by side.
    #[inline(always)]
    pub fn values(self) -> ValuesRef<'a>
        ensures values { lent_values result ≡ present_values (triplets_view self.entry) }
        ensures kind { lends_kind (triplets_form self.entry).kind result ≡ true }
    {
        self.column.values.range(self.value, self.count)
    }

    /// The next triplet, which is passed; none at the end.
    #[inline(always)]
    pub fn next(&mut self) -> Option<Triplet<'a>>
        ensures triplet { Gives triplet_view (triplets_view self.old) (triplets_view self.new) result }
        ensures form { triplets_form self.new ≡ triplets_form self.old }
    {
        let (first, rest) = self.levels.split_first()?;
        let mut value = None;
        if first.definition == self.column.greatest {
            value = Some(self.column.values.get(self.value));
            self.value += 1;
            self.count -= 1;
        }
        self.levels = rest;
        Some(Triplet {
            repetition: first.repetition,
            definition: first.definition,
            value,
        })
    }

    /// The first so many of them, and the others.
    #[inline]
    pub fn split_at(self, count: usize) -> (Triplets<'a>, Triplets<'a>)
        requires { count ≤ length (triplets_view self) }
        ensures front { triplets_view result.0 ≡ take count (triplets_view self.entry) }
        ensures back { triplets_view result.1 ≡ drop count (triplets_view self.entry) }
        ensures front_form { triplets_form result.0 ≡ triplets_form self.entry }
        ensures back_form { triplets_form result.1 ≡ triplets_form self.entry }
    {
        let (front, back) = self.levels.split_at(count);
        let passed = count_present(self.column.greatest, front);
        (
            Triplets {
                column: self.column,
                levels: front,
                value: self.value,
                count: passed,
            },
            Triplets {
                column: self.column,
                levels: back,
                value: self.value + passed,
                count: self.count - passed,
            },
        )
    }
}
