//! Leaves that grow.

ghost use Rattle.std.specs.Prelude.{◌≡◌, ◌≤◌, ◌<◌, ◌∷◌, [], ◌++◌, ◌-◌, length, take, drop, true, option_map, OnOk};
ghost use Rattle.dr_meaning.specs.Column.{triplet};
ghost use Rattle.dr_levels.specs.Views.{column_view, column_form, lent_value};
ghost use Rattle.dr_levels.specs.Columns.{Adds, takes};
ghost use Rattle.dr_levels.specs.Dense.{present};
ghost use Rattle.dr_striper.specs.Added.{grown};
ghost use Rattle.dr_striper.specs.Back.{kept_seen, kept_own};
ghost use Rattle.dr_striper.specs.Views.{nulls};

use crate::branch::LeafGrown;
use dr_levels::{Column, Levels, Triplet, ValueRef};
use dr_nested::NoMemory;

/// Appends levels without a value, from a place up to another.
fn take_over(
    column: &mut Column,
    above: &[Levels],
    from: usize,
    until: usize,
) -> Result<(), NoMemory>
    requires order { from ≤ until }
    requires within { until ≤ length above.now }
    requires nulls { present (column_form column.old).greatest (take (until - from) (drop from above.now)) ≡ 0 }
    ensures triplets { Adds (column_view column.old) (column_view column.new)
        (nulls (take (until - from) (drop from above.now))) result }
    ensures form { column_form column.new ≡ column_form column.old }
{
    column.extend_nulls(&above[from..until])
}

impl LeafGrown {
    /// Takes over what it hasn't seen of the levels above it, up to a place.
    pub(crate) fn catch_up(&mut self, above: &[Levels], until: usize) -> Result<(), NoMemory>
        requires seen { (self.old).seen ≤ until }
        requires within { until ≤ length above.now }
        requires nulls { present (column_form (self.old).column).greatest (take (until - (self.old).seen) (drop
            (self.old).seen above.now)) ≡ 0 }
        ensures column { OnOk result (column_view (self.new).column
            ≡ grown (self.old).seen (column_view (self.old).column) (nulls (take until above.now))) }
        ensures seen { OnOk result ((self.new).seen ≡ until) }
        ensures form { column_form (self.new).column ≡ column_form (self.old).column }
    {
        take_over(&mut self.column, above, self.seen, until)?;
        self.seen = until;
        Ok(())
    }

    /// Notes what it is before a record in which it has taken no part, where so many levels above were there before.
    #[inline(always)]
    fn mark(&mut self, kept: usize)
        ensures was_seen { (self.new).was_seen ≡ kept_seen kept (self.old).seen (self.old).was_seen }
        ensures was_own { take (self.new).was_long (column_view (self.old).column)
            ≡ kept_own kept (self.old).seen (self.old).was_long (column_view (self.old).column) }
        ensures column { (self.new).column ≡ (self.old).column }
        ensures same { (self.new).seen ≡ (self.old).seen }
    {
        if self.seen <= kept {
            self.was_seen = self.seen;
            self.was_long = self.column.len();
        }
    }

    /// A value in the last instance of the group round it, the first one: what it hasn't seen before comes before it.
    /// So many levels above were there before the record.
    pub(crate) fn push_first(
        &mut self,
        kept: usize,
        above: &[Levels],
        repetition: u8,
        definition: u8,
        value: Option<ValueRef<'_>>,
    ) -> Result<(), NoMemory>
        requires some { 1 ≤ length above.now }
        requires begun { kept < length above.now }
        requires seen { (self.old).seen ≤ length above.now - 1 }
        requires nulls { present (column_form (self.old).column).greatest (take (length above.now - 1 -
            (self.old).seen) (drop (self.old).seen above.now)) ≡ 0 }
        requires takes { takes (column_form (self.old).column) (triplet repetition definition
            (option_map lent_value value)) ≡ true }
        ensures column { OnOk result (column_view (self.new).column
            ≡ grown (self.old).seen (column_view (self.old).column) (nulls (take (length above.now - 1) above.now))
            ++ triplet repetition definition (option_map lent_value value.entry) ∷ []) }
        ensures seen { (self.new).seen ≡ length above.now }
        ensures kept_seen { kept_seen kept (self.new).seen (self.new).was_seen
            ≡ kept_seen kept (self.old).seen (self.old).was_seen }
        ensures kept_own { kept_own kept (self.new).seen (self.new).was_long (column_view (self.new).column)
            ≡ kept_own kept (self.old).seen (self.old).was_long (column_view (self.old).column) }
        ensures form { column_form (self.new).column ≡ column_form (self.old).column }
    {
        self.mark(kept);
        let from = self.seen;
        self.seen = above.len();
        take_over(&mut self.column, above, from, above.len() - 1)?;
        self.column.push(Triplet {
            repetition,
            definition,
            value,
        })
    }

    /// A value in the last instance of the group round it, behind another one.
    pub(crate) fn push_later(
        &mut self,
        kept: usize,
        repetition: u8,
        definition: u8,
        value: Option<ValueRef<'_>>,
    ) -> Result<(), NoMemory>
        requires begun { kept < (self.old).seen }
        requires takes { takes (column_form (self.old).column) (triplet repetition definition
            (option_map lent_value value)) ≡ true }
        ensures column { Adds (column_view (self.old).column) (column_view (self.new).column)
            (triplet repetition definition (option_map lent_value value.entry) ∷ []) result }
        ensures seen { (self.new).seen ≡ (self.old).seen }
        ensures kept_seen { kept_seen kept (self.new).seen (self.new).was_seen
            ≡ kept_seen kept (self.old).seen (self.old).was_seen }
        ensures kept_own { kept_own kept (self.new).seen (self.new).was_long (column_view (self.new).column)
            ≡ kept_own kept (self.old).seen (self.old).was_long (column_view (self.old).column) }
        ensures form { column_form (self.new).column ≡ column_form (self.old).column }
    {
        self.column.push(Triplet {
            repetition,
            definition,
            value,
        })
    }

    /// Takes back a record in which it took part if it has seen more than the levels above that were there before.
    pub(crate) fn take_back(&mut self, kept: usize)
        ensures column { column_view (self.new).column ≡ kept_own kept (self.old).seen (self.old).was_long
            (column_view (self.old).column) }
        ensures seen { (self.new).seen ≡ kept_seen kept (self.old).seen (self.old).was_seen }
        ensures form { column_form (self.new).column ≡ column_form (self.old).column }
    {
        if self.seen > kept {
            self.column.truncate(self.was_long);
            self.seen = self.was_seen;
        }
    }
}
