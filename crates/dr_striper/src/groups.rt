//! Groups that grow.

ghost use Rattle.std.specs.Prelude.{◌≡◌, ◌≤◌, ◌<◌, ◌∷◌, [], ◌++◌, ◌-◌, length, take, drop, None, OnOk};
ghost use Rattle.dr_meaning.specs.Column.{triplet};
ghost use Rattle.dr_levels.specs.Columns.{Adds};
ghost use Rattle.dr_striper.specs.Added.{grown};
ghost use Rattle.dr_striper.specs.Back.{kept_seen, kept_own};
ghost use Rattle.dr_striper.specs.Views.{nulls};

use crate::branch::GroupGrown;
use dr_levels::Levels;
use dr_nested::NoMemory;

/// Appends levels, from a place up to another.
fn take_over(
    levels: &mut Vec<Levels>,
    above: &[Levels],
    from: usize,
    until: usize,
) -> Result<(), NoMemory>
    requires order { from ≤ until }
    requires within { until ≤ length above.now }
    ensures levels { Adds levels.old.items levels.new.items (take (until - from) (drop from above.now)) result }
{
    levels.extend_from_slice(&above[from..until])?;
    Ok(())
}

/// Appends a pair of levels.
#[inline(always)]
fn push_pair(levels: &mut Vec<Levels>, repetition: u8, definition: u8) -> Result<(), NoMemory>
    ensures levels { Adds (nulls levels.old.items) (nulls levels.new.items)
        (triplet repetition definition None ∷ []) result }
{
    levels.push(Levels {
        repetition,
        definition,
    })?;
    Ok(())
}

impl GroupGrown {
    /// Takes over what it hasn't seen of the levels above it, up to a place.
    pub(crate) fn catch_up(&mut self, above: &[Levels], until: usize) -> Result<(), NoMemory>
        requires seen { (self.old).seen ≤ until }
        requires within { until ≤ length above.now }
        ensures levels { OnOk result (nulls (self.new).levels.items
            ≡ grown (self.old).seen (nulls (self.old).levels.items) (nulls (take until above.now))) }
        ensures seen { OnOk result ((self.new).seen ≡ until) }
    {
        take_over(&mut self.levels, above, self.seen, until)?;
        self.seen = until;
        Ok(())
    }

    /// Notes what it is before a record in which it has taken no part, where so many levels above were there before.
    #[inline(always)]
    fn mark(&mut self, kept: usize)
        ensures was_seen { (self.new).was_seen ≡ kept_seen kept (self.old).seen (self.old).was_seen }
        ensures was_own { take (self.new).was_long (nulls (self.old).levels.items)
            ≡ kept_own kept (self.old).seen (self.old).was_long (nulls (self.old).levels.items) }
        ensures levels { (self.new).levels ≡ (self.old).levels }
        ensures same { (self.new).seen ≡ (self.old).seen }
    {
        if self.seen <= kept {
            self.was_seen = self.seen;
            self.was_long = self.levels.len();
        }
    }

    /// An instance in the last instance of the group round it, the first one: what it hasn't seen before comes before
    /// it. So many levels above were there before the record.
    pub(crate) fn begin_first(
        &mut self,
        kept: usize,
        above: &[Levels],
        repetition: u8,
        definition: u8,
    ) -> Result<(), NoMemory>
        requires some { 1 ≤ length above.now }
        requires begun { kept < length above.now }
        requires seen { (self.old).seen ≤ length above.now - 1 }
        ensures levels { OnOk result (nulls (self.new).levels.items
            ≡ grown (self.old).seen (nulls (self.old).levels.items) (nulls (take (length above.now - 1) above.now))
            ++ triplet repetition definition None ∷ []) }
        ensures begins { OnOk result ((self.new).was_long < length (self.new).levels.items) }
        ensures seen { (self.new).seen ≡ length above.now }
        ensures kept_seen { kept_seen kept (self.new).seen (self.new).was_seen
            ≡ kept_seen kept (self.old).seen (self.old).was_seen }
        ensures kept_own { kept_own kept (self.new).seen (self.new).was_long (nulls (self.new).levels.items)
            ≡ kept_own kept (self.old).seen (self.old).was_long (nulls (self.old).levels.items) }
    {
        self.mark(kept);
        let from = self.seen;
        self.seen = above.len();
        take_over(&mut self.levels, above, from, above.len() - 1)?;
        push_pair(&mut self.levels, repetition, definition)
    }

    /// An instance in the last instance of the group round it, behind another one.
    pub(crate) fn begin_later(
        &mut self,
        kept: usize,
        repetition: u8,
        definition: u8,
    ) -> Result<(), NoMemory>
        requires begun { kept < (self.old).seen }
        ensures levels { Adds (nulls (self.old).levels.items) (nulls (self.new).levels.items)
            (triplet repetition definition None ∷ []) result }
        ensures begins { OnOk result ((self.new).was_long < length (self.new).levels.items) }
        ensures seen { (self.new).seen ≡ (self.old).seen }
        ensures kept_seen { kept_seen kept (self.new).seen (self.new).was_seen
            ≡ kept_seen kept (self.old).seen (self.old).was_seen }
        ensures kept_own { kept_own kept (self.new).seen (self.new).was_long (nulls (self.new).levels.items)
            ≡ kept_own kept (self.old).seen (self.old).was_long (nulls (self.old).levels.items) }
    {
        push_pair(&mut self.levels, repetition, definition)
    }

    /// Takes back a record in which it took part if it has seen more than the levels above that were there before.
    pub(crate) fn take_back(&mut self, kept: usize)
        ensures levels { nulls (self.new).levels.items ≡ kept_own kept (self.old).seen (self.old).was_long (nulls
            (self.old).levels.items) }
        ensures seen { (self.new).seen ≡ kept_seen kept (self.old).seen (self.old).was_seen }
    {
        if self.seen > kept {
            self.levels.truncate(self.was_long);
            self.seen = self.was_seen;
        }
    }
}
