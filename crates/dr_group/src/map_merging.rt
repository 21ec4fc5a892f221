//! Merging maps of groups.

ghost use Rattle.std.specs.Prelude.{◌≡◌, ◌^◌, OnErr};
ghost use Rattle.dr_partials.specs.Partials.{merge_groups};
ghost use Rattle.dr_partials.specs.PartialBounds.{GroupsCanBeOf};
ghost use Rattle.dr_group.specs.Gathering.{Becomes};
ghost use Rattle.dr_group.specs.Maps.{groups_view, gatherings_view};

use crate::group_map::GroupMap;
use crate::index::Index;
use crate::merging::merge_into;
use crate::ordering::numbers_in_order;
use dr_memory::NoMemory;
use std::alloc::Global;
use std::mem;

impl GroupMap {
    /// Merges groups into these, by key tuple.
    ///
    /// Errors: want of memory, or of room for the numbers of groups. Nothing has changed then.
    pub fn merge(&mut self, alloc: Global, other: GroupMap) -> Result<(), NoMemory>
        requires mine { GroupsCanBeOf (2 ^ 60) (groups_view self.old) }
        requires theirs { GroupsCanBeOf (2 ^ 60) (groups_view other) }
        ensures groups { Becomes (groups_view self.old) (groups_view self.new)
            (merge_groups (groups_view self.old) (groups_view other)) result }
        ensures gatherings { gatherings_view self.new ≡ gatherings_view self.old }
    {
        let mut other = other;
        self.merge_from(alloc, &mut other)
    }

    /// Merges groups into these, by key tuple, and leaves none there. No value is copied; both are put in order, and
    /// then merged from their fronts.
    ///
    /// Errors: want of memory, or of room for the numbers of groups. Nothing has changed then, there neither.
    pub fn merge_from(&mut self, alloc: Global, other: &mut GroupMap) -> Result<(), NoMemory>
        requires mine { GroupsCanBeOf (2 ^ 60) (groups_view self.old) }
        requires theirs { GroupsCanBeOf (2 ^ 60) (groups_view other.old) }
        ensures groups { Becomes (groups_view self.old) (groups_view self.new)
            (merge_groups (groups_view self.old) (groups_view other.old)) result }
        ensures gatherings { gatherings_view self.new ≡ gatherings_view self.old }
        ensures kept { OnErr result (other.new ≡ other.old) }
    {
        let my_order = numbers_in_order(alloc, &self.groups)?;
        let their_order = numbers_in_order(alloc, &other.groups)?;
        let count = my_order.len() + their_order.len();
        let mut merged = Vec::with_capacity(alloc, count)?;
        let mut theirs = mem::replace(&mut other.groups, Vec::new(alloc));
        other.index = Index::new(alloc);
        other.ordered = None;
        merge_into(
            alloc,
            &mut self.groups,
            &my_order,
            &mut theirs,
            &their_order,
            &mut merged,
        );
        self.groups = merged;
        self.index = Index::new(alloc);
        self.ordered = None;
        Ok(())
    }
}
