//! Putting rows into groups.

ghost use Rattle.std.specs.Prelude.{◌≡◌, ◌<◌, List, map, length, option_map, ◌++◌, ◌∷◌, [], ℕ, IfOk, Option, Some, None};
ghost use Rattle.std.specs.List.{slice_get};
ghost use Rattle.dr_meaning.specs.Record.{Value};
ghost use Rattle.dr_meaning.specs.Query.{GroupItem};
ghost use Rattle.dr_partials.specs.Putting.{put_group};
ghost use Rattle.dr_group.specs.Views.{lent_cell};
ghost use Rattle.dr_group.specs.Gathering.{Becomes, gatherings_of, put_by};
ghost use Rattle.dr_group.specs.Groups.{group_view, put_of, put_view, taken_view, taken_at};
ghost use Rattle.dr_group.specs.Distinct.{IsFound};
ghost use Rattle.dr_group.specs.Finding.{IsReady};
ghost use Rattle.dr_group.specs.Maps.{groups_view, gatherings_view, tuples_view, groups_in, PutsInto, PutsAt};

use crate::entering::enter;
use crate::group::{Taken, new_group, take_into};
use crate::group_map::GroupMap;
use crate::merging::push_reserved;
use dr_levels::ValueRef;
use dr_memory::NoMemory;
use std::alloc::Global;

impl GroupMap {
    /// How many groups there are.
    pub fn len(&self) -> usize
        ensures { result ≡ length (groups_view self.now) }
    {
        self.groups.len()
    }

    /// Puts a key tuple, which makes its group where there is none, and takes a value into it, if one is given.
    ///
    /// Errors: want of memory, or of room for a count, a sum or a number of a group. Nothing has changed then.
    #[inline(always)]
    pub fn put(
        &mut self,
        alloc: Global,
        key: &[Option<ValueRef<'_>>],
        taken: Option<Taken<'_>>,
    ) -> Result<(), NoMemory>
        ensures groups { (items : List GroupItem) → gatherings_of items ≡ gatherings_view self.old
            → PutsInto items (put_view key.now taken.entry) self.old self.new result }
        ensures gatherings { gatherings_view self.new ≡ gatherings_view self.old }
    {
        if self.is_hinted(key) {
            return self.put_at(alloc, self.hint, key, taken);
        }
        match self.seek(alloc, key)? {
            Some(number) => {
                self.hint = number;
                self.put_at(alloc, number, key, taken)
            }
            None => {
                self.hint = self.groups.len();
                self.put_new(alloc, key, taken)
            }
        }
    }

    /// The number of the group of a key tuple, which is made where there is none. Numbers that were found stay.
    ///
    /// Errors: want of memory, or of room for a number of a group.
    #[inline(always)]
    pub fn group_of(
        &mut self,
        alloc: Global,
        key: &[Option<ValueRef<'_>>],
    ) -> Result<usize, NoMemory>
        ensures groups { IfOk result (λ n. (items : List GroupItem) → gatherings_of items ≡ gatherings_view self.old
            → groups_view self.new ≡ put_group items (put_of (map lent_cell key.now) None) (groups_view self.old)) }
        ensures gatherings { gatherings_view self.new ≡ gatherings_view self.old }
        ensures found { IfOk result (λ n. slice_get (tuples_view self.new) n ≡ Some (map lent_cell key.now)) }
        ensures stay { IfOk result (λ n. (k : ℕ) (tuple : List (Option Value))
            → slice_get (tuples_view self.old) k ≡ Some tuple → slice_get (tuples_view self.new) k ≡ Some tuple) }
    {
        let hinted = self.hints.find(key);
        if self.is_at(hinted, key) {
            return Ok(hinted);
        }
        let number = self.find_or_make(alloc, key)?;
        self.hints.put(key, number)?;
        Ok(number)
    }

    /// The same, where no hint tells it.
    #[inline]
    fn find_or_make(
        &mut self,
        alloc: Global,
        key: &[Option<ValueRef<'_>>],
    ) -> Result<usize, NoMemory>
        ensures groups { IfOk result (λ n. groups_view self.new
            ≡ put_by (self.old).gatherings.items (put_of (map lent_cell key.now) None) (groups_view self.old)) }
        ensures gatherings { (self.new).gatherings ≡ (self.old).gatherings }
        ensures found { IfOk result (λ n. slice_get (tuples_view self.new) n ≡ Some (map lent_cell key.now)) }
        ensures stay { IfOk result (λ n. (k : ℕ) (tuple : List (Option Value))
            → slice_get (tuples_view self.old) k ≡ Some tuple → slice_get (tuples_view self.new) k ≡ Some tuple) }
    {
        match self.seek(alloc, key)? {
            Some(number) => {
                self.hint = number;
                Ok(number)
            }
            None => {
                let number = self.groups.len();
                self.hint = number;
                self.put_new(alloc, key, None)?;
                Ok(number)
            }
        }
    }

    /// Takes a value into the group of a number: so it is put with the group's key tuple. Numbers stay.
    ///
    /// Errors: want of memory, or of room for a count or a sum. Nothing has changed then.
    #[inline(always)]
    pub fn take_in(
        &mut self,
        alloc: Global,
        number: usize,
        taken: Option<Taken<'_>>,
    ) -> Result<(), NoMemory>
        requires { number < length (self.old).groups.items }
        ensures groups { PutsAt number taken.entry self.old self.new result }
        ensures gatherings { gatherings_view self.new ≡ gatherings_view self.old }
        ensures tuples { tuples_view self.new ≡ tuples_view self.old }
    {
        self.take_at(alloc, number, taken)
    }

    /// Puts a key tuple into its group, of this number.
    #[inline(always)]
    fn put_at(
        &mut self,
        alloc: Global,
        number: usize,
        key: &[Option<ValueRef<'_>>],
        taken: Option<Taken<'_>>,
    ) -> Result<(), NoMemory>
        requires { IsFound (map lent_cell key.now) (map group_view (self.old).groups.items) (Some number) }
        ensures groups { Becomes (groups_view self.old) (groups_view self.new)
            (put_by (self.old).gatherings.items (put_view key.now taken.entry) (groups_view self.old)) result }
        ensures gatherings { (self.new).gatherings ≡ (self.old).gatherings }
        ensures tuples { tuples_view self.new ≡ tuples_view self.old }
    {
        self.take_at(alloc, number, taken)
    }

    /// Takes a value into the group of a number.
    #[inline(always)]
    fn take_at(
        &mut self,
        alloc: Global,
        number: usize,
        taken: Option<Taken<'_>>,
    ) -> Result<(), NoMemory>
        requires { number < length (self.old).groups.items }
        ensures groups { Becomes (groups_in self.old) (groups_in self.new)
            (taken_at (self.old).gatherings.items number (option_map taken_view taken.entry) (groups_in self.old))
            result }
        ensures gatherings { (self.new).gatherings ≡ (self.old).gatherings }
    {
        let group = &mut self.groups[number];
        take_into(alloc, &self.gatherings, &mut group.accumulators, taken)
    }

    /// Puts a key tuple of which there is no group, where all groups are indexed.
    fn put_new(
        &mut self,
        alloc: Global,
        key: &[Option<ValueRef<'_>>],
        taken: Option<Taken<'_>>,
    ) -> Result<(), NoMemory>
        requires ready { IsReady self.old }
        requires missing { IsFound (map lent_cell key.now) (map group_view (self.old).groups.items) None }
        ensures groups { Becomes (groups_view self.old) (groups_view self.new)
            (put_by (self.old).gatherings.items (put_view key.now taken.entry) (groups_view self.old)) result }
        ensures gatherings { (self.new).gatherings ≡ (self.old).gatherings }
        ensures tuples { IfOk result (λ done.
            tuples_view self.new ≡ tuples_view self.old ++ map lent_cell key.now ∷ []) }
    {
        let group = new_group(alloc, &self.gatherings, key, taken)?;
        self.groups.reserve(1)?;
        enter(alloc, &mut self.index, &mut self.ordered, &self.groups, key)?;
        push_reserved(&mut self.groups, group);
        Ok(())
    }
}
