//! Finding a group by its key tuple.

ghost use Rattle.std.specs.Prelude.{◌≡◌, ◌<◌, IfOk, IfSome, OnOk, Some, map, length, true, false};
ghost use Rattle.dr_group.specs.Views.{lent_cell};
ghost use Rattle.dr_group.specs.Groups.{group_view};
ghost use Rattle.dr_group.specs.Chains.{bucket_of, hashes_of, head_of};
ghost use Rattle.dr_group.specs.Distinct.{IsFound, group_hashes};
ghost use Rattle.dr_group.specs.Finding.{IsIndexed, IsReady};
ghost use Rattle.dr_group.specs.Hashes.{tuple_hash};

use crate::group::Group;
use crate::group_map::GroupMap;
use crate::hashes::{held_hash, lent_hash};
use crate::index::Index;
use crate::ordered_index::OrderedIndex;
use crate::sameness::is_same_tuple;
use dr_levels::ValueRef;
use dr_memory::NoMemory;
use std::alloc::Global;

/// Whether a group has a key tuple.
#[inline(always)]
fn has_key(group: &Group, key: &[Option<ValueRef<'_>>]) -> bool
    ensures yes { result ≡ true → (group_view group.now).keys ≡ map lent_cell key.now }
    ensures no { result ≡ false → (group_view group.now).keys ≡ map lent_cell key.now → ⊥ }
{
    is_same_tuple(key, &group.keys)
}

/// An index of groups by the hashes of their key tuples; none where a bucket has more of them than a chain may have.
///
/// Errors: want of memory, or of room for the number of a group.
fn index_of(alloc: Global, groups: &[Group]) -> Result<Option<Index>, NoMemory>
    ensures hashes { IfOk result (λ o. IfSome o (λ x. hashes_of x.links.items ≡ group_hashes groups.now)) }
    ensures heads { IfOk result (λ o. IfSome o (λ x. 0 < length x.heads.items)) }
{
    let mut index = Index::with_room(alloc, groups.len())?;
    'groups: for group in groups {
        let hash = held_hash(&group.keys);
        if index.is_full(hash) {
            return Ok(None);
        }
        index.push(hash)?;
    }
    Ok(Some(index))
}

impl GroupMap {
    /// Whether the group of a number has a key tuple.
    #[inline(always)]
    pub(crate) fn is_at(&self, number: usize, key: &[Option<ValueRef<'_>>]) -> bool
        ensures { result ≡ true → IsFound (map lent_cell key.now) (map group_view (self.now).groups.items)
            (Some number) }
    {
        if number >= self.groups.len() {
            return false;
        }
        has_key(&self.groups[number], key)
    }

    /// Whether the group at the hint has a key tuple.
    #[inline(always)]
    pub(crate) fn is_hinted(&self, key: &[Option<ValueRef<'_>>]) -> bool
        ensures { result ≡ true → IsFound (map lent_cell key.now) (map group_view (self.now).groups.items)
            (Some (self.now).hint) }
    {
        self.is_at(self.hint, key)
    }

    /// The number of the group of a key tuple, if there is one. All groups are indexed then.
    ///
    /// Errors: want of memory, or of room for the number of a group. Nothing has changed then.
    #[inline(always)]
    pub(crate) fn seek(
        &mut self,
        alloc: Global,
        key: &[Option<ValueRef<'_>>],
    ) -> Result<Option<usize>, NoMemory>
        ensures groups { (self.new).groups ≡ (self.old).groups }
        ensures gatherings { (self.new).gatherings ≡ (self.old).gatherings }
        ensures found { IfOk result (IsFound (map lent_cell key.now) (map group_view (self.old).groups.items)) }
        ensures ready { OnOk result (IsReady self.new) }
    {
        self.prepare(alloc)?;
        match &self.ordered {
            Some(ordered) => ordered.find(alloc, key),
            None => Ok(self.find(lent_hash(key), key)),
        }
    }

    /// Indexes all groups, where some are not, or where the buckets are too few.
    ///
    /// Errors: want of memory, or of room for the number of a group. Nothing has changed then.
    #[inline(always)]
    fn prepare(&mut self, alloc: Global) -> Result<(), NoMemory>
        ensures groups { (self.new).groups ≡ (self.old).groups }
        ensures gatherings { (self.new).gatherings ≡ (self.old).gatherings }
        ensures ready { OnOk result (IsReady self.new) }
    {
        let count = self.groups.len();
        if self.index.links.len() < count || self.index.heads.len() <= count {
            return self.arrange(alloc);
        }
        Ok(())
    }

    /// Indexes all groups anew: by hashes, or in order, where one bucket has too many.
    ///
    /// Errors: want of memory, or of room for the number of a group. Nothing has changed then.
    fn arrange(&mut self, alloc: Global) -> Result<(), NoMemory>
        ensures groups { (self.new).groups ≡ (self.old).groups }
        ensures gatherings { (self.new).gatherings ≡ (self.old).gatherings }
        ensures ready { OnOk result (IsReady self.new) }
    {
        if self.ordered.is_some() {
            return Ok(());
        }
        match index_of(alloc, &self.groups)? {
            Some(index) => self.index = index,
            None => self.ordered = Some(OrderedIndex::of(alloc, &self.groups)?),
        }
        Ok(())
    }

    /// The number of the group of a key tuple, if there is one, by its hash. The first group of the chain, which most
    /// often is the one, is looked at before any link.
    #[inline]
    fn find(&self, hash: u64, key: &[Option<ValueRef<'_>>]) -> Option<usize>
        requires ready { IsIndexed self.now }
        requires hash { hash ≡ tuple_hash (map lent_cell key.now) }
        ensures { IsFound (map lent_cell key.now) (map group_view (self.now).groups.items) result }
    {
        let head = self.index.heads[self.index.bucket(hash)];
        if head > 0 && self.is_at(head as usize - 1, key) {
            return Some(head as usize - 1);
        }
        self.follow(head, hash, key)
    }

    /// The number of the group of a key tuple, if there is one, along the chain of its hash, from the head on.
    fn follow(&self, head: u32, hash: u64, key: &[Option<ValueRef<'_>>]) -> Option<usize>
        requires ready { IsIndexed self.now }
        requires hash { hash ≡ tuple_hash (map lent_cell key.now) }
        requires head { head ≡ head_of (self.now).index.heads.items (bucket_of (self.now).index.heads.items hash) }
        ensures { IsFound (map lent_cell key.now) (map group_view (self.now).groups.items) result }
    {
        let mut rest = head;
        'chain: while rest > 0 {
            let number = rest as usize - 1;
            let link = self.index.links[number];
            if link.hash == hash && has_key(&self.groups[number], key) {
                return Some(number);
            }
            rest = link.next;
        }
        None
    }
}
