//! Numbers of groups that are found by the order of their key tuples.

ghost use Rattle.std.specs.Prelude.{◌≡◌, ◌++◌, ◌∷◌, [], List, Option, IfOk, OnOk, OnErr, length, map};
ghost use Rattle.dr_meaning.specs.Record.{Value};
ghost use Rattle.dr_partials.specs.Partials as meant;
ghost use Rattle.dr_group.specs.Views.{lent_cell};
ghost use Rattle.dr_group.specs.Groups.{group_view};
ghost use Rattle.dr_group.specs.Distinct.{IsFound};
ghost use Rattle.dr_group.specs.Keys.{AreNumbered};
ghost use Rattle.dr_group.specs.Distinct.{tuples_of};

use crate::group::Group;
use crate::key::Key;
use dr_levels::ValueRef;
use dr_memory::NoMemory;
use std::alloc::Global;
use std::collections::BTreeMap;

/// The numbers of groups by their key tuples, in order: one is found in a number of comparisons that grows with the
/// logarithm of how many there are, whatever the key tuples.
#[derive(Drop)]
pub struct OrderedIndex {
    pub(crate) numbers: BTreeMap<Key, u32>,
}

impl OrderedIndex {
    /// Of all groups.
    ///
    /// Errors: want of memory, or of room for the number of a group.
    pub fn of(alloc: Global, groups: &[Group]) -> Result<OrderedIndex, NoMemory>
        ensures { IfOk result (λ x. AreNumbered x.numbers (tuples_of (map group_view groups.now))) }
    {
        let mut numbers = BTreeMap::new(alloc);
        'groups: for (number, group) in groups.iter().enumerate() {
            let Ok(number) = u32::try_from(number) else {
                return Err(NoMemory);
            };
            numbers.insert(Key::copied(alloc, &group.keys)?, number)?;
        }
        Ok(OrderedIndex { numbers })
    }

    /// The number of the group of a key tuple, if there is one.
    ///
    /// Errors: want of memory alone.
    pub fn find(
        &self,
        alloc: Global,
        key: &[Option<ValueRef<'_>>],
    ) -> Result<Option<usize>, NoMemory>
        ensures { (groups : List meant.Group) → AreNumbered (self.now).numbers (tuples_of groups)
            → IfOk result (IsFound (map lent_cell key.now) groups) }
    {
        let wanted = Key::of(alloc, key)?;
        match self.numbers.get(&wanted) {
            Some(number) => Ok(Some(*number as usize)),
            None => Ok(None),
        }
    }

    /// Enters the next number, with its key tuple.
    ///
    /// Errors: want of memory, or of room for the number. Nothing has changed then.
    pub fn push(
        &mut self,
        alloc: Global,
        key: &[Option<ValueRef<'_>>],
        number: usize,
    ) -> Result<(), NoMemory>
        ensures pushed { OnOk result ((tuples : List (List (Option Value))) → length tuples ≡ number
            → AreNumbered (self.old).numbers tuples
            → AreNumbered (self.new).numbers (tuples ++ map lent_cell key.now ∷ [])) }
        ensures kept { OnErr result ((tuples : List (List (Option Value))) → AreNumbered (self.old).numbers tuples
            → AreNumbered (self.new).numbers tuples) }
    {
        let Ok(number) = u32::try_from(number) else {
            return Err(NoMemory);
        };
        let wanted = Key::of(alloc, key)?;
        self.numbers.insert(wanted, number)?;
        Ok(())
    }
}
