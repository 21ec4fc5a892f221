//! For which items with WITHIN a value is taken at which leaf.

ghost use Rattle.std.specs.Prelude.{◌≡◌, ◌∷◌, ◌++◌, [], ℕ, List, length, IfOk, OnOk};
ghost use Rattle.dr_plan.specs.declared.plan.RecordItem.{RecordItem as MeantItem};
ghost use Rattle.dr_within.specs.ItemFirings.{FiresItems, places_in, taken_at as meant_leaf};

use dr_memory::NoMemory;
use dr_plan::{RecordItem, RecordTerm};
use dr_scalar::last_leaf;
use std::alloc::Global;

/// The places of the items for which a value is taken at each leaf, by the leaf's number. It is taken at the last leaf
/// of the item's argument.
#[derive(Drop)]
pub(crate) struct ItemFiring {
    pub(crate) at_leaf: Vec<Vec<u32>>,
}

/// The leaf at which a value is taken for an item, where it is an aggregate of an expression with leaves.
fn taken_at(item: &RecordItem) -> Option<u32>
    ensures { result ≡ meant_leaf item.now }
{
    match &item.term {
        RecordTerm::Value(_) => None,
        RecordTerm::Within(within) => last_leaf(&within.argument),
    }
}

impl ItemFiring {
    /// Of no items, with so many leaves.
    fn none(alloc: Global, leaves: usize) -> Result<ItemFiring, NoMemory>
        ensures { IfOk result (FiresItems leaves []) }
    {
        let mut at_leaf = Vec::with_capacity(alloc, leaves)?;
        'leaves: for _ in 0..leaves {
            at_leaf.push(Vec::new(alloc))?;
        }
        Ok(ItemFiring { at_leaf })
    }

    /// One item more, whose place is behind the others'.
    fn add(&mut self, place: u32, item: &RecordItem) -> Result<(), NoMemory>
        ensures { OnOk result ((n : ℕ) (items : List MeantItem) → FiresItems n items self.old → place ≡ length items
            → FiresItems n (items ++ item.now ∷ []) self.new) }
    {
        if let Some(leaf) = taken_at(item) {
            let at = leaf as usize;
            if at < self.at_leaf.len() {
                self.at_leaf[at].push(place)?;
            }
        }
        Ok(())
    }

    /// Of the items of a record query with so many leaves.
    ///
    /// Errors: want of memory, or of room for an item's place.
    pub(crate) fn new(
        alloc: Global,
        leaves: usize,
        items: &[RecordItem],
    ) -> Result<ItemFiring, NoMemory>
        ensures { IfOk result (FiresItems leaves items.now) }
    {
        let mut firing = ItemFiring::none(alloc, leaves)?;
        let mut place = 0usize;
        'items: for item in items {
            let Ok(number) = u32::try_from(place) else {
                return Err(NoMemory);
            };
            firing.add(number, item)?;
            place += 1;
        }
        Ok(firing)
    }

    /// The places of the items for which a value is taken at a leaf.
    #[inline(always)]
    pub(crate) fn at(&self, leaf: u32) -> &[u32]
        ensures { result.now ≡ places_in self.now leaf }
    {
        let at = leaf as usize;
        if at < self.at_leaf.len() {
            self.at_leaf[at].as_slice()
        } else {
            &[]
        }
    }
}
