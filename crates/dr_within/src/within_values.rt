//! What is gathered for the items with WITHIN.

ghost use Rattle.std.specs.Prelude.{◌≡◌, [], List, Some, option_map, IfOk, IfSome, OnOk};
ghost use Rattle.std.specs.List.{slice_get};
ghost use Rattle.dr_levels.specs.Views.{lent_value};
ghost use Rattle.dr_meaning.specs.Query.{RecordItem as MeantItem};
ghost use Rattle.dr_partials.specs.Accumulators.{aggregate_of, accumulator_of_one};
ghost use Rattle.dr_plan.specs.Views.{fold_view};
ghost use Rattle.dr_group.specs.Views.{accumulator_view};
ghost use Rattle.dr_within.specs.ObjectFraming.{gathered_for, HoldsValues};
ghost use Rattle.dr_within.specs.WithinValues.{is_among as among, JoinsAt, SameValues, OverItems, JoinsOtherValues};

use crate::joining::{fold_of, join_into};
use dr_group::{Accumulator, Gathering};
use dr_levels::ValueRef;
use dr_memory::NoMemory;
use dr_plan::Fold;
use std::alloc::Global;

/// What is gathered for the item at a place.
#[derive(Drop)]
pub(crate) struct ItemValues {
    pub(crate) item: u32,
    pub(crate) gathered: Accumulator,
}

/// What is gathered for items in a branch.
#[derive(Drop)]
pub(crate) struct WithinValues {
    pub(crate) entries: Vec<ItemValues>,
}

/// Where an item is among those for which something is gathered.
#[inline(always)]
fn find(entries: &[ItemValues], item: u32) -> Option<usize>
    ensures { IfSome result (λ k. option_map (λ e. e.item) (slice_get entries.now k) ≡ Some item) }
{
    'entries: for (place, entry) in entries.iter().enumerate() {
        if entry.item == item {
            return Some(place);
        }
    }
    None
}

/// Whether a number is among others.
#[inline(always)]
fn is_among(numbers: &[u32], number: u32) -> bool
    ensures { result ≡ among numbers.now number }
{
    numbers.iter().any(|other| *other == number)
}

impl WithinValues {
    /// Nothing.
    pub(crate) fn new(alloc: Global) -> WithinValues
        ensures { (items : List MeantItem) → HoldsValues items [] result }
    {
        WithinValues {
            entries: Vec::new(alloc),
        }
    }

    /// Has nothing of it any more.
    #[inline(always)]
    pub(crate) fn clear(&mut self)
        ensures { (items : List MeantItem) → HoldsValues items [] self.new }
    {
        self.entries.clear();
    }

    /// Where an item is, with nothing gathered for it where it wasn't there.
    #[inline]
    fn place_of(&mut self, item: u32, fold: Fold) -> Result<usize, NoMemory>
        ensures there { IfOk result (λ k. option_map (λ e. e.item) (slice_get (self.new).entries.items k) ≡ Some item) }
        ensures same { OnOk result (OverItems item (fold_view fold) self.old (λ items.
            SameValues items (self.old).entries.items (self.new).entries.items)) }
    {
        match find(&self.entries, item) {
            Some(place) => Ok(place),
            None => {
                let place = self.entries.len();
                let gathered = Accumulator::new(Gathering::Values(fold));
                self.entries.push(ItemValues { item, gathered })?;
                Ok(place)
            }
        }
    }

    /// Takes a value for an item.
    ///
    /// Errors: want of memory, or of room for a count or a sum.
    #[inline]
    pub(crate) fn take(
        &mut self,
        alloc: Global,
        item: u32,
        fold: Fold,
        value: ValueRef<'_>,
    ) -> Result<(), NoMemory>
        ensures { OnOk result (OverItems item (fold_view fold) self.old (λ items.
            JoinsAt items item (accumulator_of_one (fold_view fold) (lent_value value.entry))
            (self.old).entries.items (self.new).entries.items)) }
    {
        let place = self.place_of(item, fold)?;
        let entry = &mut self.entries[place];
        let gathering = Gathering::Values(fold);
        entry.gathered.take(alloc, gathering, Some(value))
    }

    /// Joins what was gathered for an item in another branch.
    fn join(&mut self, alloc: Global, item: u32, more: &Accumulator) -> Result<(), NoMemory>
        ensures { OnOk result (OverItems item (aggregate_of (accumulator_view more.now)) self.old (λ items.
            JoinsAt items item (accumulator_view more.now) (self.old).entries.items (self.new).entries.items)) }
    {
        let place = self.place_of(item, fold_of(more))?;
        let entry = &mut self.entries[place];
        join_into(alloc, &mut entry.gathered, more)
    }

    /// Joins what was gathered in another branch, but for the items at some places.
    ///
    /// Errors: want of memory, or of room for a count or a sum.
    pub(crate) fn join_others(
        &mut self,
        alloc: Global,
        more: &WithinValues,
        own: &[u32],
    ) -> Result<(), NoMemory>
        ensures { OnOk result (JoinsOtherValues own.now more.now self.old self.new) }
    {
        'entries: for entry in &more.entries {
            if !is_among(own, entry.item) {
                self.join(alloc, entry.item, &entry.gathered)?;
            }
        }
        Ok(())
    }

    /// What was gathered for an item.
    ///
    /// Errors: want of memory, or of room for a count or a sum.
    pub(crate) fn gathered(
        &self,
        alloc: Global,
        item: u32,
        fold: Fold,
    ) -> Result<Accumulator, NoMemory>
        ensures { IfOk result (λ x. OverItems item (fold_view fold) self.now (λ items.
            accumulator_view x ≡ gathered_for (fold_view fold) item (self.now).entries.items)) }
    {
        let mut total = Accumulator::new(Gathering::Values(fold));
        'entries: for entry in &self.entries {
            if entry.item == item {
                join_into(alloc, &mut total, &entry.gathered)?;
            }
        }
        Ok(total)
    }
}
