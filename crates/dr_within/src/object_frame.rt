//! What was made of a record query in one branch.

ghost use Rattle.std.specs.Prelude.{◌≡◌, ◌++◌, [], List, Some, OnOk};
ghost use Rattle.dr_cells.specs.Views.{cells_view};
ghost use Rattle.dr_meaning.specs.Query.{RecordItem as MeantItem};
ghost use Rattle.dr_made_laws.specs.ObjectFlow.{Made};
ghost use Rattle.dr_scalar.specs.Slots.{slot_value};
ghost use Rattle.dr_within.specs.declared.levels.Level.{Level};
ghost use Rattle.dr_within.specs.ObjectFraming.{HoldsBuilt, HoldsFrame, JoinsObject, TakesItem, TakesItems, TakesBranch};
ghost use Rattle.dr_within.specs.LevelTable.{lent_level};
ghost use Rattle.dr_within.specs.OwnCells.{list_cells, list_counts};

use crate::built::Built;
use crate::levels::Level;
use crate::own_cells::push_own;
use crate::within_values::WithinValues;
use dr_cells::Cells;
use dr_levels::ValueRef;
use dr_memory::NoMemory;
use dr_plan::{RecordItem, RecordTerm};
use dr_scalar::eval;
use std::alloc::Global;

/// Objects, and what was gathered for items with WITHIN.
#[derive(Drop)]
pub(crate) struct ObjectFrame {
    pub(crate) built: Built,
    pub(crate) values: WithinValues,
}

/// Appends how many objects of each of some levels there are.
fn push_counts(lists: &[u32], built: &Built, cells: &mut Cells) -> Result<(), NoMemory>
    ensures { OnOk result ((made : List Made) → HoldsBuilt made built.now → cells_view cells.new
        ≡ cells_view cells.old ++ list_counts made lists.now) }
{
    'lists: for number in lists {
        let count = built.count_of(*number)?;
        cells.push_count(count)?;
    }
    Ok(())
}

/// Appends the cells of the objects of some levels, level by level.
fn push_lists(lists: &[u32], built: &Built, cells: &mut Cells) -> Result<(), NoMemory>
    ensures { OnOk result ((made : List Made) → HoldsBuilt made built.now → cells_view cells.new
        ≡ cells_view cells.old ++ list_cells made lists.now) }
{
    'lists: for number in lists {
        built.push_objects(*number, cells)?;
    }
    Ok(())
}

/// Appends the cells of the object of an instance, in which this was made.
fn push_object(
    alloc: Global,
    items: &[RecordItem],
    level: &Level,
    slots: &[Option<ValueRef<'_>>],
    inner: &ObjectFrame,
    cells: &mut Cells,
) -> Result<(), NoMemory>
    ensures { OnOk result (JoinsObject items.now level.now (slot_value slots.now) inner.now cells.old cells.new) }
{
    push_own(alloc, items, &level.items, slots, &inner.values, cells)?;
    push_counts(&level.lists, &inner.built, cells)?;
    push_lists(&level.lists, &inner.built, cells)
}

impl ObjectFrame {
    /// Nothing.
    pub(crate) fn new(alloc: Global) -> ObjectFrame
        ensures { (items : List MeantItem) → HoldsFrame items [] result }
    {
        ObjectFrame {
            built: Built::new(alloc),
            values: WithinValues::new(alloc),
        }
    }

    /// Has nothing of it any more.
    #[inline(always)]
    pub(crate) fn clear(&mut self)
        ensures { (items : List MeantItem) → HoldsFrame items [] self.new }
    {
        self.built.clear();
        self.values.clear();
    }

    /// Takes the value of the item at a place for its aggregate, by what was read last of each leaf.
    #[inline]
    fn take_one(
        &mut self,
        alloc: Global,
        items: &[RecordItem],
        place: u32,
        slots: &[Option<ValueRef<'_>>],
    ) -> Result<(), NoMemory>
        ensures { OnOk result (TakesItem items.now place (slot_value slots.now) self.old self.new) }
    {
        let Some(item) = items.get(place as usize) else {
            return Ok(());
        };
        match &item.term {
            RecordTerm::Value(_) => Ok(()),
            RecordTerm::Within(within) => match eval(alloc, &within.argument, slots)? {
                Some(value) => self.values.take(alloc, place, within.fold, value.lend()),
                None => Ok(()),
            },
        }
    }

    /// Takes the values of items for their aggregates: those that fire at a leaf, by what was read last of each leaf.
    ///
    /// Errors: want of memory, or of room for a count or a sum.
    #[inline]
    pub(crate) fn take(
        &mut self,
        alloc: Global,
        items: &[RecordItem],
        places: &[u32],
        slots: &[Option<ValueRef<'_>>],
    ) -> Result<(), NoMemory>
        ensures { OnOk result (TakesItems items.now places.now (slot_value slots.now) self.old self.new) }
    {
        'places: for place in places {
            self.take_one(alloc, items, *place, slots)?;
        }
        Ok(())
    }

    /// Appends the object of an instance of a level, in which this was made, and what was gathered in it for others.
    fn build(
        &mut self,
        alloc: Global,
        items: &[RecordItem],
        level: &Level,
        number: u32,
        slots: &[Option<ValueRef<'_>>],
        inner: &ObjectFrame,
    ) -> Result<(), NoMemory>
        ensures { OnOk result (TakesBranch items.now number (Some level.now) (slot_value slots.now) inner.now self.old
            self.new) }
    {
        let first = self.built.cells.len();
        push_object(alloc, items, level, slots, inner, &mut self.built.cells)?;
        self.built.add_object(number, first)?;
        if number == 0 {
            return Ok(());
        }
        self.values.join_others(alloc, &inner.values, &level.items)
    }

    /// Appends all that was made in a branch.
    fn append(&mut self, alloc: Global, inner: &ObjectFrame) -> Result<(), NoMemory>
        ensures { OnOk result ((items : List MeantItem) (made more : List Made) → HoldsFrame items made self.old
            → HoldsFrame items more inner.now → HoldsFrame items (made ++ more) self.new) }
    {
        self.built.append(&inner.built)?;
        self.values.join_others(alloc, &inner.values, &[])
    }

    /// Appends what is made of an instance as it is left, in which this was made: an object, where its level is one of
    /// which objects are made.
    ///
    /// Errors: want of memory, or of room.
    pub(crate) fn leave(
        &mut self,
        alloc: Global,
        items: &[RecordItem],
        level: Option<&Level>,
        number: u32,
        slots: &[Option<ValueRef<'_>>],
        inner: &ObjectFrame,
    ) -> Result<(), NoMemory>
        ensures { OnOk result (TakesBranch items.now number (lent_level level.entry) (slot_value slots.now) inner.now
            self.old self.new) }
    {
        match level {
            Some(level) => self.build(alloc, items, level, number, slots, inner),
            None => self.append(alloc, inner),
        }
    }
}
