//! A level that is laid out.

ghost use Rattle.std.specs.Prelude.{◌≡◌, ◌≤◌, ◌++◌, ◌∷◌, [], List, length, OnOk, IfOk};
ghost use Rattle.dr_nested.specs.Views.{kind_view};
ghost use Rattle.dr_moves.specs.Course.{give_each};
ghost use Rattle.dr_walk.specs.Laying.{FlatItem, lay, laying, nulls_of};
ghost use Rattle.dr_walk.specs.Views.{picks_view, gates_view, level_view, items_view, item_view};

use crate::items::{Gate, Give, Item};
use crate::picks::Pick;
use dr_nested::{Kind, NoMemory};
use std::alloc::Global;

/// The items of a level so far, and the gates of those that stand behind some, in order.
#[derive(Drop)]
pub struct Level {
    pub items: Vec<Item>,
    pub gates: Vec<Vec<Gate>>,
}

/// A copy of gates.
pub fn copied(alloc: Global, gates: &[Gate]) -> Result<Vec<Gate>, NoMemory>
    ensures { IfOk result (λ v. v.items ≡ gates.now) }
{
    let mut copy = Vec::with_capacity(alloc, gates.len())?;
    copy.extend_from_slice(gates)?;
    Ok(copy)
}

/// The items for where all these are absent: a NULL of each leaf, in order.
pub fn nulls_in(alloc: Global, items: &[Item]) -> Result<Vec<Item>, NoMemory>
    ensures { IfOk result (λ v. items_view v.items ≡ nulls_of (items_view items.now)) }
{
    let mut nulls = Vec::new(alloc);
    'items: for item in items {
        match item {
            Item::Give(give) => nulls.push(Item::Null(give.leaf))?,
            Item::Null(leaf) => nulls.push(Item::Null(*leaf))?,
            Item::Look(_) | Item::Visit(_) | Item::End(_) => {}
        }
    }
    Ok(nulls)
}

impl Level {
    ghost use Rattle.dr_walk.specs.Laying.{noted, with_items, no_level};

    /// A level without items.
    pub fn new(alloc: Global) -> Level
        ensures { level_view result ≡ no_level }
    {
        Level {
            items: Vec::new(alloc),
            gates: Vec::new(alloc),
        }
    }

    /// Notes the gates of the next item, where it stands behind some.
    pub fn note(&mut self, alloc: Global, gates: &[Gate]) -> Result<(), NoMemory>
        ensures { OnOk result (level_view self.new ≡ noted (gates_view gates.now) (level_view self.old)) }
    {
        if !gates.is_empty() {
            self.gates.push(copied(alloc, gates)?)?;
        }
        Ok(())
    }

    /// Adds an item behind these gates.
    pub fn add(&mut self, alloc: Global, gates: &[Gate], item: Item) -> Result<(), NoMemory>
        ensures { OnOk result (level_view self.new ≡ with_items (item_view item ∷ []) (noted (gates_view gates.now)
            (level_view self.old))) }
    {
        self.note(alloc, gates)?;
        self.items.push(item)?;
        Ok(())
    }

    /// Adds items without gates.
    pub fn add_nulls(&mut self, mut nulls: Vec<Item>) -> Result<(), NoMemory>
        ensures { OnOk result (level_view self.new ≡ with_items (items_view nulls.items) (level_view self.old)) }
    {
        self.items.append(&mut nulls)?;
        Ok(())
    }

    /// Adds a leaf as often as it is selected.
    pub fn add_gives(
        &mut self,
        alloc: Global,
        kind: Kind,
        picks: &[Pick],
        gates: &[Gate],
        low: u8,
        full: u8,
    ) -> Result<(), NoMemory>
        ensures { OnOk result ((code : List FlatItem) → laying code (level_view self.new)
            ≡ lay (give_each (kind_view kind) (picks_view picks.now) (gates_view gates.now) low full) (laying code
            (level_view self.old))) }
    {
        'picks: for pick in picks {
            let give = Give {
                leaf: pick.leaf,
                kind,
                low,
                full,
                gated: !gates.is_empty(),
            };
            self.add(alloc, gates, Item::Give(give))?;
        }
        Ok(())
    }
}
