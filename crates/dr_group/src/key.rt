//! Key tuples that are kept in order.

ghost use Rattle.std.specs.Prelude.{◌≡◌, IfOk, Some, map};
ghost use Rattle.std.specs.Cmp as Cmp;
ghost use Rattle.std.specs.Cmp.{on_total, eq_by_cmp_equiv, partial_order_from_total};
ghost use Rattle.std.specs.Ordering.{is_eq};
ghost use Rattle.std.proofs.Common.{rules};
ghost use Rattle.dr_meaning.specs.Query as meant;
ghost use Rattle.dr_partials.proofs.ValueOrders.{tuple_order_total};
ghost use Rattle.dr_group.specs.Views.{lent_cell, cell_view};
ghost use Rattle.dr_group.specs.Keys.{key_view, key_order};

use crate::group::{Cells, held_cell, held_keys};
use crate::orders::held_order;
use dr_levels::ValueRef;
use dr_memory::NoMemory;
use dr_nested::Value;
use smallvec::SmallVec;
use std::alloc::Global;
use std::cmp::Ordering;

/// A key tuple of its own. Keys are ordered as key tuples are.
#[derive(Drop)]
pub struct Key {
    pub cells: Cells,
}

impl Key {
    /// That of a lent key tuple.
    ///
    /// Errors: want of memory alone.
    pub fn of(alloc: Global, key: &[Option<ValueRef<'_>>]) -> Result<Key, NoMemory>
        ensures { IfOk result (λ k. key_view k ≡ map lent_cell key.now) }
    {
        let cells = held_keys(alloc, key)?;
        Ok(Key { cells })
    }

    /// That of a held key tuple.
    ///
    /// Errors: want of memory alone.
    pub fn copied(alloc: Global, key: &[Option<Value>]) -> Result<Key, NoMemory>
        ensures { IfOk result (λ k. key_view k ≡ map cell_view key.now) }
    {
        let mut cells = SmallVec::with_capacity(alloc, key.len())?;
        'cells: for cell in key {
            cells.push(held_cell(alloc, cell.as_ref().map(ValueRef::of))?)?;
        }
        Ok(Key { cells })
    }
}

impl PartialEq for Key {
    ghost eq = { λ x y. is_eq (key_order x y) };

    ghost laws = { Cmp.partial_equiv_from_equiv (eq_by_cmp_equiv (on_total key_view tuple_order_total)) };

    fn eq(&self, other: &Key) -> bool {
        self.cmp(other).is_eq()
    }
}

impl Eq for Key {
    ghost laws = { eq_by_cmp_equiv (on_total key_view tuple_order_total) };
}

impl PartialOrd for Key {
    ghost partial_cmp = { λ x y. Some (key_order x y) };

    ghost laws = { partial_order_from_total (on_total key_view tuple_order_total) };

    fn partial_cmp(&self, other: &Key) -> Option<Ordering> {
        Some(self.cmp(other))
    }
}

impl Ord for Key {
    ghost cmp = { key_order };

    ghost total = { on_total key_view tuple_order_total };

    ghost matches_partial_cmp = { Prim.search rules };

    ghost matches_eq = { Prim.search rules };

    fn cmp(&self, other: &Key) -> Ordering {
        held_order(&self.cells, &other.cells)
    }
}
