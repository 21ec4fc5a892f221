//! Key tuples of rows.

ghost use Rattle.std.specs.Prelude.{◌≡◌, ◌++◌, map, option_map, IfOk};
ghost use Rattle.dr_levels.specs.Views.{lent_value};
ghost use Rattle.dr_group.specs.Views.{lent_cell};
ghost use Rattle.dr_scalar.specs.Slots.{slot_value};

use dr_levels::ValueRef;
use dr_memory::NoMemory;

/// What a row has of the leaf of a number; none where there is no such leaf.
#[inline(always)]
pub(crate) fn slot<'a>(slots: &[Option<ValueRef<'a>>], number: u32) -> Option<ValueRef<'a>>
    ensures { option_map lent_value result ≡ slot_value slots.now number }
{
    match slots.get(number as usize) {
        Some(value) => *value,
        None => None,
    }
}

/// Appends the key tuple of a row, by the numbers of the keys' leaves.
///
/// Errors: want of memory alone.
#[inline(always)]
pub(crate) fn push_key<'a>(
    keys: &[u32],
    slots: &[Option<ValueRef<'a>>],
    cells: &mut Vec<Option<ValueRef<'a>>>,
) -> Result<(), NoMemory>
    ensures { IfOk result (λ done. map lent_cell (cells.new).items
        ≡ map lent_cell (cells.old).items ++ map (slot_value slots.now) keys.now) }
{
    'keys: for number in keys {
        cells.push(slot(slots, *number))?;
    }
    Ok(())
}
