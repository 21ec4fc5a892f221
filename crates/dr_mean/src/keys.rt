//! Key tuples of rows.

ghost use Rattle.std.specs.Prelude.{◌≡◌, List, map, option_map, true, OnOk};
ghost use Rattle.std.specs.List.{slice_get};
ghost use Rattle.dr_meaning.specs.Path.{Leaf};
ghost use Rattle.dr_meaning.specs.Record as record_tree;
ghost use Rattle.dr_meaning.specs.Query.{key_tuple};
ghost use Rattle.dr_levels.specs.Views.{lent_value};
ghost use Rattle.dr_plan.specs.Views.{path_of};
ghost use Rattle.dr_rows.specs.Views.{lent_cells};
ghost use Rattle.dr_scalar.specs.Slots.{AreValues, slot_value};
ghost use Rattle.dr_mean.specs.Keys.{are_leaves};

use dr_levels::ValueRef;
use dr_memory::NoMemory;

/// The value in the slot of a number: none where there is no such slot.
fn slot<'n>(row: &[Option<ValueRef<'n>>], number: usize) -> Option<ValueRef<'n>>
    ensures { option_map lent_value result ≡ slot_value row.now number }
{
    match row.get(number) {
        Some(value) => *value,
        None => None,
    }
}

/// Makes the key tuple of a row, by the numbers of the keys' leaves.
///
/// Errors: want of memory alone.
pub fn key_of<'n>(
    keys: &[u32],
    row: &[Option<ValueRef<'n>>],
    key: &mut Vec<Option<ValueRef<'n>>>,
) -> Result<(), NoMemory>
    ensures { OnOk result ((ls : List Leaf) (r : record_tree.Node) → AreValues ls row.now r → are_leaves ls keys.now
        ≡ true
        → lent_cells (key.new).items ≡ key_tuple (map (λ k. path_of (slice_get ls k)) keys.now) r) }
{
    key.clear();
    'keys: for number in keys {
        key.push(slot(row, *number as usize))?;
    }
    Ok(())
}
