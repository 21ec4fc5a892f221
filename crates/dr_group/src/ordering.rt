//! Groups in the order of their key tuples.

ghost use Rattle.std.specs.Prelude.{◌≡◌, IfOk, map, true};
ghost use Rattle.dr_meaning.specs.Query.{tuple_order};
ghost use Rattle.dr_group.specs.Views.{cell_view};
ghost use Rattle.dr_group.specs.Groups.{group_at, group_view, picked};
ghost use Rattle.dr_group.specs.Distinct.{AreDistinct};
ghost use Rattle.dr_group.specs.Maps.{in_order};
ghost use Rattle.dr_group.specs.Merging.{are_numbers};

use crate::group::Group;
use crate::merging::first_numbers;
use crate::orders::held_order;
use dr_memory::NoMemory;
use dr_nested::Value;
use std::alloc::Global;
use std::cmp::Ordering;

/// The key tuple of the group of a number; no cells where there is none.
fn keys_at(groups: &[Group], number: u32) -> &[Option<Value>]
    ensures { map cell_view result.now ≡ (group_at groups.now number).keys }
{
    let number = number as usize;
    if number < groups.len() {
        &groups[number].keys
    } else {
        &[]
    }
}

/// The order of the key tuples of two groups.
fn order_at(groups: &[Group], left: u32, right: u32) -> Ordering
    ensures { result ≡ tuple_order (group_at groups.now left).keys (group_at groups.now right).keys }
{
    held_order(keys_at(groups, left), keys_at(groups, right))
}

/// The numbers of all groups, in the order of their key tuples.
///
/// Errors: want of memory, or of room for a number.
pub fn numbers_in_order(alloc: Global, groups: &[Group]) -> Result<Vec<u32>, NoMemory>
    requires { AreDistinct (map group_view groups.now) }
    ensures numbers { IfOk result (λ v. are_numbers groups.now v.items ≡ true) }
    ensures order { IfOk result (λ v. picked groups.now v.items ≡ in_order (map group_view groups.now)) }
{
    let mut numbers = first_numbers(alloc, groups.len())?;
    numbers.sort_unstable_by(|left, right| order_at(groups, *left, *right));
    Ok(numbers)
}
