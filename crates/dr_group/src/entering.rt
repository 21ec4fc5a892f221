//! Entering the next number into what groups are found by.

ghost use Rattle.std.specs.Prelude.{◌≡◌, ◌<◌, ◌++◌, ◌∷◌, [], None, OnOk, OnErr, IfSome, length, map};
ghost use Rattle.dr_group.specs.Views.{lent_cell};
ghost use Rattle.dr_group.specs.Groups.{group_view};
ghost use Rattle.dr_group.specs.Chains.{hashes_of};
ghost use Rattle.dr_group.specs.Distinct.{tuples_of};
ghost use Rattle.dr_group.specs.Finding.{UnlessOrdered};
ghost use Rattle.dr_group.specs.Gathering.{Becomes};
ghost use Rattle.dr_group.specs.Hashes.{tuple_hash};
ghost use Rattle.dr_group.specs.Keys.{AreNumbered};

use crate::group::Group;
use crate::hashes::lent_hash;
use crate::index::Index;
use crate::ordered_index::OrderedIndex;
use dr_levels::ValueRef;
use dr_memory::NoMemory;
use std::alloc::Global;

/// Enters the number behind those of the groups, with its key tuple: in order, where groups are in order; else by its
/// hash; where its chain is full, all are put in order.
///
/// Errors: want of memory, or of room for the number. What is found has not changed then.
pub fn enter(
    alloc: Global,
    index: &mut Index,
    ordered: &mut Option<OrderedIndex>,
    groups: &[Group],
    key: &[Option<ValueRef<'_>>],
) -> Result<(), NoMemory>
    requires heads { UnlessOrdered ordered.old (0 < length (index.old).heads.items) }
    requires numbered { IfSome ordered.old (λ o. AreNumbered o.numbers (tuples_of (map group_view groups.now))) }
    ensures hashes { UnlessOrdered ordered.new (Becomes (hashes_of (index.old).links.items)
        (hashes_of (index.new).links.items)
        (hashes_of (index.old).links.items ++ tuple_hash (map lent_cell key.now) ∷ []) result) }
    ensures ordered { ordered.new ≡ None → ordered.old ≡ None }
    ensures others { IfSome ordered.new (λ o. (index.new).links.items ≡ (index.old).links.items) }
    ensures pushed { OnOk result (IfSome ordered.new (λ o. AreNumbered o.numbers
        (tuples_of (map group_view groups.now) ++ map lent_cell key.now ∷ []))) }
    ensures kept { OnErr result (IfSome ordered.new (λ o. AreNumbered o.numbers
        (tuples_of (map group_view groups.now)))) }
{
    if let Some(ordered) = ordered {
        return ordered.push(alloc, key, groups.len());
    }
    let hash = lent_hash(key);
    if !index.is_full(hash) {
        return index.push(hash);
    }
    let mut all = OrderedIndex::of(alloc, groups)?;
    all.push(alloc, key, groups.len())?;
    *ordered = Some(all);
    Ok(())
}
