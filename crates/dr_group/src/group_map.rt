//! The groups of an aggregate query.

ghost use Rattle.std.specs.Prelude.{◌≡◌, map, length, take, IfSome};
ghost use Rattle.dr_group.specs.Groups.{group_view};
ghost use Rattle.dr_group.specs.Chains.{hashes_of};
ghost use Rattle.dr_group.specs.Distinct.{AreDistinct, group_hashes, tuples_of};
ghost use Rattle.dr_group.specs.Keys.{AreNumbered};
ghost use Rattle.std.proofs.Props.{props};

use crate::gathering::Gathering;
use crate::group::Group;
use crate::hints::Hints;
use crate::index::Index;
use crate::ordered_index::OrderedIndex;

/// The groups, each key tuple once, in the order in which they came. Their key tuples are put in order where that is
/// needed: where groups are merged or finished.
#[derive(Drop)]
pub struct GroupMap {
    pub(crate) gatherings: Vec<Gathering>,
    pub(crate) groups: Vec<Group>,
    /// The hashes of the first groups; of all of them where one is looked for by its hash.
    pub(crate) index: Index,
    /// All groups by the order of their key tuples, once more of them have one bucket of hashes than a chain may have.
    pub(crate) ordered: Option<OrderedIndex>,
    /// The number of the group that is looked at first: the last one that was found.
    pub(crate) hint: usize,
    /// Those that are looked at first where numbers are asked for.
    pub(crate) hints: Hints,
    pub ghost distinct: { AreDistinct (map group_view groups.items) },
    pub ghost indexed: { hashes_of index.links.items ≡ take (length index.links.items) (group_hashes groups.items) },
    pub ghost numbered: { IfSome ordered (λ o. AreNumbered o.numbers (tuples_of (map group_view groups.items))) } by { Prim.hlevel props },
}
