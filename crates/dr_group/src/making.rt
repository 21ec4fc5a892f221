//! Groups of no records.

ghost use Rattle.std.specs.Prelude.{◌≡◌, ◌++◌, ◌∷◌, [], IfOk, OnOk, map, if◌then◌else◌};
ghost use Rattle.std.specs.List.{slice_get};
ghost use Rattle.dr_group.specs.Gathering.{gathering_view, empty_of};
ghost use Rattle.dr_group.specs.PlanGatherings.{item_gatherings, with_gathering, found_gathering};
ghost use Rattle.dr_group.specs.Groups.{keyless_group};
ghost use Rattle.dr_group.specs.Maps.{groups_view, gatherings_view};
ghost use Rattle.dr_group.specs.RowPartials.{gathered_of_rows};

use crate::gathering::Gathering;
use crate::group::{Group, accumulators_of_rows, empty_accumulators};
use crate::group_map::GroupMap;
use crate::hints::Hints;
use crate::index::Index;
use dr_memory::NoMemory;
use dr_plan::{Aggregate, GroupItem, GroupTerm};
use smallvec::SmallVec;
use std::alloc::Global;

impl GroupMap {
    /// No groups, or without keys the one group, of no rows.
    ///
    /// Errors: want of memory alone.
    pub(crate) fn new(
        alloc: Global,
        has_keys: bool,
        gatherings: Vec<Gathering>,
    ) -> Result<GroupMap, NoMemory>
        ensures groups { IfOk result (λ m. groups_view m
            ≡ (if has_keys then [] else keyless_group (map empty_of gatherings.items) ∷ [])) }
        ensures gatherings { IfOk result (λ m. gatherings_view m ≡ map gathering_view gatherings.items) }
    {
        let mut groups = Vec::new(alloc);
        if !has_keys {
            let keys = SmallVec::new(alloc);
            let accumulators = empty_accumulators(alloc, &gatherings)?;
            groups.push(Group { keys, accumulators })?;
        }
        Ok(GroupMap {
            gatherings,
            groups,
            index: Index::new(alloc),
            ordered: None,
            hint: 0,
            hints: Hints::new(alloc),
        })
    }

    /// The one group of so many rows, without keys.
    ///
    /// Errors: want of memory alone.
    pub(crate) fn of_rows(
        alloc: Global,
        gatherings: Vec<Gathering>,
        rows: u64,
    ) -> Result<GroupMap, NoMemory>
        ensures groups { IfOk result (λ m. groups_view m
            ≡ keyless_group (map (gathered_of_rows rows) (map gathering_view gatherings.items)) ∷ []) }
        ensures gatherings { IfOk result (λ m. gatherings_view m ≡ map gathering_view gatherings.items) }
    {
        let keys = SmallVec::new(alloc);
        let accumulators = accumulators_of_rows(alloc, &gatherings, rows)?;
        let mut groups = Vec::new(alloc);
        groups.push(Group { keys, accumulators })?;
        Ok(GroupMap {
            gatherings,
            groups,
            index: Index::new(alloc),
            ordered: None,
            hint: 0,
            hints: Hints::new(alloc),
        })
    }
}

/// What each aggregate among the items of a query gathers, in their order.
///
/// Errors: want of memory alone.
pub fn gatherings_of(
    alloc: Global,
    items: &[GroupItem],
    aggregates: &[Aggregate],
) -> Result<Vec<Gathering>, NoMemory>
    ensures { IfOk result (λ v. map gathering_view v.items ≡ item_gatherings aggregates.now items.now) }
{
    let mut gatherings = Vec::with_capacity(alloc, aggregates.len())?;
    'items: for item in items {
        push_gathering(item.term, aggregates, &mut gatherings)?;
    }
    Ok(gatherings)
}

/// Appends what an item gathers; a key gathers nothing.
fn push_gathering(
    term: GroupTerm,
    aggregates: &[Aggregate],
    gatherings: &mut Vec<Gathering>,
) -> Result<(), NoMemory>
    ensures { OnOk result (map gathering_view (gatherings.new).items
        ≡ map gathering_view (gatherings.old).items ++ with_gathering aggregates.now term []) }
{
    match term {
        GroupTerm::Key(_) => Ok(()),
        GroupTerm::Aggregate(number) => {
            gatherings.push(gathering_at(aggregates, number as usize))?;
            Ok(())
        }
    }
}

/// What the aggregate of a number gathers.
fn gathering_at(aggregates: &[Aggregate], number: usize) -> Gathering
    ensures { gathering_view result ≡ found_gathering (slice_get aggregates.now number) }
{
    if number >= aggregates.len() {
        return Gathering::Rows;
    }
    match &aggregates[number] {
        Aggregate::Rows => Gathering::Rows,
        Aggregate::Of(fold, _) => Gathering::Values(*fold),
    }
}
