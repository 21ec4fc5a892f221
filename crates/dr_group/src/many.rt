//! Values that are taken at once.

ghost use Rattle.std.specs.Prelude.{◌≡◌, ◌<◌, List, length, map, Option, Some, IfOk};
ghost use Rattle.std.specs.List.{slice_get};
ghost use Rattle.dr_meaning.specs.Record.{Value};
ghost use Rattle.dr_meaning.specs.Query.{GroupItem};
ghost use Rattle.dr_partials.specs.GroupPuts.{put_each};
ghost use Rattle.dr_group.specs.Views.{accumulator_view};
ghost use Rattle.dr_group.specs.Gathering.{gatherings_of};
ghost use Rattle.dr_group.specs.Groups.{accumulators_view, group_view};
ghost use Rattle.dr_group.specs.Maps.{groups_view, gatherings_view, tuples_view};

use crate::accumulator::Accumulator;
use crate::gathering::Gathering;
use crate::group::Accumulators;
use crate::group_map::GroupMap;
use dr_levels::Triplets;
use dr_memory::NoMemory;
use std::alloc::Global;

/// What one aggregate takes, one after another: of each of a column's triplets its value, or NULL; or so many NULLs.
#[derive(Clone, Copy)]
pub enum Many<'a> {
    Column(Triplets<'a>),
    Nulls(usize),
}

ghost use Rattle.dr_group.specs.ManyTaken.{many_view, take_each_by, take_each_at, each_taken_at, many_puts};

impl<'a> Many<'a> {
    /// How many they are.
    fn len(self) -> usize
        ensures { result ≡ length (many_view self.entry) }
    {
        match self {
            Many::Column(column) => column.len(),
            Many::Nulls(count) => count,
        }
    }
}

impl Accumulator {
    /// Takes each: its row, or its value, unless it is NULL.
    ///
    /// Errors: want of memory, or of room: a count is below 2^64, a sum within 128 bits.
    fn take_many(
        &mut self,
        alloc: Global,
        gathering: Gathering,
        many: Many<'_>,
    ) -> Result<(), NoMemory>
        ensures { IfOk result (λ done. accumulator_view self.new
            ≡ take_each_by gathering (many_view many.entry) (accumulator_view self.old)) }
    {
        match (gathering, many) {
            (Gathering::Rows, many) => self.take_rows(many.len() as u64),
            (Gathering::Values(_), Many::Column(column)) => {
                self.take_values(alloc, column.values())
            }
            (Gathering::Values(_), Many::Nulls(_)) => Ok(()),
        }
    }
}

/// Takes each into the accumulator of its aggregate, if there is one.
///
/// Errors: want of memory, or of room for a count or a sum.
fn take_many_into(
    alloc: Global,
    gatherings: &[Gathering],
    accumulators: &mut Accumulators,
    aggregate: u32,
    many: Many<'_>,
) -> Result<(), NoMemory>
    ensures { IfOk result (λ done. accumulators_view (accumulators.new).items
        ≡ take_each_at gatherings.now aggregate (many_view many.entry) (accumulators_view (accumulators.old).items)) }
{
    let at = aggregate as usize;
    if at >= gatherings.len() {
        return Ok(());
    }
    if at >= accumulators.len() {
        return Ok(());
    }
    accumulators[at].take_many(alloc, gatherings[at], many)
}

impl GroupMap {
    /// Takes values for an aggregate into the group of a number, one after another: so each is put with the group's key
    /// tuple. Numbers stay.
    ///
    /// Errors: want of memory, or of room for a count or a sum.
    pub fn take_many(
        &mut self,
        alloc: Global,
        number: usize,
        aggregate: u32,
        many: Many<'_>,
    ) -> Result<(), NoMemory>
        requires { number < length (tuples_view self.old) }
        ensures groups { IfOk result (λ done. (items : List GroupItem) (tuple : List (Option Value))
            → gatherings_of items ≡ gatherings_view self.old → slice_get (tuples_view self.old) number ≡ Some tuple
            → groups_view self.new
            ≡ put_each items (many_puts tuple aggregate (many_view many.entry)) (groups_view self.old)) }
        ensures gatherings { gatherings_view self.new ≡ gatherings_view self.old }
        ensures tuples { tuples_view self.new ≡ tuples_view self.old }
    {
        self.take_many_at(alloc, number, aggregate, many)
    }

    /// Takes values for an aggregate into the group of a number.
    fn take_many_at(
        &mut self,
        alloc: Global,
        number: usize,
        aggregate: u32,
        many: Many<'_>,
    ) -> Result<(), NoMemory>
        requires { number < length (self.old).groups.items }
        ensures groups { IfOk result (λ done. map group_view (self.new).groups.items ≡ each_taken_at
            (self.old).gatherings.items number aggregate (many_view many.entry)
            (map group_view (self.old).groups.items)) }
        ensures gatherings { (self.new).gatherings ≡ (self.old).gatherings }
        ensures tuples { tuples_view self.new ≡ tuples_view self.old }
    {
        let group = &mut self.groups[number];
        take_many_into(
            alloc,
            &self.gatherings,
            &mut group.accumulators,
            aggregate,
            many,
        )
    }
}
