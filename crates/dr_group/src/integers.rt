//! Integers that are taken into groups by the groups' numbers.

ghost use Rattle.std.specs.Prelude.{◌≡◌, ◌<◌, length, option_map, Some};
ghost use Rattle.dr_meaning.specs.Record.{int_value};
ghost use Rattle.dr_partials.specs.Accumulators.{take_value};
ghost use Rattle.dr_group.specs.Views.{accumulator_view};
ghost use Rattle.dr_group.specs.Gathering.{Becomes, take_at_by, take_by};
ghost use Rattle.dr_group.specs.Groups.{accumulators_view, taken_at};
ghost use Rattle.dr_group.specs.Maps.{gatherings_view, tuples_view, groups_in, PutsCellAt};

use crate::accumulator::Accumulator;
use crate::gathering::Gathering;
use crate::group::Accumulators;
use crate::group_map::GroupMap;
use dr_levels::ValueRef;
use dr_memory::NoMemory;
use std::alloc::Global;

impl Accumulator {
    /// Takes a row with this integer, or NULL.
    #[inline(always)]
    fn take_row_of(
        &mut self,
        alloc: Global,
        gathering: Gathering,
        integer: Option<i64>,
    ) -> Result<(), NoMemory>
        ensures { Becomes (accumulator_view self.old) (accumulator_view self.new)
            (take_by gathering (option_map int_value integer) (accumulator_view self.old)) result }
    {
        match (gathering, integer) {
            (Gathering::Rows, _) => self.take_row(),
            (Gathering::Values(_), None) => Ok(()),
            (Gathering::Values(_), Some(integer)) => self.take_integer(alloc, integer),
        }
    }

    /// Takes an integer. It is added here to a sum of others.
    #[inline(always)]
    fn take_integer(&mut self, alloc: Global, integer: i64) -> Result<(), NoMemory>
        ensures { Becomes (accumulator_view self.old) (accumulator_view self.new)
            (take_value (accumulator_view self.old) (Some (int_value integer))) result }
    {
        if let Accumulator::Sum(Some(sum)) = self {
            let Some(total) = sum.checked_add(i128::from(integer)) else {
                return Err(NoMemory);
            };
            *sum = total;
            return Ok(());
        }
        self.take_other(alloc, integer)
    }

    /// Takes an integer, where it isn't added to others.
    #[inline(never)]
    fn take_other(&mut self, alloc: Global, integer: i64) -> Result<(), NoMemory>
        ensures { Becomes (accumulator_view self.old) (accumulator_view self.new)
            (take_value (accumulator_view self.old) (Some (int_value integer))) result }
    {
        self.take_value(alloc, ValueRef::Int(integer))
    }
}

/// Takes an integer, or NULL, into the accumulator of its aggregate, if there is one.
#[inline(always)]
fn take_integer_into(
    alloc: Global,
    gatherings: &[Gathering],
    accumulators: &mut Accumulators,
    aggregate: u32,
    integer: Option<i64>,
) -> Result<(), NoMemory>
    ensures { Becomes (accumulators_view (accumulators.old).items) (accumulators_view (accumulators.new).items)
        (take_at_by gatherings.now aggregate (option_map int_value integer)
        (accumulators_view (accumulators.old).items)) result }
{
    let at = aggregate as usize;
    if at >= gatherings.len() {
        return Ok(());
    }
    if at >= accumulators.len() {
        return Ok(());
    }
    accumulators[at].take_row_of(alloc, gatherings[at], integer)
}

impl GroupMap {
    /// Takes an integer, or NULL, for an aggregate into the group of a number: so it is put with the group's key tuple.
    /// Numbers stay.
    ///
    /// Errors: want of memory, or of room for a count or a sum. Nothing has changed then.
    #[inline(always)]
    pub fn take_integer(
        &mut self,
        alloc: Global,
        number: usize,
        aggregate: u32,
        integer: Option<i64>,
    ) -> Result<(), NoMemory>
        requires { number < length (tuples_view self.old) }
        ensures groups { PutsCellAt number aggregate (option_map int_value integer) self.old self.new result }
        ensures gatherings { gatherings_view self.new ≡ gatherings_view self.old }
        ensures tuples { tuples_view self.new ≡ tuples_view self.old }
    {
        self.take_integer_at(alloc, number, aggregate, integer)
    }

    /// Takes an integer, or NULL, for an aggregate into the group of a number.
    #[inline(always)]
    fn take_integer_at(
        &mut self,
        alloc: Global,
        number: usize,
        aggregate: u32,
        integer: Option<i64>,
    ) -> Result<(), NoMemory>
        requires { number < length (self.old).groups.items }
        ensures groups { Becomes (groups_in self.old) (groups_in self.new)
            (taken_at (self.old).gatherings.items number
            (Some (record { aggregate = aggregate; value = option_map int_value integer })) (groups_in self.old))
            result }
        ensures gatherings { (self.new).gatherings ≡ (self.old).gatherings }
    {
        let group = &mut self.groups[number];
        take_integer_into(
            alloc,
            &self.gatherings,
            &mut group.accumulators,
            aggregate,
            integer,
        )
    }
}
