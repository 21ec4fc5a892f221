//! Groups of an aggregate query.

ghost use Rattle.std.specs.Prelude.{◌≡◌, IfOk, map};
ghost use Rattle.dr_group.specs.Views.{lent_cell, cell_view};
ghost use Rattle.dr_group.specs.Gathering.{new_group_by, empty_of, gathering_view};
ghost use Rattle.dr_group.specs.Groups.{accumulators_view, group_view, put_view, TakesInto};
ghost use Rattle.dr_group.specs.RowPartials.{gathered_of_rows};

use crate::accumulator::Accumulator;
use crate::gathering::Gathering;
use dr_levels::ValueRef;
use dr_memory::NoMemory;
use dr_nested::Value;
use smallvec::SmallVec;
use std::alloc::Global;

/// The cells of a key tuple. One lies where the group does; more have an allocation of their own.
pub type Cells = SmallVec<Option<Value>, 1>;

/// What the aggregates have gathered. Two lie where the group does; more have an allocation of their own.
pub type Accumulators = SmallVec<Accumulator, 2>;

/// A group: its key tuple, and what each aggregate has gathered.
#[derive(Drop)]
pub struct Group {
    pub keys: Cells,
    pub accumulators: Accumulators,
}

/// A value, or NULL, for one of the aggregates, by its number.
#[derive(Clone, Copy, PartialEq, Eq)]
pub struct Taken<'a> {
    pub aggregate: u32,
    pub value: Option<ValueRef<'a>>,
}

/// Takes a value into the accumulator of its aggregate, if there is one.
///
/// Errors: want of memory, or of room for a count or a sum. Nothing has changed then.
#[inline(always)]
pub fn take_into(
    alloc: Global,
    gatherings: &[Gathering],
    accumulators: &mut Accumulators,
    taken: Option<Taken<'_>>,
) -> Result<(), NoMemory>
    ensures { TakesInto gatherings.now taken.entry (accumulators.old).items (accumulators.new).items result }
{
    let Some(taken) = taken else {
        return Ok(());
    };
    let at = taken.aggregate as usize;
    if at >= gatherings.len() {
        return Ok(());
    }
    if at >= accumulators.len() {
        return Ok(());
    }
    accumulators[at].take(alloc, gatherings[at], taken.value)
}

/// A group of a key tuple, in which a value is taken.
///
/// Errors: want of memory, or of room for a sum.
pub fn new_group(
    alloc: Global,
    gatherings: &[Gathering],
    key: &[Option<ValueRef<'_>>],
    taken: Option<Taken<'_>>,
) -> Result<Group, NoMemory>
    ensures { IfOk result (λ g. group_view g ≡ new_group_by gatherings.now (put_view key.now taken.entry)) }
{
    let keys = held_keys(alloc, key)?;
    let mut accumulators = empty_accumulators(alloc, gatherings)?;
    take_into(alloc, gatherings, &mut accumulators, taken)?;
    Ok(Group { keys, accumulators })
}

/// The accumulators of a group without rows.
pub fn empty_accumulators(alloc: Global, gatherings: &[Gathering]) -> Result<Accumulators, NoMemory>
    ensures { IfOk result (λ v. accumulators_view v.items ≡ map empty_of gatherings.now) }
{
    let mut accumulators = SmallVec::with_capacity(alloc, gatherings.len())?;
    'gatherings: for gathering in gatherings {
        accumulators.push(Accumulator::new(*gathering))?;
    }
    Ok(accumulators)
}

/// The accumulators of a group of so many rows, of which no value is taken.
pub fn accumulators_of_rows(
    alloc: Global,
    gatherings: &[Gathering],
    rows: u64,
) -> Result<Accumulators, NoMemory>
    ensures { IfOk result (λ v. accumulators_view v.items
        ≡ map (gathered_of_rows rows) (map gathering_view gatherings.now)) }
{
    let mut accumulators = SmallVec::with_capacity(alloc, gatherings.len())?;
    'gatherings: for gathering in gatherings {
        accumulators.push(Accumulator::of_rows(*gathering, rows))?;
    }
    Ok(accumulators)
}

/// A key tuple of its own.
pub fn held_keys(alloc: Global, key: &[Option<ValueRef<'_>>]) -> Result<Cells, NoMemory>
    ensures { IfOk result (λ v. map cell_view v.items ≡ map lent_cell key.now) }
{
    let mut keys = SmallVec::with_capacity(alloc, key.len())?;
    'cells: for cell in key {
        keys.push(held_cell(alloc, *cell)?)?;
    }
    Ok(keys)
}

/// A cell of its own.
pub fn held_cell(alloc: Global, cell: Option<ValueRef<'_>>) -> Result<Option<Value>, NoMemory>
    ensures { IfOk result (λ v. cell_view v ≡ lent_cell cell.entry) }
{
    match cell {
        None => Ok(None),
        Some(value) => Ok(Some(value.to_value(alloc)?)),
    }
}
