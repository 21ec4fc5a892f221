//! The levels of a record query, by the numbers of the repeated fields.

ghost use Rattle.std.specs.Prelude.{◌≡◌, ◌<◌, map, length, IfOk, OnOk};
ghost use Rattle.dr_nested.specs.PathView.{step_view};
ghost use Rattle.dr_nested.specs.Views.{fields_view};
ghost use Rattle.dr_plan.specs.Objects.{object_view};
ghost use Rattle.dr_cells.specs.PlanShapes.{plan_lists_view};
ghost use Rattle.dr_within.specs.LevelTable as meant;
ghost use Rattle.dr_within.specs.LevelTable.{
  HasLevelsOf,
  lent_level,
  level_in,
  level_row,
  list_rows,
  rows_in,
  tree_numbers,
  tree_rows,
  with_row,
};

use dr_memory::NoMemory;
use dr_nested::{Schema, Step};
use dr_plan::{ListPlan, ObjectPlan};
use dr_prune::chain_numbers;
use std::alloc::Global;

/// A level of whose instances objects are made: the places of the items that belong to it, in SELECT order, and the
/// numbers of the levels of its lists, in the order of the lists.
#[derive(Drop)]
pub(crate) struct Level {
    pub(crate) items: Vec<u32>,
    pub(crate) lists: Vec<u32>,
}

/// The levels of whose instances a plan makes objects, each at its number: 0 is the record's.
#[derive(Drop)]
pub(crate) struct Levels {
    pub(crate) rows: Vec<Option<Level>>,
}

/// The number of the level at a path.
///
/// Errors: want of memory alone.
fn level_number(alloc: Global, schema: &Schema, path: &[Step]) -> Result<u32, NoMemory>
    ensures { IfOk result (λ k. k ≡ meant.level_number (fields_view (schema.now).fields.items)
        (map step_view path.now)) }
{
    let numbers = chain_numbers(alloc, schema, path)?;
    let count = numbers.len();
    if count == 0 {
        return Ok(0);
    }
    Ok(numbers[count - 1])
}

/// Makes room for the level of a number.
///
/// Errors: want of memory alone.
fn reach(rows: &mut Vec<Option<Level>>, at: usize) -> Result<(), NoMemory>
    ensures room { OnOk result (at < length (rows.new).items) }
    ensures same { rows_in (rows.new).items ≡ rows_in (rows.old).items }
{
    'rows: while rows.len() <= at {
        rows.push(None)?;
    }
    Ok(())
}

/// Sets the level of a number.
///
/// Errors: want of memory alone.
fn set(rows: &mut Vec<Option<Level>>, number: u32, level: Level) -> Result<(), NoMemory>
    ensures { OnOk result (rows_in (rows.new).items ≡ with_row number (level_row level) (rows_in (rows.old).items)) }
{
    let at = number as usize;
    reach(rows, at)?;
    rows[at] = Some(level);
    Ok(())
}

/// Some numbers once more.
///
/// Errors: want of memory alone.
fn copied(alloc: Global, numbers: &[u32]) -> Result<Vec<u32>, NoMemory>
    ensures { IfOk result (λ v. v.items ≡ numbers.now) }
{
    let mut copy = Vec::new(alloc);
    copy.extend_from_slice(numbers)?;
    Ok(copy)
}

/// Sets the level of this number, which an object's plan is for, and all levels below.
#[cycle(levels)]
fn add_object(
    alloc: Global,
    schema: &Schema,
    number: u32,
    object: &ObjectPlan,
    rows: &mut Vec<Option<Level>>,
) -> Result<(), NoMemory>
    ensures { OnOk result (rows_in (rows.new).items ≡ tree_rows (fields_view (schema.now).fields.items) number
        (object_view object.now) (rows_in (rows.old).items)) }
{
    let lists = add_lists(alloc, schema, &object.lists, rows)?;
    let items = copied(alloc, &object.items)?;
    set(rows, number, Level { items, lists })
}

/// Sets the levels of some lists, and all below, and tells their numbers.
#[cycle(levels)]
fn add_lists(
    alloc: Global,
    schema: &Schema,
    lists: &Vec<ListPlan>,
    rows: &mut Vec<Option<Level>>,
) -> Result<Vec<u32>, NoMemory>
    ensures rows { OnOk result (rows_in (rows.new).items ≡ list_rows (fields_view (schema.now).fields.items)
        (plan_lists_view (lists.now).items) (rows_in (rows.old).items)) }
    ensures numbers { IfOk result (λ v. v.items ≡ tree_numbers (fields_view (schema.now).fields.items)
        (plan_lists_view (lists.now).items)) }
{
    let mut numbers = Vec::new(alloc);
    'lists: for list in lists {
        let number = level_number(alloc, schema, &list.level)?;
        add_object(alloc, schema, number, &list.object, rows)?;
        numbers.push(number)?;
    }
    Ok(numbers)
}

impl Levels {
    /// The levels of a record query over a schema, of whose objects this is the plan.
    ///
    /// Errors: want of memory alone.
    pub(crate) fn of(
        alloc: Global,
        schema: &Schema,
        object: &ObjectPlan,
    ) -> Result<Levels, NoMemory>
        ensures { IfOk result (HasLevelsOf (fields_view (schema.now).fields.items) (object_view object.now)) }
    {
        let mut rows = Vec::new(alloc);
        add_object(alloc, schema, 0, object, &mut rows)?;
        Ok(Levels { rows })
    }

    /// The level of a number, where objects are made of its instances.
    #[inline(always)]
    pub(crate) fn at(&self, number: u32) -> Option<&Level>
        ensures { lent_level result ≡ level_in (self.now).rows.items number }
    {
        match self.rows.get(number as usize) {
            Some(row) => row.as_ref(),
            None => None,
        }
    }
}
