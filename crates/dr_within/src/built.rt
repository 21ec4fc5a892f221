//! Objects that were built in a branch, held as cells.

ghost use Rattle.std.specs.Prelude.{◌≡◌, ◌+◌, ◌++◌, [], List, map, length, IfOk, IfSome, OnOk};
ghost use Rattle.dr_meaning.specs.Query.{Object};
ghost use Rattle.dr_made_laws.specs.ObjectFlow.{Made, built, objects_for};
ghost use Rattle.dr_made_laws.specs.ObjectFlowLaws.{made_objects};
ghost use Rattle.dr_cells.specs.Results.{result_cells};
ghost use Rattle.dr_cells.specs.Views.{cells_view};
ghost use Rattle.dr_within.specs.ObjectFraming.{IsRun, AreRuns, HoldsBuilt, AddsObject};

use crate::copying::push_cells;
use dr_cells::Cells;
use dr_memory::NoMemory;
use std::alloc::Global;

/// Objects of one level, one behind another.
#[derive(Clone, Copy, PartialEq, Eq)]
pub(crate) struct Run {
    /// The number of the level.
    pub(crate) level: u32,
    /// How many objects there are.
    pub(crate) count: u64,
    /// How many cells they have together.
    pub(crate) cells: usize,
}

/// Objects, run by run: their cells, one object's behind another's.
#[derive(Drop)]
pub(crate) struct Built {
    pub(crate) cells: Cells,
    pub(crate) runs: Vec<Run>,
}

/// Both as one run of the first one's level.
fn joined(first: Run, second: Run) -> Option<Run>
    ensures { IfSome result (λ r. r ≡ record {
      level = first.level;
      count = first.count + second.count;
      cells =
          first.cells + second.cells;
    }) }
{
    Some(Run {
        level: first.level,
        count: first.count.checked_add(second.count)?,
        cells: first.cells.checked_add(second.cells)?,
    })
}

/// Appends a run, as a part of the last one where that is of its level.
fn add_run(runs: &mut Vec<Run>, run: Run) -> Result<(), NoMemory>
    ensures { OnOk result ((ms : List Made) (os : List Object) → AreRuns (runs.old).items ms → IsRun run os
        → AreRuns (runs.new).items (ms ++ map (built run.level) os)) }
{
    let Some(last) = runs.pop() else {
        runs.push(run)?;
        return Ok(());
    };
    if last.level != run.level {
        runs.push(last)?;
        runs.push(run)?;
        return Ok(());
    }
    let Some(both) = joined(last, run) else {
        return Err(NoMemory);
    };
    runs.push(both)?;
    Ok(())
}

impl Built {
    /// No objects.
    pub(crate) fn new(alloc: Global) -> Built
        ensures { HoldsBuilt [] result }
    {
        Built {
            cells: Cells::new(alloc),
            runs: Vec::new(alloc),
        }
    }

    /// Has none of them any more.
    pub(crate) fn clear(&mut self)
        ensures { HoldsBuilt [] self.new }
    {
        self.cells.clear();
        self.runs.clear();
    }

    /// One object more, of a level: its cells are those from this number on.
    ///
    /// Errors: want of memory, or of room for a count.
    pub(crate) fn add_object(&mut self, level: u32, first: usize) -> Result<(), NoMemory>
        ensures { OnOk result (AddsObject level first self.old self.new) }
    {
        let cells = self.cells.len().saturating_sub(first);
        add_run(
            &mut self.runs,
            Run {
                level,
                count: 1,
                cells,
            },
        )
    }

    /// Appends other objects.
    ///
    /// Errors: want of memory, or of room.
    pub(crate) fn append(&mut self, more: &Built) -> Result<(), NoMemory>
        ensures { OnOk result ((made others : List Made) → HoldsBuilt made self.old → HoldsBuilt others more.now
            → HoldsBuilt (made ++ others) self.new) }
    {
        self.cells.append(&more.cells)?;
        'runs: for run in &more.runs {
            add_run(&mut self.runs, *run)?;
        }
        Ok(())
    }

    /// How many objects there are.
    ///
    /// Errors: want of room for the count.
    pub(crate) fn count(&self) -> Result<u64, NoMemory>
        ensures { IfOk result (λ n. (made : List Made) → HoldsBuilt made self.now → n ≡ length (made_objects made)) }
    {
        let mut count = 0u64;
        'runs: for run in &self.runs {
            let Some(more) = count.checked_add(run.count) else {
                return Err(NoMemory);
            };
            count = more;
        }
        Ok(count)
    }

    /// How many there are of a level.
    ///
    /// Errors: want of room for the count.
    pub(crate) fn count_of(&self, level: u32) -> Result<u64, NoMemory>
        ensures { IfOk result (λ n. (made : List Made) → HoldsBuilt made self.now
            → n ≡ length (objects_for level made)) }
    {
        let mut count = 0u64;
        'runs: for run in &self.runs {
            if run.level == level {
                let Some(more) = count.checked_add(run.count) else {
                    return Err(NoMemory);
                };
                count = more;
            }
        }
        Ok(count)
    }

    /// Appends the cells of those of a level, in order.
    ///
    /// Errors: want of memory, or of room.
    pub(crate) fn push_objects(&self, level: u32, cells: &mut Cells) -> Result<(), NoMemory>
        ensures { OnOk result ((made : List Made) → HoldsBuilt made self.now
            → cells_view cells.new ≡ cells_view cells.old ++ result_cells (objects_for level made)) }
    {
        let mut start = 0usize;
        'runs: for run in &self.runs {
            if run.level == level {
                push_cells(&self.cells, start, run.cells, cells)?;
            }
            let Some(next) = start.checked_add(run.cells) else {
                return Err(NoMemory);
            };
            start = next;
        }
        Ok(())
    }
}
