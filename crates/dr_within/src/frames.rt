//! What was made in the branches that are open.

ghost use Rattle.std.specs.Prelude.{◌≡◌, [], List, ℕ, Bool, length, IfOk, OnOk};
ghost use Rattle.dr_partials.specs.Putting.{Put, put_all};
ghost use Rattle.dr_plan.specs.Planned.{Planned, plan_view};
ghost use Rattle.dr_group.specs.Partials.{IsPartialOf, IsOfPuts};
ghost use Rattle.dr_within.specs.Takings.{puts_with};
ghost use Rattle.dr_within.specs.Framing.{Holds, EntersBranch, MakesPuts, LeavesBranch};

use crate::late::LateRows;
use crate::putting::{keep_each, put_each};
use crate::taking::Taking;
use dr_group::Partial;
use dr_levels::ValueRef;
use dr_memory::NoMemory;
use dr_plan::Plan;
use std::alloc::Global;

/// What was put of the records so far, and the rows that aren't put yet, since a branch that is open isn't known to be
/// kept.
#[derive(Drop)]
pub(crate) struct Frames {
    pub(crate) late: LateRows,
    /// Of each open branch, the outermost first, how many late rows there were as it began.
    pub(crate) marks: Vec<usize>,
    pub(crate) partial: Partial,
}

impl Frames {
    /// Before any move, for a plan whose key tuples have so many cells.
    ///
    /// Errors: want of memory alone.
    pub(crate) fn new(alloc: Global, plan: &Plan, width: usize) -> Result<Frames, NoMemory>
        ensures { IfOk result (Holds (plan_view plan.now) width [] [] []) }
    {
        Ok(Frames {
            late: LateRows::new(alloc, width),
            marks: Vec::new(alloc),
            partial: Partial::empty(alloc, plan)?,
        })
    }

    /// How many branches are open.
    #[inline(always)]
    pub(crate) fn depth(&self) -> usize
        ensures { result ≡ length (self.now).marks.items }
    {
        self.marks.len()
    }

    /// Into one more branch.
    ///
    /// Errors: want of memory alone.
    #[inline(always)]
    pub(crate) fn enter(&mut self) -> Result<(), NoMemory>
        ensures { OnOk result (EntersBranch self.old self.new) }
    {
        self.marks.push(self.late.len())?;
        Ok(())
    }

    /// Rows of what was read last of each leaf, one for each of some takings: they are put where all branches that are
    /// open are known to be kept. A key tuple is made in a buffer.
    ///
    /// Errors: want of memory, or of room for a count, a sum or a number of a group.
    #[inline(always)]
    pub(crate) fn fire<'a>(
        &mut self,
        alloc: Global,
        takings: &[Taking<'_>],
        keys: &[u32],
        slots: &[Option<ValueRef<'a>>],
        key: &mut Vec<Option<ValueRef<'a>>>,
        is_kept: bool,
    ) -> Result<(), NoMemory>
        ensures rows { OnOk result (MakesPuts is_kept (length keys.now) (puts_with keys.now takings.now slots.now)
            self.old self.new) }
        ensures marks { (self.new).marks ≡ (self.old).marks }
    {
        if is_kept {
            self.late.put_all(alloc, &mut self.partial)?;
            put_each(alloc, takings, keys, slots, key, &mut self.partial)
        } else {
            keep_each(alloc, takings, keys, slots, &mut self.late)
        }
    }

    /// Out of the innermost branch: what was made in it is cut off where it is dropped; else some rows come behind it.
    ///
    /// Errors: want of memory, or of room for a count, a sum or a number of a group.
    #[inline(always)]
    pub(crate) fn leave<'a>(
        &mut self,
        alloc: Global,
        takings: &[Taking<'_>],
        keys: &[u32],
        slots: &[Option<ValueRef<'a>>],
        key: &mut Vec<Option<ValueRef<'a>>>,
        is_dropped: bool,
    ) -> Result<(), NoMemory>
        ensures left { OnOk result (LeavesBranch is_dropped (length keys.now) (puts_with keys.now takings.now slots.now)
            self.old self.new) }
        ensures none { OnOk result ((p : Planned) (made : List Put)
            → Holds p (length keys.now) made [] [] self.old → Holds p (length keys.now) made [] [] self.new) }
    {
        let Some(mark) = self.marks.pop() else {
            return Ok(());
        };
        if is_dropped {
            self.late.truncate(mark);
            return Ok(());
        }
        let is_outermost = self.marks.is_empty();
        self.fire(alloc, takings, keys, slots, key, is_outermost)
    }

    /// All that was made, put together.
    ///
    /// Errors: want of memory, or of room for a count, a sum or a number of a group.
    pub(crate) fn close(self, alloc: Global) -> Result<Partial, NoMemory>
        ensures partial { IfOk result (λ x. (p : Planned) (n : ℕ) (made : List Put) (settled : List Bool)
            (marks : List ℕ) → Holds p n made settled marks self → IsOfPuts p made x) }
        ensures of_plan { IfOk result (λ x. (p : Planned) → IsPartialOf p self.partial → IsPartialOf p x) }
    {
        let mut late = self.late;
        let mut partial = self.partial;
        late.put_all(alloc, &mut partial)?;
        Ok(partial)
    }
}
