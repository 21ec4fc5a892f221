//! What was made of a record query in the branches that are open.

ghost use Rattle.std.specs.Prelude.{◌≡◌, ◌∷◌, [], ℕ, List, length, take, IfOk, OnOk};
ghost use Rattle.dr_cells.specs.Results.{AllFitShape};
ghost use Rattle.dr_cells.specs.Rows.{rows_shape, rows_view};
ghost use Rattle.dr_cells.specs.Shapes.{shape_view};
ghost use Rattle.dr_meaning.specs.Query.{RecordItem as MeantItem};
ghost use Rattle.dr_made_laws.specs.ObjectFlow.{Made};
ghost use Rattle.dr_made_laws.specs.ObjectFlowLaws.{made_objects};
ghost use Rattle.dr_scalar.specs.Slots.{slot_value};
ghost use Rattle.dr_within.specs.declared.levels.Level.{Level};
ghost use Rattle.dr_within.specs.ObjectFraming.{ClosesAs, HoldsObjects, TakesItemsInside, LeavesObjects};
ghost use Rattle.dr_within.specs.LevelTable.{lent_level};

use crate::levels::Level;
use crate::object_frame::ObjectFrame;
use dr_cells::{RowsOut, Shape};
use dr_levels::ValueRef;
use dr_memory::NoMemory;
use dr_plan::RecordItem;
use std::alloc::Global;
use std::mem;

/// What was made in each open branch, but for what was made in those that are open inside of it, and what was made of
/// the records before.
#[derive(Drop)]
pub(crate) struct ObjectFrames {
    /// In the innermost branch; where none is open, of the records before.
    pub(crate) inner: ObjectFrame,
    /// Around it, the outermost first.
    pub(crate) around: Vec<ObjectFrame>,
    /// To be used again.
    pub(crate) spare: Vec<ObjectFrame>,
}

impl ObjectFrames {
    /// Before any move.
    pub(crate) fn new(alloc: Global) -> ObjectFrames
        ensures { (items : List MeantItem) → HoldsObjects items [] [] result }
    {
        ObjectFrames {
            inner: ObjectFrame::new(alloc),
            around: Vec::new(alloc),
            spare: Vec::new(alloc),
        }
    }

    /// How many branches are open.
    #[inline(always)]
    pub(crate) fn depth(&self) -> usize
        ensures { result ≡ length (self.now).around.items }
    {
        self.around.len()
    }

    /// Into one more branch.
    ///
    /// Errors: want of memory alone.
    #[inline]
    pub(crate) fn enter(&mut self, alloc: Global) -> Result<(), NoMemory>
        ensures { OnOk result ((items : List MeantItem) (made : List Made) (marks : List ℕ)
            → HoldsObjects items made marks self.old → HoldsObjects items made (length made ∷ marks) self.new) }
    {
        let mut inner = match self.spare.pop() {
            Some(frame) => frame,
            None => ObjectFrame::new(alloc),
        };
        inner.clear();
        let outer = mem::replace(&mut self.inner, inner);
        self.around.push(outer)?;
        Ok(())
    }

    /// Takes the values of items for their aggregates: of those that fire at a leaf, by what was read last of each
    /// leaf.
    ///
    /// Errors: want of memory, or of room for a count or a sum.
    #[inline]
    pub(crate) fn take(
        &mut self,
        alloc: Global,
        items: &[RecordItem],
        places: &[u32],
        slots: &[Option<ValueRef<'_>>],
    ) -> Result<(), NoMemory>
        ensures { OnOk result (TakesItemsInside items.now places.now (slot_value slots.now) self.old self.new) }
    {
        self.inner.take(alloc, items, places, slots)
    }

    /// Out of the innermost branch, an instance of the repeated field of this number, or the record (0): what was made
    /// in it is cut off where it is dropped; else it is made into an object where its level is one of which objects are
    /// made.
    ///
    /// Errors: want of memory, or of room: a count is below 2^64, a sum within 128 bits, and the texts of a result have
    /// less than 4 GiB together.
    #[inline]
    pub(crate) fn leave(
        &mut self,
        alloc: Global,
        items: &[RecordItem],
        level: Option<&Level>,
        number: u32,
        slots: &[Option<ValueRef<'_>>],
        is_dropped: bool,
    ) -> Result<(), NoMemory>
        ensures left { OnOk result (LeavesObjects is_dropped items.now number (lent_level level.entry)
            (slot_value slots.now) self.old self.new) }
        ensures none { OnOk result ((items : List MeantItem) (made : List Made)
            → HoldsObjects items made [] self.old → HoldsObjects items made [] self.new) }
    {
        let Some(outer) = self.around.pop() else {
            return Ok(());
        };
        let inner = mem::replace(&mut self.inner, outer);
        if !is_dropped {
            self.inner
                .leave(alloc, items, level, number, slots, &inner)?;
        }
        self.spare.push(inner)?;
        Ok(())
    }

    /// The objects of the records, where no branch is open.
    ///
    /// Errors: want of room for their count.
    pub(crate) fn close(self, shape: Shape) -> Result<RowsOut, NoMemory>
        requires { ClosesAs (shape_view shape) self }
        ensures rows { IfOk result (λ r. (items : List MeantItem) (made : List Made)
            → HoldsObjects items made [] self → AllFitShape (shape_view shape) (made_objects made)
            → rows_view r ≡ made_objects made) }
        ensures shape { IfOk result (λ r. rows_shape r ≡ shape_view shape) }
    {
        let count = self.inner.built.count()?;
        Ok(RowsOut::of(shape, self.inner.built.cells, count))
    }
}
