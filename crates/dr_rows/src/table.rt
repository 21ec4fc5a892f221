//! Rows, held flat.

ghost use Rattle.std.specs.Prelude.{◌≡◌, ◌*◌, ◌<◌, ◌≤◌, ◌+◌, ◌==◌, ◌++◌, ◌∷◌, [], length, drop, OnOk};
ghost use Rattle.std.specs.Vec.{vec_len, vec_capacity};

use crate::instance_ref::InstanceRef;
use crate::row::Row;
use dr_levels::ValueRef;
use dr_nested::NoMemory;
use std::alloc::Global;

/// Rows, in order: the values of the same leaves in each, one row behind another, and beside them the instances at
/// their ends.
#[derive(Drop)]
pub struct Rows<'n> {
    pub(crate) width: usize,
    pub(crate) values: Vec<Option<ValueRef<'n>>>,
    pub(crate) ends: Vec<Option<InstanceRef<'n>>>,
    pub ghost even: { length values.items ≡ length ends.items * width },
}

/// Appends an end for which there is room.
fn join_end<'n>(ends: &mut Vec<Option<InstanceRef<'n>>>, end: Option<InstanceRef<'n>>)
    requires { vec_len ends.old + 1 ≤ vec_capacity ends.old }
    ensures { ends.new.items ≡ ends.old.items ++ end.entry ∷ [] }
{
    match ends.push(end) {
        Ok(()) => {}
        Err(_) => unreachable!(),
    }
}

impl<'n> Rows<'n> {
    ghost use Rattle.dr_rows.specs.Views.{lent_cells, lent_instance, row_view, rows_view, rows_width};
    ghost use Rattle.dr_rows.specs.Known.{Known};
    ghost use Rattle.std.specs.Prelude.{option_map};

    /// No rows of so many leaves.
    pub(crate) fn new(alloc: Global, width: usize) -> Rows<'n>
        ensures none { rows_view result ≡ [] }
        ensures width { rows_width result ≡ width }
    {
        Rows {
            width,
            values: Vec::new(alloc),
            ends: Vec::new(alloc),
        }
    }

    /// How many there are.
    pub fn len(&self) -> usize
        ensures { result ≡ length (rows_view self.now) }
    {
        self.ends.len()
    }

    /// Whether there are none.
    pub fn is_empty(&self) -> bool
        ensures { result ≡ (length (rows_view self.now) == 0) }
    {
        self.ends.is_empty()
    }

    /// The row of a number.
    pub fn row(&self, number: usize) -> Row<'_, 'n>
        requires { number < length (rows_view self.now) }
        ensures row { drop number (rows_view self.now) ≡ row_view result ∷ drop (number + 1) (rows_view self.now) }
        ensures width { length result.values.now ≡ rows_width self.now }
    {
        let from = number * self.width;
        let end = self.ends[number];
        Row {
            values: &self.values[from..from + self.width],
            end,
        }
    }

    /// Appends a row.
    ///
    /// Errors: want of memory alone.
    pub(crate) fn push(
        &mut self,
        values: &[Option<ValueRef<'n>>],
        end: Option<InstanceRef<'n>>,
    ) -> Result<(), NoMemory>
        requires { length values.now ≡ rows_width self.old }
        ensures row { OnOk result (rows_view self.new
            ≡ rows_view self.old ++ record { values = lent_cells values.now; end = option_map lent_instance end.entry }
            ∷ []) }
        ensures width { rows_width self.new ≡ rows_width self.old }
    {
        self.ends.reserve(1)?;
        self.values.extend_from_slice(values)?;
        join_end(&mut self.ends, end);
        Ok(())
    }
}
