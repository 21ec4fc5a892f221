//! A striper of records.

ghost use Rattle.std.specs.Prelude.{◌≡◌, [], length, replicate, true, IfOk};
ghost use Rattle.std.specs.List.{list_all};
ghost use Rattle.dr_nested.specs.Views.{node_view};
ghost use Rattle.dr_levels.specs.Views.{columns_view, forms_view};
ghost use Rattle.dr_striper.specs.Leaves.{OfSomeSchema};
ghost use Rattle.dr_striper.specs.Striping.{leaves_of, forms_of};
ghost use Rattle.dr_striper.specs.Stripers.{AddsRecord, IsRecord, fits_leaf, record_in, striped, striped_leaves, striped_paths};

use crate::copying::copy_columns;
use crate::held::Held;
use crate::inside::Inside;
use crate::making::Striper;
use crate::planting::new_branches;
use crate::records::{end_records, stripe_record};
use dr_levels::Column;
use dr_nested::{NoMemory, Node, Path};
use std::alloc::Global;

impl<'a> Striper<'a> {
    /// A striper for leaves of a schema, with no record yet.
    ///
    /// Errors: want of memory alone.
    pub fn new(alloc: Global, fields: &'a [Path]) -> Result<Striper<'a>, NoMemory>
        requires { OfSomeSchema (leaves_of fields.now) }
        ensures columns { IfOk result (λ s. striped s ≡ replicate (length fields.now) []) }
        ensures leaves { IfOk result (λ s. striped_leaves s ≡ leaves_of fields.now) }
    {
        let branches = new_branches(alloc, fields)?;
        Ok(Striper {
            fields,
            levels: Vec::new(alloc),
            branches,
        })
    }

    /// Appends what a record gives to each leaf's column, in one pass through the record. Each leaf takes what the
    /// record gives it: a value of its kind exactly where nothing on its path is absent. A record of a schema does so
    /// at the schema's leaves.
    ///
    /// Errors: want of memory, or of room for texts; the columns are then as they were.
    pub fn add(&mut self, node: &Node) -> Result<(), NoMemory>
        requires fits { list_all (fits_leaf (node_view node.now)) (striped_leaves self.old) ≡ true }
        ensures columns { AddsRecord (node_view node.now) (striped_paths self.old) (striped self.old)
            (striped self.new) result }
        ensures leaves { striped_leaves self.new ≡ striped_leaves self.old }
    {
        self.add_held(Inside::Group(node))
    }

    /// Appends what a record gives that is held in another form.
    ///
    /// Errors: as `add`.
    pub fn add_held<H: Held>(&mut self, held: H) -> Result<(), NoMemory>
        requires group { IsRecord (H.shows held) }
        requires fits { list_all (fits_leaf (record_in (H.shows held))) (striped_leaves self.old) ≡ true }
        ensures columns { AddsRecord (record_in (H.shows held)) (striped_paths self.old) (striped self.old)
            (striped self.new) result }
        ensures leaves { striped_leaves self.new ≡ striped_leaves self.old }
    {
        stripe_record(self.fields, &mut self.levels, &mut self.branches, held)
    }

    /// The columns, one for each leaf, in the order in which the leaves were given.
    ///
    /// Errors: want of memory, or of room for texts.
    pub fn finish(self, alloc: Global) -> Result<Vec<Column>, NoMemory>
        ensures columns { IfOk result (λ v. columns_view v.items ≡ striped self.entry) }
        ensures forms { IfOk result (λ v. forms_view v.items ≡ forms_of (striped_leaves self.entry)) }
    {
        let mut branches = self.branches;
        let levels = self.levels;
        end_records(self.fields, &levels, &mut branches)?;
        copy_columns(alloc, self.fields, &levels, &branches)
    }
}
