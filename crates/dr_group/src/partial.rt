//! Partials of a query.

ghost use Rattle.std.specs.Prelude.{◌≡◌, ◌^◌, IfOk, List};
ghost use Rattle.dr_meaning.specs.Query.{GroupTerm};
ghost use Rattle.dr_partials.specs.Partials as meant;
ghost use Rattle.dr_partials.specs.PartialBounds.{PartialCanBeOf};
ghost use Rattle.dr_partials.specs.Putting as putting;
ghost use Rattle.dr_plan.specs.Planned.{Planned, plan_view, planned_query};
ghost use Rattle.dr_cells.specs.Results.{shape_tree, no_list_shapes};
ghost use Rattle.dr_cells.specs.Rows.{rows_view, rows_shape};
ghost use Rattle.dr_cells.specs.Shapes.{plan_shape, shape_view};
ghost use Rattle.dr_cells.specs.PlanShapes.{row_names};
ghost use Rattle.dr_group.specs.Gathering.{Becomes};
ghost use Rattle.dr_group.specs.Groups.{put_view};
ghost use Rattle.dr_group.specs.Maps.{groups_view};
ghost use Rattle.dr_group.specs.Partials.{partial_view, IsPartialOf, AreAlike};
ghost use Rattle.dr_group.specs.RowPartials.{partial_of_rows};
ghost use Rattle.dr_group.specs.Rows.{group_rows, AllAggregates};

use crate::group::Taken;
use crate::group_map::GroupMap;
use crate::making::gatherings_of;
use dr_cells::{Cells, RowsOut, Shape, shape_of};
use dr_levels::ValueRef;
use dr_memory::NoMemory;
use dr_plan::{GroupItem, Plan, Selection};
use std::alloc::Global;

/// What a query gives on some of the records: the lines of a record query, or the groups of an aggregate query.
#[derive(Drop)]
pub enum Partial {
    Lines(RowsOut),
    Groups(GroupMap),
}

impl Partial {
    /// A plan's partial before any record.
    ///
    /// Errors: want of memory alone.
    pub fn empty(alloc: Global, plan: &Plan) -> Result<Partial, NoMemory>
        ensures partial { IfOk result (λ p. partial_view p ≡ meant.empty_partial (planned_query (plan_view plan.now))) }
        ensures of_plan { IfOk result (λ p. IsPartialOf (plan_view plan.now) p) }
    {
        match &plan.selection {
            Selection::Objects(_, _) => {
                let shape = shape_of(alloc, plan)?;
                Ok(Partial::Lines(RowsOut::new(alloc, shape)))
            }
            Selection::Groups(keys, aggregates, items) => {
                let gatherings = gatherings_of(alloc, items, aggregates)?;
                let has_keys = !keys.is_empty();
                Ok(Partial::Groups(GroupMap::new(alloc, has_keys, gatherings)?))
            }
        }
    }

    /// The partial of so many rows of a plan of groups without keys: COUNT(*) has counted them, and any other aggregate
    /// has taken nothing. Of objects it has no lines.
    ///
    /// Errors: want of memory alone.
    pub fn of_rows(alloc: Global, plan: &Plan, rows: u64) -> Result<Partial, NoMemory>
        ensures partial { IfOk result (λ p. partial_view p
            ≡ partial_of_rows rows (planned_query (plan_view plan.now))) }
        ensures of_plan { IfOk result (λ p. IsPartialOf (plan_view plan.now) p) }
    {
        match &plan.selection {
            Selection::Objects(_, _) => Partial::empty(alloc, plan),
            Selection::Groups(_, aggregates, items) => {
                let gatherings = gatherings_of(alloc, items, aggregates)?;
                Ok(Partial::Groups(GroupMap::of_rows(alloc, gatherings, rows)?))
            }
        }
    }

    /// Puts a key tuple into the groups, which makes its group where there is none, and takes a value into it, if one
    /// is given. Lines take nothing so.
    ///
    /// Errors: want of memory, or of room for a count, a sum or a number of a group. Nothing has changed then.
    #[inline(always)]
    pub fn put(
        &mut self,
        alloc: Global,
        key: &[Option<ValueRef<'_>>],
        taken: Option<Taken<'_>>,
    ) -> Result<(), NoMemory>
        ensures partial { (p : Planned) → IsPartialOf p self.old
            → Becomes (partial_view self.old) (partial_view self.new)
            (putting.put (planned_query p) (put_view key.now taken.entry) (partial_view self.old)) result }
        ensures of_plan { (p : Planned) → IsPartialOf p self.old → IsPartialOf p self.new }
    {
        match self {
            Partial::Lines(_) => Ok(()),
            Partial::Groups(groups) => groups.put(alloc, key, taken),
        }
    }

    /// Merges another partial of the same query into this one: its lines behind these, or its groups into these.
    ///
    /// Errors: want of memory, or of room for texts or for the number of a group. Nothing has changed then.
    pub fn merge(&mut self, alloc: Global, other: Partial) -> Result<(), NoMemory>
        requires alike { AreAlike self.old other }
        requires mine { PartialCanBeOf (2 ^ 60) (partial_view self.old) }
        requires theirs { PartialCanBeOf (2 ^ 60) (partial_view other) }
        ensures partial { Becomes (partial_view self.old) (partial_view self.new)
            (meant.merge (partial_view self.old) (partial_view other)) result }
        ensures of_plan { (p : Planned) → IsPartialOf p self.old → IsPartialOf p self.new }
    {
        match self {
            Partial::Lines(rows) => match other {
                Partial::Lines(more) => rows.append(&more),
                Partial::Groups(_) => Ok(()),
            },
            Partial::Groups(groups) => match other {
                Partial::Groups(more) => groups.merge(alloc, more),
                Partial::Lines(_) => Ok(()),
            },
        }
    }

    /// The result of a plan's query of which this is the partial of all records.
    ///
    /// Errors: want of memory, or of room: the texts of a result have less than 4 GiB together.
    pub fn finish(self, alloc: Global, plan: &Plan) -> Result<RowsOut, NoMemory>
        ensures rows { IfOk result (λ r. rows_view r
            ≡ meant.finished (planned_query (plan_view plan.now)) (partial_view self)) }
        ensures shape { IsPartialOf (plan_view plan.now) self
            → IfOk result (λ r. rows_shape r ≡ plan_shape (plan_view plan.now)) }
    {
        match self {
            Partial::Lines(rows) => Ok(rows),
            Partial::Groups(groups) => finish_groups(&groups, alloc, plan),
        }
    }
}

/// The rows of groups, by a plan's items.
fn finish_groups(groups: &GroupMap, alloc: Global, plan: &Plan) -> Result<RowsOut, NoMemory>
    ensures rows { IfOk result (λ r. rows_view r
        ≡ meant.finished (planned_query (plan_view plan.now)) (meant.grouped (groups_view groups.now))) }
    ensures shape { IfOk result (λ r. rows_shape r ≡ plan_shape (plan_view plan.now)) }
{
    let shape = shape_of(alloc, plan)?;
    match &plan.selection {
        Selection::Objects(_, _) => Ok(RowsOut::new(alloc, shape)),
        Selection::Groups(_, _, items) => rows_of(groups, alloc, shape, items),
    }
}

/// The rows of groups, by items whose names have this shape.
fn rows_of(
    groups: &GroupMap,
    alloc: Global,
    shape: Shape,
    items: &[GroupItem],
) -> Result<RowsOut, NoMemory>
    requires { shape_view shape ≡ shape_tree (row_names items.now) no_list_shapes }
    ensures rows { IfOk result (λ r. (ts : List GroupTerm) → AllAggregates ts → rows_view r
        ≡ group_rows ts items.now (groups_view groups.now)) }
    ensures shape { IfOk result (λ r. rows_shape r ≡ shape_view shape) }
{
    let mut cells = Cells::new(alloc);
    groups.push_rows(alloc, items, &mut cells)?;
    Ok(RowsOut::of(shape, cells, groups.len() as u64))
}
