//! Plans: what is read, tested and selected.

ghost use Rattle.std.specs.Prelude.{◌≡◌, map, true};
ghost use Rattle.std.specs.List.{list_all};
ghost use Rattle.dr_nested.specs.PathView.{path_view};
ghost use Rattle.dr_plan.specs.Fitting.{selection_fits, truth_fits};

use crate::aggregate::{Aggregate, Within};
use crate::expression::{Expr, Truth};
use crate::joining::Joining;
use crate::objects::ObjectPlan;
use dr_nested::Path;

/// What an item of a record query gives.
#[derive(Drop)]
pub enum RecordTerm {
    Value(Expr),
    Within(Within),
}

/// An item of a record query, with the name of what it gives.
#[derive(Drop)]
pub struct RecordItem {
    pub name: String,
    pub term: RecordTerm,
}

/// What an item of an aggregate query gives: a key or an aggregate, by its number in the plan.
#[derive(Clone, Copy, PartialEq, Eq)]
pub enum GroupTerm {
    Key(u32),
    Aggregate(u32),
}

/// An item of an aggregate query, with the name of what it gives.
#[derive(Drop)]
pub struct GroupItem {
    pub name: String,
    pub term: GroupTerm,
}

/// What a plan selects.
#[derive(Drop)]
pub enum Selection {
    /// Objects of each record: the items in SELECT order, and which object has which of them.
    Objects(Vec<RecordItem>, ObjectPlan),
    /// Groups: keys by the numbers of their leaves in GROUP BY order, aggregates and items in SELECT order.
    Groups(Vec<u32>, Vec<Aggregate>, Vec<GroupItem>),
}

/// A query whose names are bound to a schema. Each number in it is that of a leaf, a key or an aggregate that it has;
/// each leaf is of the type of its place; SUM is of numbers; the aggregates of groups are numbered in the order of the
/// items that give them.
#[derive(Drop)]
pub struct Plan {
    /// The leaves that it uses, each once, in reading order.
    pub leaves: Vec<Path>,
    /// The condition, as expressions all of which must be true. Without a condition there is none.
    pub test: Vec<Truth>,
    /// How the condition joins them, as it was written.
    pub joining: Option<Joining>,
    pub selection: Selection,
    pub ghost tested: { list_all (truth_fits (map path_view leaves.items)) test.items ≡ true },
    pub ghost selected: { selection_fits (map path_view leaves.items) selection ≡ true },
}
