//! The branches of a tree of leaves.

ghost use Rattle.std.specs.Prelude.{◌≤◌, length};
ghost use Rattle.dr_levels.specs.Views.{column_view};

use dr_levels::{Column, Levels};
use dr_nested::Rep;

/// A leaf's own column, how many of the levels above it are in it, and both as they were before the last record that
/// it took part in.
#[derive(Drop)]
pub(crate) struct LeafGrown {
    pub(crate) seen: usize,
    pub(crate) column: Column,
    pub(crate) was_seen: usize,
    pub(crate) was_long: usize,
    pub ghost marked: { was_long ≤ length (column_view column) },
}

/// A group's own levels, how many of those above it are in them, and both as they were before the last record that it
/// took part in.
#[derive(Drop)]
pub(crate) struct GroupGrown {
    pub(crate) seen: usize,
    pub(crate) levels: Vec<Levels>,
    pub(crate) was_seen: usize,
    pub(crate) was_long: usize,
    pub ghost marked: { was_long ≤ length levels.items },
}

/// What is at a field's place in its group: nothing that is asked for, a leaf, or a group with its branches.
#[cycle(branch)]
#[derive(Drop)]
pub(crate) enum Branch {
    Nothing,
    Leaf(Rep, LeafGrown),
    Group(Rep, GroupGrown, Vec<Branch>),
}
