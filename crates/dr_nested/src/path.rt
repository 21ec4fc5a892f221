//! Paths of a schema: its leaves, by the places of the fields that lead to them.

ghost use Rattle.std.specs.Prelude.{◌≤◌, length};
ghost use Rattle.dr_meaning.specs.Schema.{greatest_depth};

use crate::shape::{Kind, Rep};

/// One field on a path: its place in its group, counted from 0, and its repetition.
#[derive(Clone, Copy, PartialEq, Eq)]
pub struct Step {
    pub place: usize,
    pub rep: Rep,
}

/// A leaf of a schema: the names on its path, its path of at most 32 steps, and its kind.
#[derive(PartialEq, Eq, Drop)]
pub struct Path {
    pub names: Vec<String>,
    pub steps: Vec<Step>,
    pub kind: Kind,
    pub ghost within: { length steps.items ≤ greatest_depth },
}
