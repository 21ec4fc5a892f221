//! The parts of a value under a schema, lent.

use dr_levels::ValueRef;
use dr_nested::{Field, Shape};
use serde_json::{Map, Value as Json};

/// An instance of a field: a leaf's value, or a group's fields with an object's members.
#[derive(Clone, Copy)]
pub enum Part<'v> {
    Leaf(ValueRef<'v>),
    Group(&'v [Field], &'v Map<String, Json>),
}

/// The instances of a field in order: none, or some values with their shape. They end before the first value that is
/// no instance.
#[derive(Clone, Copy)]
pub enum Parts<'v> {
    Nothing,
    Items(&'v Shape, &'v [Json]),
}
