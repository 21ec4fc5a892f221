//! What names are bound to.

use dr_nested::{Path, Schema};
use std::alloc::Global;

/// What names are bound to: a schema, and the leaves of a plan, whose numbers stand for them in expressions. An
/// expression over a leaf that isn't among them has no meaning, but its faults, its type and its paths are told all the
/// same.
#[derive(Clone, Copy)]
pub struct Binder<'s> {
    pub alloc: Global,
    pub schema: &'s Schema,
    pub leaves: &'s [Path],
}
