//! The moves of a walk through records.

use crate::triplet::Triplet;

/// One move of a walk in reading order: into or out of the record (0) or an instance of the schema's nth repeated
/// field, or the next triplet of a leaf, the leaf by its place in the selection.
#[derive(Clone, Copy, PartialEq, Eq)]
pub enum Move<'a> {
    Enter(u32),
    Leaf(u32, Triplet<'a>),
    Leave(u32),
}
