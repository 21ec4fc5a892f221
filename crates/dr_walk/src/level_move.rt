//! The moves of a walk by levels.

use dr_levels::Levels;
use dr_nested::Kind;

/// A move of a walk by levels: into or out of the record (0) or an instance of the schema's nth repeated field; or the
/// next triplet of a leaf, by the leaf's place in the selection, with its levels and the kind of its value. Where no
/// kind is given, it has no value.
#[derive(Clone, Copy, PartialEq, Eq)]
pub enum LevelMove {
    Enter(u32),
    Leaf(u32, Levels, Option<Kind>),
    Leave(u32),
}
