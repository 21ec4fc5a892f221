//! What a chunk's pages need to know of its leaf.

ghost use Rattle.std.specs.Prelude.{◌≤◌};

use dr_nested::Kind;

/// The kind of a leaf, and its greatest levels, at most 32 each.
#[derive(Clone, Copy)]
pub struct LeafShape {
    pub kind: Kind,
    pub max_repetition: u8,
    pub max_definition: u8,
    pub ghost repetition_within: { max_repetition ≤ 32 },
    pub ghost definition_within: { max_definition ≤ 32 },
}
