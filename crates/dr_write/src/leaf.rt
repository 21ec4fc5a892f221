//! What is written of a leaf.

ghost use Rattle.std.specs.Prelude.{◌≤◌};

use dr_nested::Kind;

/// A leaf of a schema: the names on its path, its kind, and its greatest levels.
#[derive(Drop)]
pub(crate) struct Leaf<'a> {
    pub(crate) names: Vec<&'a [u8]>,
    pub(crate) kind: Kind,
    pub(crate) max_repetition: u8,
    pub(crate) max_definition: u8,
    pub ghost repetition_within: { max_repetition ≤ 32 },
    pub ghost definition_within: { max_definition ≤ 32 },
}
