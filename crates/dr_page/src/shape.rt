//! Shapes of pages.

ghost use Rattle.std.specs.Prelude.{◌≤◌};

use dr_nested::Kind;

/// The greatest level of a leaf that a page may have.
pub const GREATEST_LEVEL: u8 = 32;

/// The forms of a data page.
#[derive(Clone, Copy, PartialEq, Eq)]
pub enum PageForm {
    /// DATA_PAGE: each level part has its length before it.
    V1,
    /// DATA_PAGE_V2: the header tells the lengths of the level parts.
    V2,
}

/// What is known of a data page before its body: what its header says of it, and the leaf that its chunk is of.
/// Encodings are the numbers of the format. Those of levels are looked at in V1 pages alone, the lengths of the level
/// parts in V2 pages alone.
#[derive(Clone, Copy)]
pub struct Shape {
    pub form: PageForm,
    /// How many triplets it is said to have.
    pub triplets: u64,
    /// The encoding of its values.
    pub encoding: i64,
    pub definition_encoding: i64,
    pub repetition_encoding: i64,
    pub definition_bytes: u64,
    pub repetition_bytes: u64,
    pub kind: Kind,
    /// The leaf's greatest repetition level.
    pub max_repetition: u8,
    /// The leaf's greatest definition level.
    pub max_definition: u8,
    pub ghost repetition_within: { max_repetition ≤ 32 },
    pub ghost definition_within: { max_definition ≤ 32 },
}
