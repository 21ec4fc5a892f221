//! What a turn of a course comes to.

use dr_levels::Levels;
use dr_nested::Kind;

/// A turn: into an instance of a repeated field or a record, a leaf's next triplet, or out of it; none yet; all was
/// gone through; or no records have these levels.
#[derive(Clone, Copy, PartialEq, Eq)]
pub enum Turn {
    Enters(u32),
    /// A leaf, the levels of its triplet, and the kind of its value, where it must have one.
    Gives(u32, Levels, Option<Kind>),
    Leaves(u32),
    Passes,
    Done,
    Stops,
}
