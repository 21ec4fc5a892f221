//! Lengths of level parts.

/// How many bytes of hybrid data the level parts of a body have: none where there are no levels, and without the
/// lengths that stand before them in a V1 page.
#[derive(Clone, Copy, PartialEq, Eq)]
pub struct LevelLengths {
    pub definitions: usize,
    pub repetitions: usize,
}
