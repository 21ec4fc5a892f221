//! Where the column of a leaf is.

use dr_nested::Path;

/// Where the column of a leaf is in a file.
#[derive(Drop)]
pub enum LeafSource {
    /// In its own chunks, at this place among the leaves of the file, from 0.
    Own(usize),
    /// Nowhere: the records of the file lack a field on the leaf's path.
    Nowhere,
    /// In the chunks of another leaf, since a group of the file lacks a field on the leaf's path.
    Other(StandIn),
}

/// A leaf of a file that stands in for one that a group of the file lacks.
#[derive(Drop)]
pub struct StandIn {
    /// The leaf; of its steps the repetitions count alone, the places are 0.
    pub leaf: Path,
    /// Its place among the leaves of the file, from 0.
    pub place: usize,
    /// The greatest repetition level of the group.
    pub repetition: u8,
    /// The greatest definition level of the group.
    pub definition: u8,
}
