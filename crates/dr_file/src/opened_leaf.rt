//! A leaf of an opened file.

ghost use Rattle.std.specs.Prelude.{◌≤◌, length};
ghost use Rattle.dr_meaning.specs.Schema.{greatest_depth};
ghost use Rattle.dr_formats.specs.File.{most_triplets};
ghost use Rattle.dr_file.specs.ChunkPlaces.{all_values};

use crate::chunk_place::ChunkPlace;
use dr_nested::{Kind, Step};

/// A leaf of an opened file: its path, its kind, and its chunks, one of each row group, which have not too many
/// triplets together.
#[derive(Drop)]
pub(crate) struct OpenedLeaf {
    pub(crate) steps: Vec<Step>,
    pub(crate) kind: Kind,
    pub(crate) chunks: Vec<ChunkPlace>,
    pub ghost short: { length steps.items ≤ greatest_depth },
    pub ghost few: { all_values chunks.items ≤ most_triplets },
}
