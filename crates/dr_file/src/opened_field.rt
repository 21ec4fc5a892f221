//! A leaf that a file was opened for.

ghost use Rattle.std.specs.Prelude.{◌≡◌, ◌≢◌, true};
ghost use Rattle.dr_file.specs.Fields.{is_lower, telling_view, itself};

use crate::opened_leaf::OpenedLeaf;
use dr_levels::Levels;
use dr_nested::Kind;

/// How the column of a leaf is told by that of the leaf that is read for it.
#[derive(Clone, Copy)]
pub(crate) enum Telling {
    /// It is that column itself.
    Itself,
    /// It has a NULL for each row.
    Nulls,
    /// It has a NULL for each triplet of at most this repetition level, of at most this definition level.
    Outline(Levels),
}

/// A leaf that a file was opened for.
#[derive(Drop)]
pub(crate) struct OpenedField {
    pub(crate) kind: Kind,
    /// Its greatest definition level.
    pub(crate) greatest: u8,
    /// The leaf that is read for it: itself, or one that stands in for it; one without chunks, where the records lack
    /// it.
    pub(crate) read: OpenedLeaf,
    pub(crate) telling: Telling,
    pub ghost lower: { is_lower telling greatest ≡ true },
}

impl OpenedField {
    /// The kind of the leaf's columns, and their greatest definition level where that of the leaf that is read is this
    /// one.
    pub(crate) fn form(&self, greatest: u8) -> (Kind, u8)
        ensures own { telling_view (self.now).telling ≡ itself
            → (result.0 ≡ (self.now).read.kind) × (result.1 ≡ greatest) }
        ensures other { telling_view (self.now).telling ≢ itself
            → (result.0 ≡ (self.now).kind) × (result.1 ≡ (self.now).greatest) }
        ensures lower { is_lower (self.now).telling result.1 ≡ true }
    {
        match self.telling {
            Telling::Itself => (self.read.kind, greatest),
            Telling::Nulls | Telling::Outline(_) => (self.kind, self.greatest),
        }
    }
}
