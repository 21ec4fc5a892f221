//! Opened files.

ghost use Rattle.std.specs.Prelude.{◌≤◌};

use crate::opened_field::OpenedField;

/// A file that was opened for some leaves of a schema: what its footer says of them.
#[derive(Drop)]
pub struct Opened {
    pub(crate) path: String,
    /// The byte offset of its footer.
    pub(crate) footer: u64,
    pub(crate) rows: u64,
    pub(crate) leaves: Vec<OpenedField>,
    pub ghost few: { rows ≤ 1000000000 },
}
