//! Paths of a query.

use dr_nested::Path;

/// A path of a query, by the place of its first byte in the text, and the leaf to which it leads.
#[derive(Drop)]
pub struct BoundPath {
    pub place: usize,
    pub leaf: Path,
}
