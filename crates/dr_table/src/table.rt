//! Tables.

ghost use Rattle.std.specs.Prelude.{◌<◌, ◌≤◌, length};

use dr_nested::Schema;

/// A table: its schema, the directories of its leaves, how many copies there are of each tablet, and how many tablets.
///
/// It keeps the limits: 1 to 64 leaves, at least one copy and at most one a leaf, 1 to 4,096 tablets.
#[derive(Drop)]
pub struct Table {
    pub schema: Schema,
    pub leaves: Vec<String>,
    pub copies: u32,
    pub tablets: u32,
    pub ghost has_leaf: { 0 < length leaves.items },
    pub ghost few_leaves: { length leaves.items ≤ 64 },
    pub ghost has_copy: { 0 < copies },
    pub ghost few_copies: { copies ≤ length leaves.items },
    pub ghost has_tablet: { 0 < tablets },
    pub ghost few_tablets: { tablets ≤ 4096 },
}
