//! The limits of a table file.

ghost use Rattle.std.specs.Prelude.{◌≡◌};
ghost use Rattle.dr_formats.specs.TableFile.{longest_table, most_tablets, most_leaf_lines};

/// The greatest length of a table file, in bytes.
pub const LONGEST_TABLE: usize = 2_097_152;

/// The greatest number of tablets of a table.
pub const MOST_TABLETS: u32 = 4096;

/// The greatest number of leaves of a table, and so of copies of a tablet.
pub const MOST_LEAF_LINES: u32 = 64;

/// A law: these are the limits of the definitions.
pub fn table_limits_are_as_defined()
    ensures text { LONGEST_TABLE ≡ longest_table }
    ensures tablets { MOST_TABLETS ≡ most_tablets }
    ensures leaves { MOST_LEAF_LINES ≡ most_leaf_lines }
{}
