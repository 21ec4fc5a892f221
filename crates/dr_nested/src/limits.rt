//! The limits of a schema.

ghost use Rattle.std.specs.Prelude.{◌≡◌};
ghost use Rattle.dr_meaning.specs.Schema.{longest_name, greatest_depth, most_leaves};
ghost use Rattle.dr_meaning.specs.SchemaText.{longest_schema};

/// The greatest length of a schema text, in bytes.
pub const LONGEST_SCHEMA: usize = 1_048_576;

/// The greatest length of a name, in bytes.
pub const LONGEST_NAME: usize = 64;

/// The greatest number of parts of a path.
pub const GREATEST_DEPTH: usize = 32;

/// The greatest number of leaves of a schema.
pub const MOST_LEAVES: usize = 1024;

/// A law: these are the limits of the definitions.
pub fn schema_limits_are_as_defined()
    ensures text { LONGEST_SCHEMA ≡ longest_schema }
    ensures name { LONGEST_NAME ≡ longest_name }
    ensures depth { GREATEST_DEPTH ≡ greatest_depth }
    ensures leaves { MOST_LEAVES ≡ most_leaves }
{}
