//! Laws of leaves and what records give them.

ghost use Rattle.dr_striper.specs.Leaves.{RecordsFitLeaves, FormsFitLeaves, FoundLeavesHaveKinds, SchemaLeavesHaveKinds};

/// Each leaf of a schema takes what a record of the schema gives it: a value of its kind exactly where nothing on its
/// path is absent.
pub fn records_fit_leaves()
    ensures { RecordsFitLeaves }
{}

/// So does any node of the form of a record: its whole numbers may be out of their kind's range.
pub fn forms_fit_leaves()
    ensures { FormsFitLeaves }
{}

/// A leaf that is found by its names is a leaf of the schema, of its kind.
pub fn found_leaves_have_kinds()
    ensures { FoundLeavesHaveKinds }
{}

/// So is each leaf of the schema.
pub fn schema_leaves_have_kinds()
    ensures { SchemaLeavesHaveKinds }
{}
