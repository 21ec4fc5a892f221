// Laws of paths.

ghost use Rattle.dr_meaning.specs.PathLaws.{FindLeafIsExact, FoundLeavesHaveLeafPaths};

/// A leaf that is found by its names has a leaf path of the schema.
pub fn found_leaves_have_leaf_paths()
    ensures { FoundLeavesHaveLeafPaths }
{}

/// A text finds a leaf exactly where that is among the leaves and its names, joined by dots, are the text.
pub fn find_leaf_is_exact()
    ensures { FindLeafIsExact }
{}
