//! Laws of the leaves for which records are read, and of scans.

ghost use Rattle.dr_scan.specs.LeafLaws.{FoundAreLeaves, NamedAreLeaves, UsedAreLeaves};
ghost use Rattle.dr_scan.specs.ScanLaws.{TrueOfMoreCopies};

/// The leaves that words name, and those that a query uses, are leaves of the schema.
pub fn named_and_used_are_leaves()
    ensures found { FoundAreLeaves }
    ensures named { NamedAreLeaves }
    ensures used { UsedAreLeaves }
{}

/// What is true of a tablet of which one copy is at a path is true of each tablet of which a copy is there.
pub fn true_of_more_copies()
    ensures { TrueOfMoreCopies }
{}
