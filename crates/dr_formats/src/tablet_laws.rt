//! Laws of tablets.

ghost use Rattle.dr_formats.specs.TabletLaws.{PathsDiffer, PlacementIsLeaf, PlacementsDiffer, TabletsAreFull, TabletsAreNotEmpty, TabletsHoldRecords};

/// Tablets hold the records in order, so many to a tablet, and there is at least one; none is empty, but for the one of
/// no records.
pub fn tablets_hold_records()
    ensures records { TabletsHoldRecords }
    ensures full { TabletsAreFull }
    ensures none_empty { TabletsAreNotEmpty }
{}

/// The copies of a tablet lie on leaves that are there, each on one of its own.
pub fn placements_are_leaves()
    ensures leaf { PlacementIsLeaf }
    ensures differ { PlacementsDiffer }
{}

/// Different tablets have different paths, in whichever directories they lie.
pub fn tablet_paths_differ()
    ensures { PathsDiffer }
{}
