// Laws of what a load has put.

ghost use Rattle.dr_load.specs.LoadedLaws.{LoadedCopiesAreFiles, LoadedRecordsAreHeld, LoadedRecordsAreJoined, LoadedTableIsHeld};

/// Behind the puts of a load, whatever was held before, each copy of each tablet holds the file of the tablet's
/// records, for any leaves of the schema; so the table is held.
pub fn loaded_table_is_held()
    ensures files { LoadedCopiesAreFiles }
    ensures held { LoadedTableIsHeld }
{}

/// What `load` says of a table makes it one whose copies are files of its records; and these are the records of the
/// input.
pub fn loaded_records_are_held()
    ensures { LoadedRecordsAreHeld }
{}

/// The records of the tablets, joined, are the records that were loaded.
pub fn loaded_records_are_joined()
    ensures { LoadedRecordsAreJoined }
{}
