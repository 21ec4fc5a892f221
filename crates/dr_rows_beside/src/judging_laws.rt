// Laws of what a condition keeps of columns side by side.

ghost use Rattle.dr_rows_beside.specs.Bits.{GathersBits, GathersItself};
ghost use Rattle.dr_rows_beside.specs.TestRows.{AnswersOfRecords};
ghost use Rattle.dr_rows_beside.specs.Kept.{JudgedBits, JudgedRowsAreKept};
ghost use Rattle.dr_rows_beside.specs.Keeps.{KeepingHolds, RecordsCanBeJudged};
ghost use Rattle.dr_rows_beside.specs.KeptRows.{KeptRowsOfRecords, KeptRecordsAreCounted};

/// The bits of each depth that are gathered are what the laws of columns side by side speak of.
pub fn gathers_bits()
    ensures { GathersBits }
{}

/// At the greatest depth each triplet has its own bit.
pub fn gathers_itself()
    ensures { GathersItself }
{}

/// The answers of a plan's test that are put are those of the test in the rows of the records.
pub fn answers_of_records()
    ensures { AnswersOfRecords }
{}

/// The bits of a condition tell in which rows of its last leaf all its tests are true.
pub fn judged_bits()
    ensures { JudgedBits }
{}

/// Those that are gathered of them tell which rows of another leaf it keeps.
pub fn judged_rows_are_kept()
    ensures { JudgedRowsAreKept }
{}

/// All tests of a condition that is made ready are true where all of the plan's that read a leaf are.
pub fn keeping_holds()
    ensures { KeepingHolds }
{}

/// The columns that records have can be judged.
pub fn records_can_be_judged()
    ensures { RecordsCanBeJudged }
{}

/// The rows of a source whose bit is set hold the values of what the condition leaves of the records.
pub fn kept_rows_of_records()
    ensures { KeptRowsOfRecords }
{}

/// As many bits are set at depth 0 as records are left.
pub fn kept_records_are_counted()
    ensures { KeptRecordsAreCounted }
{}
