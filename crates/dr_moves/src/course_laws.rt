// Laws of the course.

ghost use Rattle.dr_moves.specs.CourseLaws.{LedToRecords, MovesBeginWalk, MovesNest, RecordsLead, RecordsLeadThrough};

/// Over the columns of records the machine's turns give exactly the records' walk, and none stops.
pub fn records_lead()
    ensures through { RecordsLeadThrough }
    ensures front { RecordsLead }
{}

/// Columns that are taken to their ends, where all is done, are those of records whose walk was given.
pub fn led_to_records()
    ensures { LedToRecords }
{}

/// Whatever the columns, the moves nest, and are a front of the walk of some records.
pub fn moves_nest()
    ensures nests { MovesNest }
    ensures begins { MovesBeginWalk }
{}
