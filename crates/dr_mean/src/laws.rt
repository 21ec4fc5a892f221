// Laws of records that are put into groups.

ghost use Rattle.dr_mean.specs.GroupLaws.{LinesAreResult, OneRecordMore, PlanAggregates, PutInParts, PutsOfOne, PutsOfProjection};

/// Groups may take the records one after another, and their projections in their place.
pub fn groups_take_records()
    ensures projections { PutsOfProjection }
    ensures more { OneRecordMore }
{}

/// What is put of one record is that of the rows of its key tuples and of each aggregate's rows, one after another; the
/// aggregates are the plan's, in order.
pub fn record_is_put_row_by_row()
    ensures one { PutsOfOne }
    ensures parts { PutInParts }
    ensures aggregates { PlanAggregates }
{}

/// The partial of a record query is the lines of its result.
pub fn lines_are_result()
    ensures { LinesAreResult }
{}
