// Laws of queries and columns on projections.

ghost use Rattle.dr_meaning.specs.MeaningLaws.{ColumnsOfProjection, MeaningOfProjection};

/// A query means on the projections of records what it means on the records, where each of its paths leads on to a leaf
/// of the projection.
pub fn projection_keeps_meaning()
    ensures { MeaningOfProjection }
{}

/// The projection of a record has the record's columns at its leaves.
pub fn projection_keeps_columns()
    ensures { ColumnsOfProjection }
{}
