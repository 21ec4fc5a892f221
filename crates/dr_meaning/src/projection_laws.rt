// Laws of projections to leaves.

ghost use Rattle.dr_meaning.specs.ProjectionLaws.{PresentInProjection, RowsOfProjection, ValuesOfProjection};

/// Along the paths that lead on to its leaves, a projection has the rows, the values and the presence of the record.
pub fn projection_keeps_rows()
    ensures rows { RowsOfProjection }
    ensures values { ValuesOfProjection }
    ensures present { PresentInProjection }
{}
