// Laws of rows of columns side by side.

ghost use Rattle.dr_rows_beside.specs.Rows.{RowsRunAlong};
ghost use Rattle.dr_rows_beside.specs.RecordRows.{RowsOfRecords};
ghost use Rattle.dr_rows_beside.specs.Sources.{SourcesAreBeside};
ghost use Rattle.dr_rows_beside.specs.ExprRows.{ValuesOfRecords};

/// In the rows of a leaf's triplets its own slot has its values, and the slots of the leaves beside it what lies along.
pub fn rows_run_along()
    ensures { RowsRunAlong }
{}

/// The columns of records can be read beside one another, and give the values of the rows of a leaf's chain.
pub fn rows_of_records()
    ensures { RowsOfRecords }
{}

/// The leaves of one chain that are read for its last one can be read beside it.
pub fn sources_are_beside()
    ensures { SourcesAreBeside }
{}

/// The values of a plan's expression in the rows of a source are those in the rows of the records.
pub fn values_of_records()
    ensures { ValuesOfRecords }
{}
