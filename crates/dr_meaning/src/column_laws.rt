// Laws of columns.

ghost use Rattle.dr_meaning.specs.ColumnLaws.{ColumnIsShort, ColumnsDetermineProjection};
ghost use Rattle.dr_meaning.specs.OneColumn.{ColumnsAreRecognized};

/// Two lists of as many records whose columns are equal at some leaves have equal projections to these leaves.
pub fn columns_determine_projection()
    ensures { ColumnsDetermineProjection }
{}

/// Triplets are the column of a leaf of some records of a schema exactly if they pass a test on each triplet and the
/// one before it.
pub fn columns_are_recognized()
    ensures { ColumnsAreRecognized }
{}

/// The column of a record has at most as many triplets as the record has instances, or one.
pub fn column_is_short()
    ensures { ColumnIsShort }
{}
