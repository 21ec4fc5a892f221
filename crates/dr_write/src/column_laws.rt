//! Laws of the columns that can be written.

ghost use Rattle.dr_write.specs.Files.{RecordColumnsFit};

/// The columns of records of a schema can be written, if the texts of each record have fewer than 2^32 bytes together
/// and each column is made for its leaf.
pub fn record_columns_fit()
    ensures { RecordColumnsFit }
{}
