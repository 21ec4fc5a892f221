// Laws of records under a wider schema.

ghost use Rattle.dr_format_laws.specs.WideningLaws.{FileIsOfWidened, WidenedAreRecords};
ghost use Rattle.dr_format_laws.specs.WideningLaws.{WideningKeepsColumns, WrittenFileIsOfWidened};

/// Widened records are records of the wider schema, and keep the columns of the leaves that both schemas have.
pub fn widened_records_keep_columns()
    ensures records { WidenedAreRecords }
    ensures columns { WideningKeepsColumns }
{}

/// A file of records is a file of the same records under a wider schema, for any of its leaves: each is there, or has a
/// source in the file that tells where it is absent.
pub fn file_is_of_widened()
    ensures any { FileIsOfWidened }
    ensures written { WrittenFileIsOfWidened }
{}
