//! Laws of what is written.

ghost use Rattle.dr_formats.specs.WritingLaws.{LimitedRecordsFit, PagesKeepTriplets, WrittenFileIsFile, WrittenHeaderIsViewed, WrittenMetadataIsViewed, WrittenPagesAreRead};

/// The struct that is written for metadata, of a file or of a page, is viewed as that metadata.
pub fn written_metadata_is_viewed()
    ensures file { WrittenMetadataIsViewed }
    ensures page { WrittenHeaderIsViewed }
{}

/// Cutting columns into pages keeps their triplets, and the pages that are written are read as these.
pub fn written_pages_are_read()
    ensures kept { PagesKeepTriplets }
    ensures read { WrittenPagesAreRead }
{}

/// The file that is written for records is a file of these records, for any of the schema's leaves.
pub fn written_file_is_file()
    ensures { WrittenFileIsFile }
{}

/// Records within the limits of an input line, and not more than a tablet may have, fit one file.
pub fn limited_records_fit()
    ensures { LimitedRecordsFit }
{}
