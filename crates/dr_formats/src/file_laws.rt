//! Laws of files and causes.

ghost use Rattle.dr_formats.specs.FileLaws.{CauseIsKnown, FileHasNoCause, KnownCauseHolds, OneCause};
ghost use Rattle.dr_formats.specs.LackingLaws.{AbsentIsNull, AbsentIsOutline, NothingLacking};
ghost use Rattle.dr_formats.specs.OpenSchemaLaws.{OpenPartHasOpenLeaves, OpenPartIsSchema, WrittenSchemaIsRead};
ghost use Rattle.dr_formats.specs.Opening.{LeafCauseIsExact, NoFileHasCause, NoLeafCauseIsFile, OpeningCauseHolds, RangesAreInFile};

/// The cause that the test knows of bytes holds; a cause that holds is the one that it knows, but for causes of data
/// that need records to be seen.
pub fn known_cause_holds()
    ensures holds { KnownCauseHolds }
    ensures known { CauseIsKnown }
{}

/// Bytes have at most one cause for which they are no file.
pub fn one_cause()
    ensures { OneCause }
{}

/// A file of some records has no such cause.
pub fn file_has_no_cause()
    ensures { FileHasNoCause }
{}

/// Bytes that are a file of no records have a cause.
pub fn no_file_has_cause()
    ensures { NoFileHasCause }
{}

/// The cause that the footer alone shows at opening holds.
pub fn opening_cause_holds()
    ensures { OpeningCauseHolds }
{}

/// Of one leaf alone the cause is a test of the bytes: it tells the cause that holds, and none exactly where the bytes
/// are a file of some records for this leaf.
pub fn leaf_cause_is_exact()
    ensures cause { LeafCauseIsExact }
    ensures file { NoLeafCauseIsFile }
{}

/// All ranges that a reader may look into lie in the file.
pub fn ranges_are_in_file()
    ensures { RangesAreInFile }
{}

/// The open part of a file's schema is a schema, and that of a written file is the schema of its records.
pub fn open_part_is_schema()
    ensures rules { OpenPartIsSchema }
    ensures written { WrittenSchemaIsRead }
{}

/// The leaves of the open part of a file's schema are the first open leaves of the file, and there is no open part
/// where no leaf is open.
pub fn open_part_has_open_leaves()
    ensures { OpenPartHasOpenLeaves }
{}

/// Where a file lacks none of these leaves, the leaves themselves are read, and their columns are those of their
/// chunks.
pub fn nothing_lacking()
    ensures { NothingLacking }
{}

/// The column of what is absent in a group is the outline of the column of any leaf in that group; of what is absent in
/// the records it is a NULL for each.
pub fn absent_is_outline()
    ensures group { AbsentIsOutline }
    ensures records { AbsentIsNull }
{}
