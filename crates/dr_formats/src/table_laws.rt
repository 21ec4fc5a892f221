//! Laws of table files.

ghost use Rattle.dr_formats.specs.TableLaws.{TableReadsBack, TableTextsAreAcceptedExactly};

/// The text of a table within the limits is read as that table, where it isn't too long.
pub fn table_text_reads_back()
    ensures { TableReadsBack }
{}

/// Exactly the texts are accepted as a table that are UTF-8 and not too long and spell, line by line, a table within
/// the limits and an accepted schema.
pub fn table_texts_are_accepted_exactly()
    ensures { TableTextsAreAcceptedExactly }
{}
