// Laws of reading a table.

ghost use Rattle.dr_reading.specs.ReadingLaws.{GivenAreProjected, ReadTextIsMeant, OtherCausesHoldNoFile, LeftHoldsNoFile, LeftFailedToRead, SteadyLeavesNone, ReadInTurnIsGiven, ReadInTurnLeavesJust, LeftRiseApart};

/// Whatever copy of each tablet gave its records: where each copy holds a file of the tablet's records, or none of any,
/// what is printed of the records that were given is what is to be printed of the tablets' records.
pub fn read_text_is_meant()
    ensures given { GivenAreProjected }
    ensures text { ReadTextIsMeant }
{}

/// Bytes whose cause isn't a failed read are no file of any records.
pub fn other_causes_hold_no_file()
    ensures { OtherCausesHoldNoFile }
{}

/// A copy whose cause isn't a failed read holds no file of any records.
pub fn left_holds_no_file()
    ensures { LeftHoldsNoFile }
{}

/// Where each tablet has a copy that is a file, a tablet is left only where the read of such a copy failed, and none
/// where the link is steady, whatever answers the others have, by this link or by another.
pub fn held_files_are_read()
    ensures failed { LeftFailedToRead }
    ensures steady { SteadyLeavesNone }
{}

/// What one link reads of a table in turn: the records that are given where no tablet is left, and otherwise just the
/// tablets that are left, among whose causes each failed read has a rise of the link's count of its own.
pub fn read_in_turn_is_given_or_left()
    ensures given { ReadInTurnIsGiven }
    ensures left { ReadInTurnLeavesJust }
    ensures apart { LeftRiseApart }
{}
