// Laws of input lines.

ghost use Rattle.dr_meaning.specs.Lines.{TakenAreRecords};

/// The records taken before the first refused line, and that refusal, are what the lines give.
pub fn taken_are_records()
    ensures { TakenAreRecords }
{}
