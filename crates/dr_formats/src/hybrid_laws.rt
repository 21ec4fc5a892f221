//! Laws of hybrid data.

ghost use Rattle.dr_formats.specs.HybridLaws.{OneListOfValues, RunsAreReadExactly, WrittenRunsAreRead, WrittenRunsAreSpelled};

/// Values are read exactly where runs spell them.
pub fn runs_are_read_exactly()
    ensures { RunsAreReadExactly }
{}

/// Hybrid data of a width and a number of values has at most one list of values.
pub fn one_list_of_values()
    ensures { OneListOfValues }
{}

/// What is written for values spells them, and is read as these values, whatever follows it.
pub fn written_runs_are_read()
    ensures spelled { WrittenRunsAreSpelled }
    ensures read { WrittenRunsAreRead }
{}
