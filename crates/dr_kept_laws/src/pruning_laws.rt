//! Laws of what is told of branches. Each function has an empty body, and its contract is a law.

ghost use Rattle.dr_kept_laws.specs.ChainNumbers.{NumbersNameChain};
ghost use Rattle.dr_kept_laws.specs.Constant.{ConstantIsKept};
ghost use Rattle.dr_meaning.specs.Record.{Value};
ghost use Rattle.dr_partials.specs.Putting.{Put};
ghost use Rattle.dr_kept_laws.specs.FlaggedFlow.{FlowIsKept};
ghost use Rattle.dr_kept_laws.specs.Frames.{FramesMakeFlow};
ghost use Rattle.std.specs.Prelude.{Option};
ghost use Rattle.dr_kept_laws.specs.Counting.{NumbersTell};
ghost use Rattle.dr_kept_laws.specs.OpenNumbers.{OpenOnChain};
ghost use Rattle.dr_kept_laws.specs.Parts.{AnswersAreTests, PartsTell};
ghost use Rattle.dr_kept_laws.specs.TellingLaws.{DecidedStays, LeavingsAreKept, ToldIsKept};
ghost use Rattle.dr_kept_laws.specs.TogetherLaws.{LevelOfLast, ReadTogether};
ghost use Rattle.dr_kept_laws.specs.Tours.{OneTour};

/// Moves have at most one tour.
pub fn one_tour()
    ensures { OneTour }
{}

/// The numbers on a leaf's path name the repeated fields of its chain.
pub fn numbers_name_chain()
    ensures { NumbersNameChain }
{}

/// The branches that are left with no true row are those that the query drops.
pub fn leavings_are_kept()
    ensures { LeavingsAreKept }
{}

/// What is told at each Leave is what the query keeps.
pub fn told_is_kept()
    ensures { ToldIsKept }
{}

/// What is told of a branch, if it is decided, is what is told at its Leave.
pub fn decided_stays()
    ensures { DecidedStays }
{}

/// The pruner's numbers tell what is told.
pub fn numbers_tell_told()
    ensures { NumbersTell }
{}

/// Where a leaf is read the open fields are the first of its chain.
pub fn open_on_chain()
    ensures { OpenOnChain }
{}

/// Answers of parts, each tested at its own last leaf, are the tests where all is read.
pub fn answers_are_tests()
    ensures { AnswersAreTests }
{}

/// A pruner that keeps the answers of the parts tells what is told.
pub fn parts_tell_told()
    ensures { PartsTell }
{}

/// What is told by a condition without leaves is what the query keeps.
pub fn constant_is_kept()
    ensures { ConstantIsKept }
{}

/// Leaves in reading order whose chains begin with one another are read together.
pub fn read_together()
    ensures { ReadTogether }
{}

/// The longest level of such leaves is that of the last of them.
pub fn level_of_last()
    ensures { LevelOfLast }
{}

/// What is made with what is told is what the kept moves make: of values, and of puts.
pub fn frames_make_flow()
    ensures values { FramesMakeFlow (Option Value) }
    ensures puts { FramesMakeFlow Put }
{}

/// What the kept moves make depends on the condition by the branches that the query drops alone: of values, and of
/// puts.
pub fn flow_is_kept()
    ensures values { FlowIsKept (Option Value) }
    ensures puts { FlowIsKept Put }
{}
