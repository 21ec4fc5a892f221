//! Laws of the objects of a record query along a walk. Each function has an empty body, and its contract is a law.

ghost use Rattle.dr_meaning.specs.Record.{Value};
ghost use Rattle.dr_made_laws.specs.LevelNumbers.{LevelsAreNumbered};
ghost use Rattle.dr_made_laws.specs.ObjectFlowLaws.{AllMovesMakeLines, AllMovesMakeObjects, FlowMakesObjects, FramesMakeLines, FramesMakeObjects};
ghost use Rattle.dr_made_laws.specs.ObjectFlowLaws.{NoObjectsMakePartial, ObjectsMakePartial, PartsMakeObject, WholeFlowMakesObjects};
ghost use Rattle.dr_made_laws.specs.LastRead.{MeantAtLast};
ghost use Rattle.std.specs.Prelude.{Option};

/// Levels have the numbers by which moves name the repeated fields.
pub fn levels_are_numbered()
    ensures { LevelsAreNumbered }
{}

/// What an expression is by related leaves is known at the last of them, once for each row of their longest chain.
pub fn expression_at_last()
    ensures { MeantAtLast (Option Value) }
{}

/// An object is made of the values for each item and the objects of each level.
pub fn parts_make_object()
    ensures { PartsMakeObject }
{}

/// What is made over the moves of records, as far as the condition keeps them, is the objects of what it keeps.
pub fn flow_makes_objects()
    ensures cut { FlowMakesObjects }
    ensures whole { WholeFlowMakesObjects }
{}

/// So it is move by move, cut where a branch is told dropped.
pub fn frames_make_objects()
    ensures cut { FramesMakeObjects }
    ensures whole { AllMovesMakeObjects }
{}

/// The objects of what a condition keeps of records are the lines of the query's partial of them.
pub fn objects_make_partial()
    ensures objects { ObjectsMakePartial }
    ensures nothing { NoObjectsMakePartial }
    ensures cut { FramesMakeLines }
    ensures whole { AllMovesMakeLines }
{}
