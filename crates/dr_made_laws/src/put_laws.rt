//! Laws of what is put into groups. Each function has an empty body, and its contract is a law.

ghost use Rattle.dr_meaning.specs.Record.{Value};
ghost use Rattle.dr_partials.specs.Putting.{Put};
ghost use Rattle.dr_made_laws.specs.Alike.{AlikeConditions, AlikeReadings, ConstantConditions};
ghost use Rattle.dr_made_laws.specs.ConditionPaths.{ConditionIsRelated};
ghost use Rattle.dr_made_laws.specs.FlowPartial.{FlowIsPartial, GroupReadingsRead, NothingIsPartial, PutsMakePartial, WholeFlowIsPartial};
ghost use Rattle.dr_made_laws.specs.FramesPartial.{AllMovesPutPartial, FramesPutPartial};
ghost use Rattle.dr_made_laws.specs.LastRead.{LastReadsAll, LastStands, LongestOfBoth, MeantAtLast};
ghost use Rattle.dr_made_laws.specs.LeavesInOrder.{QueryLeavesInOrder};
ghost use Rattle.dr_made_laws.specs.Readings.{ReadingsMeanPuts};
ghost use Rattle.std.specs.Prelude.{List, Option};

/// The leaves that a query uses are leaves of the schema, in reading order, each once.
pub fn query_leaves_in_order()
    ensures { QueryLeavesInOrder }
{}

/// The last of some related leaves is read together with each of them, and has their longest chain.
pub fn last_reads_all()
    ensures { LastReadsAll }
{}

/// What depends on such leaves alone is at the last of them what it is in the rows of their longest chain, and a
/// condition on them is watched there.
pub fn meant_at_last()
    ensures values { MeantAtLast (List (Option Value)) }
    ensures puts { MeantAtLast Put }
    ensures watched { LastStands }
    ensures longest { LongestOfBoth }
{}

/// What is the same in all rows with values of the leaves' types makes the same of records.
pub fn same_in_typed_rows()
    ensures values { AlikeReadings (List (Option Value)) }
    ensures puts { AlikeReadings Put }
    ensures condition { AlikeConditions }
    ensures constant { ConstantConditions }
{}

/// The paths of a bound query's condition are related.
pub fn condition_is_related()
    ensures { ConditionIsRelated }
{}

/// The readings of the keys and of each aggregate mean together what is put of records; so they are those of the query.
pub fn readings_mean_puts()
    ensures puts { ReadingsMeanPuts }
    ensures read { GroupReadingsRead }
{}

/// What is put of records, in any order, makes of the empty partial that of the records.
pub fn puts_make_partial()
    ensures { PutsMakePartial }
{}

/// What readings make over the moves of records, as far as the condition keeps them, makes the partial of the records.
pub fn flow_is_partial()
    ensures cut { FlowIsPartial }
    ensures whole { WholeFlowIsPartial }
    ensures nothing { NothingIsPartial }
{}

/// So it does move by move, cut where a branch is told dropped.
pub fn frames_put_partial()
    ensures cut { FramesPutPartial }
    ensures whole { AllMovesPutPartial }
{}
