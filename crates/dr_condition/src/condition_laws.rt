//! Laws of a plan's condition. Each function has an empty body, and its contract is a law.

ghost use Rattle.dr_condition.specs.ConditionLaws.{
  FewAreWatched,
  PartsTellWatch,
  NeverTrueKeepsNothing,
  WatchedKeepsQuery,
};

/// What is watched of a plan of a query keeps of records what the query's condition keeps; where nothing is watched,
/// each record whole.
pub fn watched_keeps_query()
    ensures { WatchedKeepsQuery }
{}

/// Where a test that reads no leaf isn't true, the query's condition keeps nothing of any record.
pub fn never_true_keeps_nothing()
    ensures { NeverTrueKeepsNothing }
{}

/// Along the walk of records the parts of a plan's condition tell what it tells as one.
pub fn parts_tell_watch()
    ensures { PartsTellWatch }
{}

/// Behind moves that nest a condition may step.
pub fn few_are_watched()
    ensures { FewAreWatched }
{}
