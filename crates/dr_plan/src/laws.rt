// Laws of conditions and of plans.

ghost use Rattle.dr_plan.specs.Conjuncts.{ConjunctsHavePaths, RejoinedIsSame, RejoinedMeansSame, TrueWhereEachIs};
ghost use Rattle.dr_plan.specs.Objects.{TreeMakesObject};
ghost use Rattle.dr_plan.specs.Planned.{PlanKeepsQuery, PlanMeansQuery};

/// A condition is true exactly if each of its conjuncts is; they have its paths; joined again from the left they mean
/// the same, and joined as the condition joins them they are the condition itself.
pub fn conjuncts_are_condition()
    ensures each { TrueWhereEachIs }
    ensures paths { ConjunctsHavePaths }
    ensures joined { RejoinedMeansSame }
    ensures written { RejoinedIsSame }
{}

/// The plan of a bound query means what the query means, on records and on their projections to its leaves.
pub fn plan_means_query()
    ensures { PlanMeansQuery }
{}

/// The plan of a query keeps how the query was written.
pub fn plan_keeps_query()
    ensures { PlanKeepsQuery }
{}

/// The tree of a record query's objects, made once, makes the object of each record.
pub fn tree_makes_object()
    ensures { TreeMakesObject }
{}
