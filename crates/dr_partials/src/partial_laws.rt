// Laws of partials.

ghost use Rattle.dr_partials.specs.PartialLaws.{BoundIsMergeable, BoundLeavesAreEnough, FinishedPartialIsMeaning, PartialOfProjection, RecordsHavePartials, EmptyStandsForNone, MergedStands, MergeIsAssociative};
ghost use Rattle.dr_partials.specs.PartialBounds.{GatheredCanBeOf, BoundsAddUp};
ghost use Rattle.dr_partials.specs.Putting.{PutsAreMerged, PutsCommute};
ghost use Rattle.dr_partials.specs.PartialLaws.{OneGroupWithoutKeys, CountIsNumber, MergeIsCommutative, EmptyMergesToSame, EmptyIsPartial, MergedIsPartial};

/// The partial of records, finished, is what the query means on them.
pub fn finished_partial_is_meaning()
    ensures { FinishedPartialIsMeaning }
{}

/// Of projections to leaves that are enough for it a query has the partial of the records.
pub fn projection_keeps_partial()
    ensures { PartialOfProjection }
{}

/// The partial of records of a schema is a partial of the query, where that is bound.
pub fn records_have_partials()
    ensures { RecordsHavePartials }
{}

/// A partial that stands for records, merged with one that stands for others, stands for both, one behind another. The
/// empty partial stands for none.
pub fn merged_partials_stand()
    ensures merged { MergedStands }
    ensures empty { EmptyStandsForNone }
{}

/// Partials of one query are merged in any grouping, groups also in any order; the empty one adds nothing, and what is
/// merged is a partial of the query.
pub fn partials_of_one_query_merge()
    ensures associative { MergeIsAssociative }
    ensures commutative { MergeIsCommutative }
    ensures neutral { EmptyMergesToSame }
    ensures empty { EmptyIsPartial }
    ensures merged { MergedIsPartial }
{}

/// The partials of each query that is bound can be merged, and the leaves that it uses are enough for it.
pub fn bound_queries_are_mergeable()
    ensures mergeable { BoundIsMergeable }
    ensures leaves { BoundLeavesAreEnough }
{}

/// Without GROUP BY there is exactly one group, and what a COUNT has gathered is a whole number: 0 of nothing, and
/// never NULL.
pub fn count_is_never_null()
    ensures group { OneGroupWithoutKeys }
    ensures number { CountIsNumber }
{}

/// What is gathered of n values can be of n; what is merged of a partial of m values and one of n can be of m + n.
pub fn bounds_add_up()
    ensures gathered { GatheredCanBeOf }
    ensures merged { BoundsAddUp }
{}

/// What is put of records into groups, value by value, is what is merged with the partial of the records; puts commute.
pub fn puts_are_merged()
    ensures merged { PutsAreMerged }
    ensures commute { PutsCommute }
{}
