// Laws of the bounds of partials.

ghost use Rattle.dr_partials.specs.BoundLaws.{PartialOfFewIsBounded, PartialOfFewProjectionsIsBounded};

/// A bound query's partial of at most n records of the schema, with at most n triplets at each leaf that the query
/// uses, can be of n values; so it is where only the records' projections to these leaves are known.
pub fn partial_of_few_is_bounded()
    ensures records { PartialOfFewIsBounded }
    ensures projections { PartialOfFewProjectionsIsBounded }
{}
