// Laws of the rules by which queries are bound.

ghost use Rattle.dr_query_laws.specs.QueryRules.{BoundIsUnbroken, ToldIsFirst};

/// A fault is told of a query exactly where its rule is broken there and no rule is broken at a lower place, nor at the
/// same place by a problem that is told earlier; a query is bound exactly where no rule is broken.
pub fn broken_rules_are_told()
    ensures first { ToldIsFirst }
    ensures bound { BoundIsUnbroken }
{}
