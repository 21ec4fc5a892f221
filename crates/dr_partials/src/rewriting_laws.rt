// Laws of rewriting.

ghost use Rattle.dr_partials.specs.RewritingLaws.{LeafHasPartials, LeafHasSamePartials, LeafUsesSameLeaves, LeafCoveredAlike, RootMeansQuery};

/// The leaf query has the partials of the query, and uses the same leaves; the same are enough for it.
pub fn leaf_query_has_partials()
    ensures records { LeafHasPartials }
    ensures partials { LeafHasSamePartials }
    ensures leaves { LeafUsesSameLeaves }
    ensures enough { LeafCoveredAlike }
{}

/// Whatever the tree, the root query over the inner queries over the leaf query gives what the query means on the
/// records of all tablets.
pub fn root_query_means_query()
    ensures { RootMeansQuery }
{}
