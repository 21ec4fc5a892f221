// Laws of serving trees.

ghost use Rattle.dr_partials.specs.TreeLaws.{GatheredStands, GatheredMeansQuery, GatheredIsPartial, GatheredIsBounded, TreesGatherAlike, FanHasAllTablets, FanIsKept};

/// Whatever the tree, what it gathers of pieces that stand for their tablets' records stands for the records of all its
/// tablets, in order: finished, it is what the query means on them.
pub fn tree_gathers_all_records()
    ensures stands { GatheredStands }
    ensures means { GatheredMeansQuery }
{}

/// A tree gathers a partial of the query, of as many values as its pieces together, and trees with the same tablets
/// gather the same.
pub fn trees_gather_alike()
    ensures partial { GatheredIsPartial }
    ensures bounded { GatheredIsBounded }
    ensures alike { TreesGatherAlike }
{}

/// The tree of a fan has each tablet once, in order, and no server with more children than the fan.
pub fn fan_has_all_tablets()
    ensures tablets { FanHasAllTablets }
    ensures fan { FanIsKept }
{}
