// Laws of the chains of repeated fields on paths.

ghost use Rattle.dr_query_laws.specs.ChainLaws.{DeepestIsLongest};

/// Of leaves whose paths are related the level with the most repeated fields is the longest.
pub fn deepest_chain_is_longest()
    ensures { DeepestIsLongest }
{}
