// Laws of the texts that name no leaf.

ghost use Rattle.dr_query_laws.specs.FindLaws.{FindGroupIsExact, FindNothingIsExact};

/// A text leads to a group exactly where with a dot it begins the names of a leaf, and to no field exactly where it
/// names no leaf and begins none so.
pub fn find_refusals_are_exact()
    ensures group { FindGroupIsExact }
    ensures nothing { FindNothingIsExact }
{}
