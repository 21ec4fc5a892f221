// Laws of the leaves of queries.

ghost use Rattle.dr_paths.specs.LeavesLaws.{QueryLeavesComeOnce};

/// A leaf of a schema that a query uses is among the leaves of the query once, and any other leaf isn't.
pub fn query_leaves_come_once()
    ensures { QueryLeavesComeOnce }
{}
