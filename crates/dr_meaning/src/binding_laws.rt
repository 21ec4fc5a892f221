// Laws of binding.

ghost use Rattle.dr_meaning.specs.BindingLaws.{BoundWithoutFault, ConditionIsKept, FirstFaultIsTold, ItemsAreKept, KeptHaveShapes, LeavesAreEnough};
ghost use Rattle.dr_meaning.specs.BindingLaws.{QueryLeavesAreLeaves, RecordsHaveShapes, RowsHaveShapes, UsedPathsAreLeaves, ValuesHaveTypes};

/// A query is bound exactly if no rule has a fault; else the fault told is one of theirs, and none comes before it.
pub fn first_fault_is_told()
    ensures told { FirstFaultIsTold }
    ensures bound { BoundWithoutFault }
{}

/// A bound query has each item of its syntax tree, in order, under its name, and a condition exactly if the tree has
/// one.
pub fn bound_query_keeps_syntax()
    ensures items { ItemsAreKept }
    ensures condition { ConditionIsKept }
{}

/// A bound expression's value is of its type, or NULL, in records, in what is kept of them, and in their rows.
pub fn values_have_types()
    ensures values { ValuesHaveTypes }
    ensures records { RecordsHaveShapes }
    ensures rows { RowsHaveShapes }
    ensures kept { KeptHaveShapes }
{}

/// A bound query uses only leaves of the schema.
pub fn used_paths_are_leaves()
    ensures used { UsedPathsAreLeaves }
    ensures leaves { QueryLeavesAreLeaves }
{}

/// A bound query means on the projections of records to its leaves what it means on the records.
pub fn leaves_are_enough()
    ensures { LeavesAreEnough }
{}
