// Laws of the values in slots.

ghost use Rattle.dr_scalar.specs.LeafLaws.{LeavesArePaths, LeavesTell, SameLeavesTell, SameTestLeavesTell, TestLeavesArePaths, TestLeavesTell};
ghost use Rattle.dr_scalar.specs.SlotLaws.{RowsGiveValues};

/// Slots with the values of a query's leaves in a row of a record have them in the leaves' types.
pub fn rows_give_values()
    ensures { RowsGiveValues }
{}

/// What was read of the leaves in an expression, and in tests, tells their value in a row.
pub fn leaves_tell()
    ensures expression { LeavesTell }
    ensures tests { TestLeavesTell }
{}

/// What was read of the leaves in an expression, and in tests, alone decides their value.
pub fn same_leaves_tell()
    ensures expression { SameLeavesTell }
    ensures tests { SameTestLeavesTell }
{}

/// The leaves in an expression, and in tests, are their paths.
pub fn leaves_are_paths()
    ensures expression { LeavesArePaths }
    ensures tests { TestLeavesArePaths }
{}
