// Laws of the faults of table files.

ghost use Rattle.dr_format_laws.specs.TableFaultLaws.{OneTableFault, TableFaultIsTold, TableOrFault};

/// A fault of a table text is told exactly where the text has it: the lines before are as they should be, and the
/// fault's line isn't.
pub fn table_fault_is_told()
    ensures { TableFaultIsTold }
{}

/// A text has at most one fault; it spells a table within the limits, or has a fault, and never both.
pub fn one_table_fault()
    ensures single { OneTableFault }
    ensures either { TableOrFault }
{}
