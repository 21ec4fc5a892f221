//! Laws of what is printed of a table.

ghost use Rattle.dr_commands.specs.ScanLaws.{DumpSeesLeavesAlone, QueryPrintsMeaning, QuerySeesLeavesAlone};

/// What is printed of a table depends on the projections of its records to the leaves that are read; so a query prints
/// what it means on the records, whichever copies of the tablets gave them.
pub fn scans_print_records()
    ensures dump { DumpSeesLeavesAlone }
    ensures query { QuerySeesLeavesAlone }
    ensures meaning { QueryPrintsMeaning }
{}
