// Laws of rows.

ghost use Rattle.dr_rows.specs.RowLaws.{PlacesTell, PresentHasEnd, RowsAreCut};

/// Each row of a chain is cut along it, its end is present where an instance stands there, and of a path the places
/// alone matter.
pub fn rows_are_cut()
    ensures cut { RowsAreCut }
    ensures present { PresentHasEnd }
    ensures places { PlacesTell }
{}
