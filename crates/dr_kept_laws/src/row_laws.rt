//! Laws of the rows of what a condition keeps, and of what fires over moves. Each function has an empty body, and its
//! contract is a law.

ghost use Rattle.dr_kept_laws.specs.GroupFlowLaws.{AllFiredTogether, FiredOfAll, FiredOfKept, FiredTogether};
ghost use Rattle.dr_kept_laws.specs.ObjectsOfKeptLaws.{ObjectOfKept};
ghost use Rattle.dr_kept_laws.specs.LaterLeaf.{LaterReadsBoth};
ghost use Rattle.dr_kept_laws.specs.RowsOfKeptLaws.{EndInKept, ExpressionsAreOfChains, KeptOfRows, PresentInKept, RowsOfKept, TrueRowsAreKept};
ghost use Rattle.dr_meaning.specs.Record.{Value};
ghost use Rattle.dr_partials.specs.Putting.{Put};
ghost use Rattle.std.specs.Prelude.{List, Option};

/// What is kept of a record has the record's kept rows, with the same values.
pub fn rows_of_kept()
    ensures { RowsOfKept }
{}

/// What is there in the rows of what is kept is there in the record's kept rows.
pub fn present_in_kept()
    ensures { PresentInKept }
{}

/// Whether the end of the rows' own path is there is the same in what is kept.
pub fn end_in_kept()
    ensures { EndInKept }
{}

/// Along the condition's own chain the true rows are kept.
pub fn true_rows_are_kept()
    ensures { TrueRowsAreKept }
{}

/// What is kept of the kept rows is the rows of what is kept.
pub fn kept_of_rows()
    ensures { KeptOfRows }
{}

/// An expression depends on the leaves of its paths alone.
pub fn expressions_are_of_chains()
    ensures { ExpressionsAreOfChains }
{}

/// The object of what is kept of a record is told by the record.
pub fn object_of_kept()
    ensures { ObjectOfKept }
{}

/// What fires at a leaf's triplets over moves that a condition cuts is what the rows of what is kept have, as values of
/// leaves.
pub fn fired_of_kept()
    ensures values { FiredOfKept (List (Option Value)) }
    ensures puts { FiredOfKept Put }
{}

/// Without a condition it is what all rows have.
pub fn fired_of_all()
    ensures values { FiredOfAll (List (Option Value)) }
    ensures puts { FiredOfAll Put }
{}

/// Several readings make together what each means in the rows of what is kept.
pub fn fired_together()
    ensures values { FiredTogether (List (Option Value)) }
    ensures puts { FiredTogether Put }
{}

/// Without a condition they make what each means in all rows.
pub fn all_fired_together()
    ensures values { AllFiredTogether (List (Option Value)) }
    ensures puts { AllFiredTogether Put }
{}

/// Leaves of one chain are read together with the last of them in reading order.
pub fn later_reads_both()
    ensures { LaterReadsBoth }
{}
