// Laws of rows at leaves.

ghost use Rattle.dr_moves.specs.Firing.{RowsFire};
ghost use Rattle.dr_meaning.specs.Record.{Value};
ghost use Rattle.dr_partials.specs.Putting.{Put};
ghost use Rattle.std.specs.Prelude.{Bool, Option};

/// What depends on leaves that are read together is, at the triplets of the last of them, what it is in the rows of its
/// level, in order: a condition's truth, a value, and what is put into a group.
pub fn rows_fire()
    ensures truths { RowsFire Bool }
    ensures values { RowsFire (Option Value) }
    ensures puts { RowsFire Put }
{}
