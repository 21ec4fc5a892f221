// Laws of append and cut.

ghost use Rattle.dr_moves.specs.Cutting.{AppendAndCut};
ghost use Rattle.dr_meaning.specs.Record.{Value};
ghost use Rattle.dr_partials.specs.Putting.{Put};
ghost use Rattle.std.specs.Prelude.{Option};

/// What is appended at each triplet, and cut off again at the end of each dropped branch, is what the kept moves make:
/// of values, and of puts.
pub fn append_and_cut()
    ensures values { AppendAndCut (Option Value) }
    ensures puts { AppendAndCut Put }
{}
