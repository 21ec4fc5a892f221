// Laws of what is kept.

ghost use Rattle.dr_moves.specs.KeptLaws.{KeptWhereAnyRow, TrueRowKeeps, TrueRowKeepsInstance};
ghost use Rattle.dr_moves.specs.Tour.{WalkIsTour};

/// The moves of records nest.
pub fn walk_is_tour()
    ensures { WalkIsTour }
{}

/// A record, or an instance on the condition's chain, is kept exactly where one of its rows is true, and exactly where
/// its moves have a true row.
pub fn true_row_keeps()
    ensures rows { KeptWhereAnyRow }
    ensures records { TrueRowKeeps }
    ensures instances { TrueRowKeepsInstance }
{}
