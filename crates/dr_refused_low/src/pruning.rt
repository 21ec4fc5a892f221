//! What a condition keeps.

ghost use Rattle.std.specs.Prelude.{◌≡◌, ◌<◌, ◌-◌, ◌^◌, ◌++◌, ◌∷◌, [], Bool};
ghost use Rattle.dr_levels.specs.Views.{move_view};
ghost use Rattle.dr_moves.specs.Context.{Context};
ghost use Rattle.dr_kept_laws.specs.Telling.{told};
ghost use Rattle.dr_kept_laws.specs.Counting.{count_move};
ghost use Rattle.dr_prune.specs.Pruning.{numbers_of, watch_of, open_in, HasSeen, IsAnswer, verdicts_at, numbers_told, OverSeen};

use dr_levels::{Kept, Move};
use dr_prune::Pruner;

/// As `Pruner::step`.
pub fn step_of_pruner(pruner: &mut Pruner, m: &Move<'_>, is_true: bool) -> Kept
    requires { open_in pruner.old < 2 ^ 32 - 1 }
    // The numbers count the move, by each test whose answer this is.
    ensures counts { (t : Context → Bool) (c : Context) → IsAnswer (watch_of t pruner.old) c (move_view m.now) is_true
        → numbers_of pruner.new ≡ count_move (watch_of t pruner.old) c (move_view m.now) (numbers_of pruner.old) }
    // What it tells is what the numbers tell.
    ensures tells { (t : Context → Bool) (c : Context) → IsAnswer (watch_of t pruner.old) c (move_view m.now) is_true
        → verdicts_at pruner.old (move_view m.now) result ≡ numbers_told t c pruner.old (move_view m.now) }
    // Behind the moves that it has seen it is what is told of their branches.
    ensures told { OverSeen pruner.old (move_view m.now) is_true (λ t ms.
        verdicts_at pruner.old (move_view m.now) result ≡ told (watch_of t pruner.old) ms (move_view m.now)) }
    ensures seen { OverSeen pruner.old (move_view m.now) is_true (λ t ms.
        HasSeen t (ms ++ move_view m.now ∷ []) pruner.new) }
    // It goes on to watch the same condition.
    ensures watches { (t : Context → Bool) → watch_of t pruner.new ≡ watch_of t pruner.old }
{
    pruner.step(m, is_true)
}
