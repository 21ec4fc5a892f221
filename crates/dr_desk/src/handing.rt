// What a take hands out.
ghost use Rattle.std.specs.Prelude.{◌≡◌, true, None, IfSome, IfNone};
ghost use Rattle.dr_dispatch.specs.History.{has_give, is_history};
ghost use Rattle.dr_dispatch.specs.Choice.{choice, after_give};
ghost use Rattle.dr_dispatch.specs.Draws.{next_hand};

use dr_board::{Board, Hand, Naming, Piece};

// Hands out the tablet that was drawn; where that was handed out before, or none was drawn, the choice.
pub(crate) fn hand_out<P: Piece + Drop, N: Naming<P>>(
    board: &mut Board<P, N>,
    drawn: Option<u32>,
) -> Option<Hand>
    ensures hand { result ≡ next_hand N.job board.old.history drawn }
    ensures history { board.new.history ≡ after_give board.old.history (next_hand N.job board.old.history drawn) }
    ensures pieces { board.new.pieces ≡ board.old.pieces }
    ensures recorded { is_history N.job board.new.history ≡ true }
    ensures given { IfSome result (λ h. has_give board.new.history h ≡ true) }
    ensures none { IfNone result (choice N.job board.old.history ≡ None) }
{
    let Some(tablet) = drawn else {
        return board.take();
    };
    let Some(hand) = board.fresh(tablet) else {
        return board.take();
    };
    Some(hand)
}
