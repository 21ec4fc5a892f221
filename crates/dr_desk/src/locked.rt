// What lies under the lock: the board, and the seat that keeps its history.
ghost use Rattle.std.specs.Prelude.{◌≡◌, ◌<◌, true, false, None, IfSome, IfNone, if◌then◌else◌};
ghost use mathlib.Core.List.{IsPrefix};
ghost use Rattle.dr_dispatch.specs.History.{has_give, has_answer, is_recorded, after_event, is_history};
ghost use Rattle.dr_dispatch.specs.Choice.{choice, after_give};
ghost use Rattle.dr_dispatch.specs.Draws.{next_hand};
ghost use Rattle.dr_dispatch.specs.Seen.{adds, looks};
ghost use Rattle.dr_board.specs.Shown.{pieces_after};

use crate::handing::hand_out;
use crate::pass::Pass;
use crate::room::Room;
use crate::rule::{Place, Seats};
use crate::steps::{enter, leave, raise};
use dr_board::{Board, Event, Hand, Naming, Piece, Told};
use dr_outside::Cause;
use std::marker::{Model, PhantomData};

// The keeper's seat is away only within a call.
#[derive(Drop)]
pub(crate) struct Locked<P: Piece + Drop, N: Naming<P>, B: Room> {
    pub(crate) board: Board<P, N>,
    pub(crate) keeper: Option<Place>,
    pub(crate) of: PhantomData<B>,
}

impl<P: Piece + Drop, N: Naming<P>, B: Room> Model for Locked<P, N, B> {
    ghost use Rattle.dr_board.specs.Shown.{BoardShown};
    ghost use Rattle.dr_desk.specs.Locked.{HasKeeper};

    ghost Value = { BoardShown P };

    ghost view = { λ d. d.board };

    ghost invariant = { λ d. HasKeeper B.table d.keeper d.board.history };
}

impl<P: Piece + Drop, N: Naming<P>, B: Room> Locked<P, N, B> {
    // For a pass that drew this tablet, or none.
    pub(crate) fn take(
        &mut self,
        seats: &Seats,
        pass: &mut Pass<B>,
        drawn: Option<u32>,
    ) -> Option<Hand>
        requires { (seats.now.table_id ≡ B.table) × (0 < seats.now.table_id.words) }
        ensures hand { result ≡ next_hand N.job self.old.history drawn }
        ensures history { self.new.history ≡ after_give self.old.history (next_hand N.job self.old.history drawn) }
        ensures pieces { self.new.pieces ≡ self.old.pieces }
        ensures recorded { is_history N.job self.new.history ≡ true }
        ensures earlier { IsPrefix pass.old.seen self.old.history }
        ensures given { IfSome result (λ h. pass.new ≡ adds self.old.history (Event.Give h) pass.old) }
        ensures none { IfNone result (pass.new ≡ looks self.old.history pass.old) }
        ensures choice { IfNone result (choice N.job self.old.history ≡ None) }
    {
        let Some(keeper) = self.keeper.take() else {
            unreachable!();
        };
        enter(seats, &mut pass.seat, keeper);
        let count = self.board.len();
        let hand = hand_out(&mut self.board, drawn);
        if let Some(hand) = hand {
            raise(seats, &mut pass.seat, count, &Event::Give(hand));
        }
        self.keeper = Some(leave(seats, &mut pass.seat));
        hand
    }

    pub(crate) fn answer(
        &mut self,
        seats: &Seats,
        pass: &mut Pass<B>,
        hand: Hand,
        piece: P,
    ) -> Told<P>
        requires seats { (seats.now.table_id ≡ B.table) × (0 < seats.now.table_id.words) }
        requires given { has_give pass.old.seen hand ≡ true }
        requires tablet { P.tablet_of piece ≡ hand.tablet }
        requires truth { N.is_true hand.tablet piece }
        ensures told { result ≡ (if has_answer self.old.history hand.tablet then Told.Spare piece else Told.Kept) }
        ensures history { self.new.history ≡ after_event N.job self.old.history (Event.Answer hand) }
        ensures pieces { self.new.pieces ≡ pieces_after self.old hand.tablet piece }
        ensures recorded { is_history N.job self.new.history ≡ true }
        ensures earlier { IsPrefix pass.old.seen self.old.history }
        ensures kept { has_answer self.old.history hand.tablet ≡ false → pass.new
            ≡ adds self.old.history (Event.Answer hand) pass.old }
        ensures spare { has_answer self.old.history hand.tablet ≡ true → pass.new ≡ looks self.old.history pass.old }
    {
        let Some(keeper) = self.keeper.take() else {
            unreachable!();
        };
        enter(seats, &mut pass.seat, keeper);
        let count = self.board.len();
        let told = self.board.answer(hand, piece);
        if let Told::Kept = told {
            raise(seats, &mut pass.seat, count, &Event::Answer(hand));
        }
        self.keeper = Some(leave(seats, &mut pass.seat));
        told
    }

    pub(crate) fn fault(
        &mut self,
        seats: &Seats,
        pass: &mut Pass<B>,
        hand: Hand,
        cause: Cause,
    ) -> bool
        requires { (seats.now.table_id ≡ B.table) × (0 < seats.now.table_id.words) }
        ensures told { result ≡ is_recorded N.job self.old.history (Event.Fault hand cause) }
        ensures history { self.new.history ≡ after_event N.job self.old.history (Event.Fault hand cause) }
        ensures pieces { self.new.pieces ≡ self.old.pieces }
        ensures recorded { is_history N.job self.new.history ≡ true }
        ensures earlier { IsPrefix pass.old.seen self.old.history }
        ensures pass { pass.new ≡ (if result then adds self.old.history (Event.Fault hand cause) pass.old
            else looks self.old.history pass.old) }
    {
        let Some(keeper) = self.keeper.take() else {
            unreachable!();
        };
        enter(seats, &mut pass.seat, keeper);
        let count = self.board.len();
        let recorded = self.board.fault(hand, cause);
        if recorded {
            raise(seats, &mut pass.seat, count, &Event::Fault(hand, cause));
        }
        self.keeper = Some(leave(seats, &mut pass.seat));
        recorded
    }
}
