//! Desks.

ghost use Rattle.std.specs.Prelude.{◌≡◌, true, None, IfSome, IfNone};
ghost use mathlib.Core.List.{IsPrefix};
ghost use Rattle.dr_dispatch.specs.History.{has_give, is_history};
ghost use Rattle.dr_dispatch.specs.Choice.{choice};
ghost use Rattle.dr_dispatch.specs.Pieces.{KeepsPieces};
ghost use Rattle.dr_dispatch.specs.Seen.{AreOfHistory};
ghost use Rattle.dr_desk.specs.Calls.{IsDrawTold, Takes, IsAnswerTold};

use dr_board::{Closing, Hand, Naming, Piece, Told};
use dr_desk::{Desk, Pass, Room};
use std::sync::Wait;

/// As `Desk::take`.
pub fn taken<P: Piece + Drop, N: Naming<P>, B: Room, R: Wait>(
    desk: &Desk<P, N, B>,
    rt: &R,
    pass: &mut Pass<B>,
) -> Option<Hand>
    ensures earlier { IsPrefix pass.old.seen pass.new.seen }
    ensures recorded { is_history N.job pass.new.seen ≡ true }
    ensures taken { IfSome result (λ h. Takes N.job h pass.old pass.new) }
    ensures none { IfNone result (choice N.job pass.new.seen ≡ None) }
    ensures own { IfNone result (pass.new.own ≡ pass.old.own) }
    ensures draws { IsDrawTold pass.old pass.new }

    // What follows from that.
    ensures given { IfSome result (λ h. has_give pass.new.seen h ≡ true) }
{
    desk.take(rt, pass)
}

/// As `Desk::answer`.
pub fn answered<P: Piece + Drop, N: Naming<P>, B: Room, R: Wait>(
    desk: &Desk<P, N, B>,
    rt: &R,
    pass: &mut Pass<B>,
    hand: Hand,
    piece: P,
) -> Told<P>
    requires given { has_give pass.old.seen hand ≡ true }
    requires tablet { P.tablet_of piece ≡ hand.tablet }
    requires truth { N.is_true hand.tablet piece }
    ensures earlier { IsPrefix pass.old.seen pass.new.seen }
    ensures recorded { is_history N.job pass.new.seen ≡ true }
    ensures told { IsAnswerTold N.job hand piece pass.old pass.new result }
{
    desk.answer(rt, pass, hand, piece)
}

/// As `Desk::shut`.
pub fn closed<P: Piece + Drop, N: Naming<P>, B: Room>(
    desk: Desk<P, N, B>,
    passes: Vec<Pass<B>>,
) -> Closing<P>
    ensures passes { AreOfHistory result.history.items passes.items }
    ensures kept { KeepsPieces N.job P.tablet_of N.is_true result.history.items result.pieces.items }
{
    desk.shut(passes)
}
