ghost use Rattle.std.specs.Prelude.{◌≡◌, ◌≤◌, ◌^◌, [], length, true, None, ◌||◌, replicate, IfOk, IfSome, IfNone, MatchBool};
ghost use mathlib.Core.List.{IsPrefix};
ghost use Rattle.dr_dispatch.specs.History.{has_give, has_answer, has_fault, is_history};
ghost use Rattle.dr_dispatch.specs.Choice.{choice};
ghost use Rattle.dr_dispatch.specs.Pieces.{KeepsPieces};
ghost use Rattle.dr_dispatch.specs.Seen.{AreOfHistory, drew};
ghost use Rattle.dr_desk.specs.Calls.{new_pass, IsDrawTold, Takes, IsAnswerTold, IsFaultTold};

use crate::ground::Ground;
use crate::locked::Locked;
use crate::pass::Pass;
use crate::room::Room;
use crate::rule::SeatTable;
use crate::steps::{draw, gather, look, newcomer};
use dr_board::{Board, Closing, Event, Hand, Naming, NoMemory, Piece, Told};
use dr_outside::Cause;
use std::alloc::Global;
use std::marker::PhantomData;
use std::sync::{Mutex, Wait};

/// A board under a lock, and beside it the next tablet to be drawn. Each call of a pass is at most one event, and tells
/// the pass the history up to it. Its calls wait for the lock, and take no memory.
#[derive(Drop)]
pub struct Desk<P: Piece + Drop, N: Naming<P>, B: Room> {
    table: SeatTable,
    tablets: u64,
    lock: Mutex<Locked<P, N, B>>,
    ghost named: { table.shared.table_id ≡ B.table },
    ghost counts: { table.shared.table_id.words ≡ 2 },
    ghost limit: { (table.shared.key ≡ tablets) × (tablets ≡ length N.job.leaves) × (tablets ≤ 2 ^ 32) },
}

impl<P: Piece + Drop, N: Naming<P>, B: Room> Desk<P, N, B> {
    /// A desk over a board without events, and so many passes. The ground was made for the board's tablets.
    ///
    /// Errors: want of memory alone.
    pub fn new(
        alloc: Global,
        ground: Ground,
        board: Board<P, N>,
        count: usize,
    ) -> Result<(Self, Vec<Pass<B>>), NoMemory>
        requires ground { ground.table ≡ B.table }
        requires tablets { ground.tablets ≡ length N.job.leaves }
        requires board { board.history ≡ [] }
        ensures { IfOk result (λ made. made.1.items ≡ replicate count new_pass) }
    {
        let mut passes = Vec::with_capacity(alloc, count)?;
        let Ground { table, mut keeper } = ground;
        'passes: for number in 0..count {
            let seat = newcomer(&table.shared, &mut keeper);
            passes.push_reserved(Pass {
                number,
                seat,
                next: 0,
                of: PhantomData,
            });
        }
        let tablets = board.tablets();
        let locked = Locked {
            board,
            keeper: Some(keeper),
            of: PhantomData,
        };
        let desk = Desk {
            table,
            tablets,
            lock: Mutex::new(locked),
        };
        Ok((desk, passes))
    }

    /// Draws a tablet, unless all are drawn or another pass draws it first, and hands it out on its first leaf. Where
    /// none was drawn, or it was handed out before, it hands out the choice of the dispatch machine, if it has one.
    pub fn take<R: Wait>(&self, rt: &R, pass: &mut Pass<B>) -> Option<Hand>
        ensures earlier { IsPrefix pass.old.seen pass.new.seen }
        ensures recorded { is_history N.job pass.new.seen ≡ true }
        ensures taken { IfSome result (λ h. Takes N.job h pass.old pass.new) }
        ensures none { IfNone result (choice N.job pass.new.seen ≡ None) }
        ensures own { IfNone result (pass.new.own ≡ pass.old.own) }
        ensures draws { IsDrawTold pass.old pass.new }

        // What follows from that.
        ensures given { IfSome result (λ h. has_give pass.new.seen h ≡ true) }
    {
        let drawn = self.draw(pass);
        self.lock.lock(rt).take(&self.table.shared, pass, drawn)
    }

    // Draws the next tablet, outside the lock, where it is the one that the pass last knew as the next. Otherwise the
    // pass knows the next one from then on.
    fn draw(&self, pass: &mut Pass<B>) -> Option<u32>
        ensures { pass.new ≡ drew result pass.old }
    {
        let next = pass.next;
        if next >= self.tablets {
            return None;
        }
        let found = draw(&self.table.shared, &mut pass.seat, next);
        if found != next {
            pass.next = found;
            return None;
        }
        pass.next = next + 1;
        Some(next as u32)
    }

    /// Keeps the piece for the hand's tablet, unless the tablet was answered before: then the piece comes back.
    pub fn answer<R: Wait>(&self, rt: &R, pass: &mut Pass<B>, hand: Hand, piece: P) -> Told<P>
        requires given { has_give pass.old.seen hand ≡ true }
        requires tablet { P.tablet_of piece ≡ hand.tablet }
        requires truth { N.is_true hand.tablet piece }
        ensures earlier { IsPrefix pass.old.seen pass.new.seen }
        ensures recorded { is_history N.job pass.new.seen ≡ true }
        ensures told { IsAnswerTold N.job hand piece pass.old pass.new result }
    {
        self.lock
            .lock(rt)
            .answer(&self.table.shared, pass, hand, piece)
    }

    /// Records that the hand failed, where it was given and had no fault and its tablet no answer, and says whether it
    /// did.
    pub fn fault<R: Wait>(&self, rt: &R, pass: &mut Pass<B>, hand: Hand, cause: Cause) -> bool
        ensures earlier { IsPrefix pass.old.seen pass.new.seen }
        ensures recorded { is_history N.job pass.new.seen ≡ true }
        ensures told { IsFaultTold N.job hand cause pass.old pass.new result }

        // What follows from that.
        ensures settled { has_give pass.old.seen hand ≡ true
            → (has_fault pass.new.seen hand || has_answer pass.new.seen hand.tablet) ≡ true }
    {
        self.lock
            .lock(rt)
            .fault(&self.table.shared, pass, hand, cause)
    }

    /// Closes the board. These passes' threads have ended.
    pub fn shut(self, mut passes: Vec<Pass<B>>) -> Closing<P>
        ensures passes { AreOfHistory result.history.items passes.items }
        ensures kept { KeepsPieces N.job P.tablet_of N.is_true result.history.items result.pieces.items }
    {
        let Desk {
            table,
            tablets: _,
            lock,
        } = self;
        let Locked {
            board,
            keeper,
            of: _,
        } = lock.into_inner();
        let Some(mut keeper) = keeper else {
            unreachable!();
        };
        'passes: while let Some(pass) = passes.pop() {
            let Pass {
                number: _,
                seat,
                next: _,
                of: _,
            } = pass;
            gather(&table.shared, &mut keeper, seat);
        }
        look(&table.shared, &mut keeper);
        board.close()
    }
}
