ghost use Rattle.std.specs.Prelude.{◌≡◌, ◌+◌, ◌<◌, ◌≤◌, ◌^◌, length, true, IfOk, IfSome, if◌then◌else◌};
ghost use Rattle.dr_dispatch.specs.History.{has_give, has_answer, is_recorded, after_event, is_history};
ghost use Rattle.dr_dispatch.specs.Choice.{choice, after_give, after_take};
ghost use Rattle.dr_dispatch.specs.Draws.{fresh};
ghost use Rattle.dr_dispatch.specs.Pieces.{KeepsPieces};
ghost use Rattle.dr_board.specs.Shown.{empty_board, pieces_after};

use crate::job::Job;
use crate::looks::Looks;
use crate::piece::{Naming, Piece};
use crate::state::State;
use dr_dispatch::{Event, Hand};
use dr_memory::NoMemory;
use dr_outside::Cause;
use std::alloc::Global;
use std::marker::{Model, PhantomData};

/// The history of a job so far, and a piece for each tablet that was answered. After it is made, no call takes memory.
#[derive(Drop)]
pub struct Board<P: Piece + Drop, N: Naming<P>> {
    state: State,
    pieces: Vec<P>,
    of: PhantomData<N>,
}

impl<P: Piece + Drop, N: Naming<P>> Model for Board<P, N> {
    ghost use Rattle.std.specs.Prelude.{vec_capacity};
    ghost use Rattle.dr_board.specs.Shown.{BoardShown, KeepsBoard};

    ghost Value = { BoardShown P };

    ghost view = { λ b. record { history = b.state.history; pieces = b.pieces.items } };

    ghost invariant = { λ b. KeepsBoard N.job P.tablet_of N.is_true b.state b.pieces.items (vec_capacity b.pieces) };
}

/// What became of an answer.
#[derive(Debug, Drop, PartialEq, Eq)]
pub enum Told<P> {
    /// Its piece is kept.
    Kept,
    /// The tablet was answered before, and the piece comes back.
    Spare(P),
}

/// A board that is closed.
#[derive(Debug, Drop)]
pub struct Closing<P> {
    pub history: Vec<Event>,
    /// One for each tablet that was answered, in the order of the answers.
    pub pieces: Vec<P>,
}

impl<P: Piece + Drop, N: Naming<P>> Board<P, N> {
    /// A board without events for the job that N names. It reserves room for three events a pair of a tablet and a
    /// leaf, and for a piece a tablet.
    ///
    /// Errors: want of memory alone.
    pub fn new(alloc: Global, job: &Job) -> Result<Self, NoMemory>
        requires job { job.now ≡ N.job }
        requires tablets { length job.now.leaves ≤ 2 ^ 32 }
        ensures { IfOk result (λ b. b ≡ empty_board) }
    {
        let state = State::new(alloc, job)?;
        let pieces = Vec::with_capacity(alloc, job.leaves.len())?;
        Ok(Board {
            state,
            pieces,
            of: PhantomData,
        })
    }

    /// How many events there are.
    pub fn len(&self) -> u64
        ensures count { result ≡ length self.now.history }
        ensures bound { result < 2 ^ 63 }
    {
        self.state.len()
    }

    /// How many tablets there are.
    pub fn tablets(&self) -> u64
        ensures count { result ≡ length N.job.leaves }
        ensures bound { result ≤ 2 ^ 32 }
    {
        self.state.tablets()
    }

    /// Whether the hand was given.
    pub fn was_given(&self, hand: Hand) -> bool
        ensures { result ≡ has_give self.now.history hand }
    {
        self.state.was_given(hand)
    }

    /// The choice of the dispatch machine, which isn't recorded. It looks at each tablet once at most.
    pub fn choose(&self, looks: &mut Looks) -> Option<Hand>
        ensures hand { result ≡ choice N.job self.now.history }
        ensures looks { looks.new ≤ looks.old + length N.job.leaves }
        ensures never_falls { looks.old ≤ looks.new }
    {
        self.state.choose(looks)
    }

    /// Hands out the choice of the dispatch machine, if it has one.
    pub fn take(&mut self) -> Option<Hand>
        ensures hand { result ≡ choice N.job self.old.history }
        ensures history { self.new.history ≡ after_take N.job self.old.history }
        ensures pieces { self.new.pieces ≡ self.old.pieces }

        // What follows from that.
        ensures recorded { is_history N.job self.new.history ≡ true }
        ensures given { IfSome result (λ h. has_give self.new.history h ≡ true) }
    {
        self.state.take()
    }

    /// Hands out the tablet on its first leaf, unless it was handed out before; None also where it has no leaf, or
    /// there is no such tablet.
    pub fn fresh(&mut self, tablet: u32) -> Option<Hand>
        ensures hand { result ≡ fresh N.job self.old.history tablet }
        ensures history { self.new.history ≡ after_give self.old.history (fresh N.job self.old.history tablet) }
        ensures pieces { self.new.pieces ≡ self.old.pieces }

        // What follows from that.
        ensures recorded { is_history N.job self.new.history ≡ true }
        ensures given { IfSome result (λ h. has_give self.new.history h ≡ true) }
    {
        self.state.fresh(tablet)
    }

    /// Keeps the piece for the hand's tablet, unless the tablet was answered before: then the piece comes back.
    pub fn answer(&mut self, hand: Hand, piece: P) -> Told<P>
        requires given { has_give self.old.history hand ≡ true }
        requires tablet { P.tablet_of piece ≡ hand.tablet }
        requires truth { N.is_true hand.tablet piece }
        ensures told { result ≡ (if has_answer self.old.history hand.tablet then Told.Spare piece else Told.Kept) }
        ensures history { self.new.history ≡ after_event N.job self.old.history (Event.Answer hand) }
        ensures pieces { self.new.pieces ≡ pieces_after self.old hand.tablet piece }

        // What follows from that.
        ensures recorded { is_history N.job self.new.history ≡ true }
    {
        if !self.state.record(Event::Answer(hand)) {
            return Told::Spare(piece);
        }
        self.pieces.push_reserved(piece);
        Told::Kept
    }

    /// Records that the hand failed, where it was given and had no fault and its tablet no answer, and says whether it
    /// did.
    pub fn fault(&mut self, hand: Hand, cause: Cause) -> bool
        ensures told { result ≡ is_recorded N.job self.old.history (Event.Fault hand cause) }
        ensures history { self.new.history ≡ after_event N.job self.old.history (Event.Fault hand cause) }
        ensures pieces { self.new.pieces ≡ self.old.pieces }

        // What follows from that.
        ensures recorded { is_history N.job self.new.history ≡ true }
    {
        self.state.record(Event::Fault(hand, cause))
    }

    /// The history and the pieces.
    pub fn close(self) -> Closing<P>
        ensures history { result.history.items ≡ self.history }
        ensures pieces { result.pieces.items ≡ self.pieces }

        // What is always so of a board.
        ensures kept { KeepsPieces N.job P.tablet_of N.is_true result.history.items result.pieces.items }
    {
        let Board {
            state,
            pieces,
            of: _,
        } = self;
        Closing {
            history: state.into_history(),
            pieces,
        }
    }
}
