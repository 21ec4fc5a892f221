ghost use Rattle.std.specs.Prelude.{◌≡◌, ◌+◌, ◌<◌, ◌≤◌, ◌^◌, ◌++◌, [], ◌∷◌, map, length, true, IfOk, IfSome};
ghost use Rattle.dr_dispatch.specs.History.{has_give, is_recorded, after_event, is_history};
ghost use Rattle.dr_dispatch.specs.Choice.{choice, after_give, after_take};
ghost use Rattle.dr_dispatch.specs.Draws.{fresh};
ghost use Rattle.dr_board.specs.Tablets.{new_tablet};
ghost use Rattle.dr_board.specs.Shown.{first_state};

use crate::choosing::{choose, past_answered};
use crate::job::{Job, count_pairs};
use crate::looks::Looks;
use crate::tablet::{Tablet, tablet_of};
use dr_dispatch::{Event, Hand};
use dr_memory::NoMemory;
use std::alloc::Global;
use std::marker::Model;

/// The history of a job so far, and what it says of each tablet. After it is made, no call takes memory.
#[derive(Debug, Drop)]
pub struct State {
    lag: u64,
    tablets: Vec<Tablet>,
    history: Vec<Event>,
    // All tablets before this place were answered.
    start: usize,
}

impl Model for State {
    ghost use Rattle.std.specs.Prelude.{vec_capacity};
    ghost use Rattle.dr_board.specs.Tablets.{job_of};
    ghost use Rattle.dr_board.specs.Shown.{StateShown, KeepsState};

    ghost Value = { StateShown };

    ghost view = { λ s. record { job = job_of s.lag s.tablets.items; history = s.history.items } };

    ghost invariant = { λ s. KeepsState (job_of s.lag s.tablets.items) s.history.items s.tablets.items
        (vec_capacity s.history) s.start };
}

impl State {
    /// The state before the first event. It reserves room for three events a pair of a tablet and a leaf.
    ///
    /// Errors: want of memory alone.
    pub fn new(alloc: Global, job: &Job) -> Result<State, NoMemory>
        requires { length job.now.leaves ≤ 2 ^ 32 }
        ensures { IfOk result (λ s. s ≡ first_state job.now) }
    {
        let most_events = 3 * count_pairs(job)?;
        let history = Vec::with_capacity(alloc, most_events)?;
        let tablets = new_tablets(alloc, job.leaves.as_slice())?;
        Ok(State {
            lag: job.lag,
            tablets,
            history,
            start: 0,
        })
    }

    /// The events, in their order.
    pub fn history(&self) -> &[Event]
        ensures { result.now ≡ self.now.history }
    {
        self.history.as_slice()
    }

    /// How many events there are.
    pub fn len(&self) -> u64
        ensures count { result ≡ length self.now.history }
        ensures bound { result < 2 ^ 63 }
    {
        self.history.len() as u64
    }

    /// How many tablets there are.
    pub fn tablets(&self) -> u64
        ensures count { result ≡ length self.now.job.leaves }
        ensures bound { result ≤ 2 ^ 32 }
    {
        self.tablets.len() as u64
    }

    /// Whether the hand was given.
    pub fn was_given(&self, hand: Hand) -> bool
        ensures { result ≡ has_give self.now.history hand }
    {
        match self.tablets.get(hand.tablet as usize) {
            Some(tablet) => tablet.was_given(hand.leaf),
            None => false,
        }
    }

    /// Records the event, if it is recorded at its place, and says whether it is.
    pub fn record(&mut self, event: Event) -> bool
        ensures told { result ≡ is_recorded self.old.job self.old.history event }
        ensures history { self.new.history ≡ after_event self.old.job self.old.history event }
        ensures job { self.new.job ≡ self.old.job }

        // What follows from that.
        ensures recorded { is_history self.new.job self.new.history ≡ true }
    {
        if !self.takes(event) {
            return false;
        }
        self.add(event);
        true
    }

    /// Hands out the choice of the dispatch machine, if it has one.
    pub fn take(&mut self) -> Option<Hand>
        ensures hand { result ≡ choice self.old.job self.old.history }
        ensures history { self.new.history ≡ after_take self.old.job self.old.history }
        ensures job { self.new.job ≡ self.old.job }

        // What follows from that.
        ensures recorded { is_history self.new.job self.new.history ≡ true }
        ensures given { IfSome result (λ h. has_give self.new.history h ≡ true) }
    {
        self.go_on();
        let Some(hand) = self.choose(&mut Looks::new()) else {
            return None;
        };
        self.add(Event::Give(hand));
        Some(hand)
    }

    /// The choice of the dispatch machine, which isn't recorded. It looks at each tablet once at most.
    pub fn choose(&self, looks: &mut Looks) -> Option<Hand>
        ensures hand { result ≡ choice self.now.job self.now.history }
        ensures looks { looks.new ≤ looks.old + length self.now.job.leaves }
        ensures never_falls { looks.old ≤ looks.new }

        // What follows from that.
        ensures takes { IfSome result (λ h. is_recorded self.now.job self.now.history (Event.Give h) ≡ true) }

        // What is always so of a state.
        ensures recorded { is_history self.now.job self.now.history ≡ true }
    {
        choose(
            self.tablets.as_slice(),
            self.start,
            self.lag,
            self.history.len() as u64,
            looks,
        )
    }

    /// Hands out the tablet on its first leaf, unless it was handed out before; None also where it has no leaf, or
    /// there is no such tablet.
    pub fn fresh(&mut self, tablet: u32) -> Option<Hand>
        ensures hand { result ≡ fresh self.old.job self.old.history tablet }
        ensures history { self.new.history ≡ after_give self.old.history (fresh self.old.job self.old.history tablet) }
        ensures job { self.new.job ≡ self.old.job }

        // What follows from that.
        ensures recorded { is_history self.new.job self.new.history ≡ true }
        ensures given { IfSome result (λ h. has_give self.new.history h ≡ true) }
    {
        let Some(hand) = self.find_fresh(tablet) else {
            return None;
        };
        self.add(Event::Give(hand));
        Some(hand)
    }

    // The tablet on its first leaf, where it wasn't handed out.
    fn find_fresh(&self, tablet: u32) -> Option<Hand>
        ensures hand { result ≡ fresh self.now.job self.now.history tablet }
        ensures takes { IfSome result (λ h. is_recorded self.now.job self.now.history (Event.Give h) ≡ true) }
        ensures recorded { is_history self.now.job self.now.history ≡ true }
    {
        match self.tablets.get(tablet as usize) {
            Some(found) => found.fresh(tablet),
            None => None,
        }
    }

    // Goes past answered tablets, which no choice looks at from then on.
    fn go_on(&mut self)
        ensures { self.new ≡ self.old }
    {
        self.start = past_answered(self.tablets.as_slice(), self.start);
    }

    // Whether the event is recorded.
    fn takes(&self, event: Event) -> bool
        ensures told { result ≡ is_recorded self.now.job self.now.history event }
        ensures recorded { is_history self.now.job self.now.history ≡ true }
    {
        match self.tablets.get(tablet_of(event) as usize) {
            Some(tablet) => tablet.takes(event),
            None => false,
        }
    }

    // Adds an event that is recorded.
    fn add(&mut self, event: Event)
        requires { is_recorded self.old.job self.old.history event ≡ true }
        ensures history { self.new.history ≡ self.old.history ++ event ∷ [] }
        ensures job { self.new.job ≡ self.old.job }
        ensures recorded { is_history self.new.job self.new.history ≡ true }
    {
        let place = tablet_of(event) as usize;
        self.history.push_reserved(event);
        let count = self.history.len() as u64;
        self.tablets[place].note(event, count);
    }

    /// The events, in their order.
    pub fn into_history(self) -> Vec<Event>
        ensures history { result.items ≡ self.history }

        // What is always so of a state.
        ensures recorded { is_history self.job self.history ≡ true }
    {
        let State {
            lag: _,
            tablets: _,
            history,
            start: _,
        } = self;
        history
    }
}

fn new_tablets(alloc: Global, leaves: &[Vec<u32>]) -> Result<Vec<Tablet>, NoMemory>
    ensures { IfOk result (λ v. v.items ≡ map new_tablet (map (λ v. v.items) leaves.now)) }
{
    let mut tablets = Vec::with_capacity(alloc, leaves.len())?;
    'tablets: for place in 0..leaves.len() {
        tablets.push_reserved(Tablet::new(alloc, leaves[place].as_slice())?);
    }
    Ok(tablets)
}
