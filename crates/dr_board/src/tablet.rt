// What is kept of a tablet.
ghost use Rattle.std.specs.Prelude.{◌≡◌, ◌&&◌, ◌||◌, ◌==◌, not, map, IfOk};
ghost use Rattle.std.specs.List.{list_any, list_all};
ghost use Rattle.dr_board.specs.Tablets.{new_leaf, open_hand, first_leaf_hand, is_on, is_given_on, has_failed_on, marked_leaf, leaf_after, hand_of};

use dr_dispatch::{Event, Hand};
use dr_memory::NoMemory;
use std::alloc::{AllocError, Global};
use std::marker::Model;

// A leaf on which a tablet can be read.
#[derive(Clone, Copy, Debug)]
pub(crate) struct LeafState {
    leaf: u32,
    // The tablet was given on it.
    given: bool,
    // That failed.
    failed: bool,
}

#[derive(Debug, Drop)]
pub(crate) struct Tablet {
    leaves: Vec<LeafState>,
    answered: bool,
    // The number of events up to its last hand-out, that one included.
    last: u64,
}

impl Model for Tablet {
    ghost use Rattle.dr_board.specs.Tablets.{TabletShown};

    ghost Value = { TabletShown };

    ghost view = { λ t. record { leaves = t.leaves.items; answered = t.answered; last = t.last } };
}

fn unused(leaf: u32) -> LeafState
    ensures { result ≡ new_leaf leaf }
{
    LeafState {
        leaf,
        given: false,
        failed: false,
    }
}

fn first_open(number: u32, leaves: &[LeafState]) -> Option<Hand>
    ensures { result ≡ open_hand number leaves.now }
{
    'leaves: for state in leaves {
        if !state.given {
            return Some(Hand {
                tablet: number,
                leaf: state.leaf,
            });
        }
    }
    None
}

fn on_first(number: u32, leaves: &[LeafState]) -> Option<Hand>
    ensures { result ≡ first_leaf_hand number leaves.now }
{
    match leaves.first() {
        Some(state) => Some(Hand {
            tablet: number,
            leaf: state.leaf,
        }),
        None => None,
    }
}

fn is_not_at_work(leaves: &[LeafState]) -> bool
    ensures { result ≡ list_all (λ (l : LeafState). not l.given || l.failed) leaves.now }
{
    leaves.iter().all(|state| !state.given || state.failed)
}

fn has_leaf(leaves: &[LeafState], leaf: u32) -> bool
    ensures { result ≡ list_any (is_on leaf) leaves.now }
{
    leaves.iter().any(|state| state.leaf == leaf)
}

fn was_given_on(leaves: &[LeafState], leaf: u32) -> bool
    ensures { result ≡ list_any (is_given_on leaf) leaves.now }
{
    leaves.iter().any(|state| state.leaf == leaf && state.given)
}

fn failed_on(leaves: &[LeafState], leaf: u32) -> bool
    ensures { result ≡ list_any (has_failed_on leaf) leaves.now }
{
    leaves
        .iter()
        .any(|state| state.leaf == leaf && state.failed)
}

// The leaf after the tablet was given on it, or after that failed.
fn marked(state: LeafState, failed: bool) -> LeafState
    ensures { result ≡ marked_leaf failed state }
{
    LeafState {
        leaf: state.leaf,
        given: state.given || !failed,
        failed: state.failed || failed,
    }
}

fn marked_on(state: LeafState, leaf: u32, failed: bool) -> LeafState
    ensures { result ≡ leaf_after failed leaf state }
{
    if leaf == state.leaf {
        marked(state, failed)
    } else {
        state
    }
}

fn mark(leaves: &mut [LeafState], leaf: u32, failed: bool)
    ensures { leaves.new ≡ map (leaf_after failed leaf) leaves.old }
{
    'leaves: for state in leaves.iter_mut() {
        *state = marked_on(*state, leaf, failed);
    }
}

fn unused_leaves(alloc: Global, leaves: &[u32]) -> Result<Vec<LeafState>, AllocError>
    ensures { IfOk result (λ v. v.items ≡ map new_leaf leaves.now) }
{
    leaves.iter().map(|leaf| unused(*leaf)).collect(alloc)
}

impl Tablet {
    ghost use Rattle.std.specs.Prelude.{◌≤◌};
    ghost use Rattle.dr_board.specs.Tablets.{new_tablet, urgent_hand, late_hand, fresh_hand, takes_event, tablet_after};

    // A tablet of these leaves.
    pub(crate) fn new(alloc: Global, leaves: &[u32]) -> Result<Tablet, NoMemory>
        ensures { IfOk result (λ t. t ≡ new_tablet leaves.now) }
    {
        Ok(Tablet {
            leaves: unused_leaves(alloc, leaves)?,
            answered: false,
            last: 0,
        })
    }

    // Whether it was answered.
    pub(crate) fn is_answered(&self) -> bool
        ensures { result ≡ self.now.answered }
    {
        self.answered
    }

    // Its next leaf, where no leaf is at work on it.
    pub(crate) fn urgent(&self, number: u32) -> Option<Hand>
        ensures { result ≡ urgent_hand number self.now }
    {
        if self.answered || !is_not_at_work(self.leaves.as_slice()) {
            return None;
        }
        first_open(number, self.leaves.as_slice())
    }

    // Its next leaf, where its last hand-out has at least `lag` of the `count` events behind it.
    pub(crate) fn late(&self, number: u32, lag: u64, count: u64) -> Option<Hand>
        ensures { result ≡ late_hand lag count number self.now }
    {
        if self.answered || count.saturating_sub(self.last) < lag {
            return None;
        }
        first_open(number, self.leaves.as_slice())
    }

    // Its first leaf, where it wasn't given on any.
    pub(crate) fn fresh(&self, number: u32) -> Option<Hand>
        ensures { result ≡ fresh_hand number self.now }
    {
        if self.last != 0 {
            return None;
        }
        on_first(number, self.leaves.as_slice())
    }

    // Whether it was given on the leaf.
    pub(crate) fn was_given(&self, leaf: u32) -> bool
        ensures { result ≡ list_any (is_given_on leaf) self.now.leaves }
    {
        was_given_on(self.leaves.as_slice(), leaf)
    }

    // Whether an event of it is recorded.
    pub(crate) fn takes(&self, event: Event) -> bool
        ensures { result ≡ takes_event self.now event }
    {
        let leaves = self.leaves.as_slice();
        match event {
            Event::Give(hand) => {
                has_leaf(leaves, hand.leaf) && !self.answered && !was_given_on(leaves, hand.leaf)
            }
            Event::Answer(hand) => was_given_on(leaves, hand.leaf) && !self.answered,
            Event::Fault(hand, _) => {
                was_given_on(leaves, hand.leaf) && !failed_on(leaves, hand.leaf) && !self.answered
            }
        }
    }

    // Notes an event of it, the count-th of all.
    pub(crate) fn note(&mut self, event: Event, count: u64)
        ensures { self.new ≡ tablet_after count self.old event }
    {
        match event {
            Event::Give(hand) => {
                mark(self.leaves.as_mut_slice(), hand.leaf, false);
                self.last = count;
            }
            Event::Answer(_) => self.answered = true,
            Event::Fault(hand, _) => mark(self.leaves.as_mut_slice(), hand.leaf, true),
        }
    }
}

// The tablet that the event is of.
pub(crate) fn tablet_of(event: Event) -> u32
    ensures { result ≡ (hand_of event).tablet }
{
    match event {
        Event::Give(hand) | Event::Answer(hand) | Event::Fault(hand, _) => hand.tablet,
    }
}
