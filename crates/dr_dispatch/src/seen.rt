use crate::event::Event;
use std::collections::LinkedList;

/// What a pass shows: a history that it has seen, the places of its own events in it, ascending, and the tablets that
/// it drew, ascending. Proofs alone speak of it, and no value of it is made.
pub struct PassShown {
    pub seen: LinkedList<Event>,
    pub own: LinkedList<u64>,
    pub drawn: LinkedList<u64>,
}

/// What a seat knows: what a pass shows, whether it keeps the history, and what the seats showed that joined it since
/// it last looked. Proofs alone speak of it, and no value of it is made.
pub struct SeatView {
    pub seen: LinkedList<Event>,
    pub own: LinkedList<u64>,
    pub drawn: LinkedList<u64>,
    pub keeps: bool,
    pub met: LinkedList<PassShown>,
}
