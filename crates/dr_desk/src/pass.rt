use crate::room::Room;
use crate::rule::Place;
use std::marker::{Model, PhantomData};

/// What a thread calls a desk with. A contract sees it as a history that it has seen, the places of its own events
/// there, and the tablets that it drew.
#[derive(Drop)]
pub struct Pass<B: Room> {
    // Which of the desk's passes it is, from 0. With it a pass has bytes, so that passes can lie side by side.
    pub(crate) number: usize,
    pub(crate) seat: Place,
    // The next tablet to be drawn, as it was found last.
    pub(crate) next: u64,
    pub(crate) of: PhantomData<B>,
}

impl<B: Room> Model for Pass<B> {
    ghost use Rattle.dr_dispatch.specs.declared.seen.PassShown.{PassShown};
    ghost use Rattle.dr_dispatch.specs.Seats.{shown};
    ghost use Rattle.dr_desk.specs.Rule.{IsPassSeat};

    ghost Value = { PassShown };

    ghost view = { λ p. shown p.seat.me.0 };

    ghost invariant = { λ p. IsPassSeat B.table p.seat.table_id p.seat.me p.next };
}
